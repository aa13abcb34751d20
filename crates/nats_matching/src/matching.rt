//! Which subjects a pattern matches.
ghost use Rattle.std.specs.Prelude.{◌≡◌, Some};
ghost use Rattle.nats_matching.specs.Matching.{tokens_of, agrees, matches, takes_rest};
ghost use Rattle.nats_matching.specs.Code.{tokens_left, tokens_from};

/// A text cut behind its first token.
#[derive(Clone, Copy)]
pub struct Token<'a> {
    pub text: &'a str,
    /// What follows the dot behind the token, `None` where the text ends with it.
    pub left: Option<&'a str>,
}

fn first_token(text: &str) -> Token<'_>
    ensures { tokens_from (Some result) ≡ tokens_of text.now }
{
    match text.split_once('.') {
        Some((text, left)) => Token {
            text,
            left: Some(left),
        },
        None => Token { text, left: None },
    }
}

fn next_token(left: Option<&str>) -> Option<Token<'_>>
    ensures { tokens_from result ≡ tokens_left left.entry }
{
    match left {
        Some(text) => Some(first_token(text)),
        None => None,
    }
}

fn agrees(pattern: &str, token: &str) -> bool
    ensures { result ≡ agrees pattern.now token.now }
{
    pattern == "*" || pattern == token
}

fn takes_rest(pattern: Token<'_>) -> bool
    ensures { result ≡ takes_rest pattern.entry.text.now (tokens_left pattern.entry.left) }
{
    match pattern.left {
        None => pattern.text == ">",
        Some(_) => false,
    }
}

/// Whether `pattern` matches `subject`: their tokens, which stand between dots, agree one by one. `*` agrees with any
/// one token, and a last `>` with all that is left, one token or more; any other token agrees with itself, and
/// wildcards in the subject are plain tokens. It takes no memory, and time that grows with the two lengths. Rule of
/// the NATS protocol.
pub fn matches(pattern: &str, subject: &str) -> bool
    ensures { result ≡ matches pattern.now subject.now }
{
    let mut patterns = Some(pattern);
    let mut tokens = Some(subject);
    'tokens: while let Some(wanted) = next_token(patterns) {
        let Some(token) = next_token(tokens) else {
            return false;
        };
        if takes_rest(wanted) {
            return true;
        }
        if !agrees(wanted.text, token.text) {
            return false;
        }
        patterns = wanted.left;
        tokens = token.left;
    }
    match tokens {
        None => true,
        Some(_) => false,
    }
}
