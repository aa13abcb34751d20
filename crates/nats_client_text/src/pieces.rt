//! The pieces of a line, and what one says.
ghost use Rattle.std.specs.Prelude.{◌≡◌, not, Some};
ghost use Rattle.std.specs.List.{list_all};
ghost use Rattle.nats_names.specs.Names.{is_separator, is_publishable};
ghost use Rattle.nats_client_text.specs.Pieces.{pieces_of, begins_number, plain_number, word_of};
ghost use Rattle.nats_client_text.specs.Code.{pieces_left, pieces_from};

/// A line cut behind its first piece.
#[derive(Clone, Copy)]
pub struct Piece<'a> {
    pub text: &'a str,
    /// What follows the space behind the piece, `None` where the line ends with it.
    pub left: Option<&'a str>,
}

/// The words that a command may begin with.
#[derive(Clone, Copy)]
pub enum Word {
    Ping,
    Pong,
    Unsubscribe,
    Subscribe,
    Publish,
    HeaderPublish,
    Other,
}

/// The word that a piece is.
pub fn word_of(text: &str) -> Word
    ensures { result ≡ word_of text.now }
{
    if text == "PING" {
        Word::Ping
    } else if text == "PONG" {
        Word::Pong
    } else if text == "UNSUB" {
        Word::Unsubscribe
    } else if text == "SUB" {
        Word::Subscribe
    } else if text == "PUB" {
        Word::Publish
    } else if text == "HPUB" {
        Word::HeaderPublish
    } else {
        Word::Other
    }
}

fn first_piece(line: &str) -> Piece<'_>
    ensures { pieces_from (Some result) ≡ pieces_of line.now }
{
    match line.split_once(' ') {
        Some((text, left)) => Piece {
            text,
            left: Some(left),
        },
        None => Piece {
            text: line,
            left: None,
        },
    }
}

/// The first piece of what is left of a line, which may be empty; `None` where nothing is left.
pub fn next_piece(left: Option<&str>) -> Option<Piece<'_>>
    ensures { pieces_from result ≡ pieces_left left.entry }
{
    match left {
        Some(line) => Some(first_piece(line)),
        None => None,
    }
}

fn is_separator(b: u8) -> bool
    ensures { result ≡ is_separator b }
{
    matches!(b, b' ' | b'\t' | b'\r' | b'\n')
}

fn has_no_separator(bytes: &[u8]) -> bool
    ensures { result ≡ list_all (λ b. not (is_separator b)) bytes.now }
{
    bytes.iter().all(|b| !is_separator(*b))
}

fn is_publishable(bytes: &[u8]) -> bool
    ensures { result ≡ is_publishable bytes.now }
{
    !bytes.is_empty() && has_no_separator(bytes)
}

/// Whether each piece of a line has a byte and no white space.
pub fn are_pieces(line: &str) -> bool
    ensures { result ≡ list_all is_publishable (pieces_of line.now) }
{
    let mut left = Some(line);
    while let Some(piece) = next_piece(left) {
        if !is_publishable(piece.text.as_bytes()) {
            return false;
        }
        left = piece.left;
    }
    true
}

fn begins_number(digits: &[u8]) -> bool
    ensures { result ≡ begins_number digits.now }
{
    match digits {
        [] => false,
        [digit, digits @ ..] => {
            (b'1' <= *digit && *digit <= b'9') || (*digit == b'0' && digits.is_empty())
        }
    }
}

/// The number that a piece is.
pub fn number(text: &str) -> Option<u64>
    ensures { result ≡ plain_number text.now }
{
    if !begins_number(text.as_bytes()) {
        return None;
    }
    text.parse().ok()
}
