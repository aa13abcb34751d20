//! Which rule a line of a script breaks.
use memchr::memchr;
use nats_script::NoMemory;
use std::alloc::Global;
use std::str;

/// The lines of a script: their words with the names of their fields; `..` stands for further pairs of the last two.
const FORMS: &str = "config C S check|skip P X
up N
open J
piece B
write N
tick
lost
giveup
hangup
pub S R B
hpub S R B NAME VALUE ..
sub S G
unsub s
limit s N
drain s
drop s
drainall
flush
reconnect
request S T B
hrequest S T B NAME VALUE ..
take s
deadline t";

/// How a field is spelled.
const SPELLING: &str =
    "a number is decimal, below 2^64 and without leading zeros; a byte other than 0x21 to 0x7D, and \
    `%` itself, is `%` and two upper-case hexadecimal digits; `%` alone is the empty text, `~` alone is none";

/// The line of this number, counted from 1, without its end.
fn line_of(script: &[u8], number: u64) -> &[u8] {
    let mut rest = script;
    for _ in 1..number {
        match memchr(b'\n', rest) {
            Some(at) => rest = rest.get(at.saturating_add(1)..).unwrap_or(&[]),
            None => return &[],
        }
    }
    match memchr(b'\n', rest) {
        Some(at) => &rest[..at],
        None => rest,
    }
}

/// The first word of a line.
fn word_of(line: &str) -> &str {
    match line.split_once(' ') {
        Some((word, _)) => word,
        None => line,
    }
}

/// The form of the lines that begin with this word.
fn form_of(word: &str) -> Option<&'static str> {
    FORMS.lines().find(|form| word_of(form) == word)
}

/// How many fields stand behind the first word of a line.
fn fields_in(line: &str) -> usize {
    line.split(' ').count().saturating_sub(1)
}

/// Whether a line has as many fields as its form has.
fn has_its_fields(form: &str, line: &str) -> bool {
    let (wanted, has) = (fields_in(form), fields_in(line));
    match form.strip_suffix(" ..") {
        Some(_) => match has.saturating_add(1).checked_sub(wanted) {
            Some(behind) => behind % 2 == 0,
            None => false,
        },
        None => has == wanted,
    }
}

/// What breaks a rule in a line of this form.
fn against(alloc: Global, form: &str, line: &str) -> Result<String, NoMemory> {
    if has_its_fields(form, line) {
        return Ok(format!(in alloc;
            "a field of `{form}` is not spelled as it should be: {SPELLING}"
        )?);
    }
    let has = fields_in(line);
    Ok(format!(in alloc;
        "the form is `{form}`, with one space between fields, and {has} fields stand behind its word"
    )?)
}

fn of_turn(alloc: Global, line: &str) -> Result<String, NoMemory> {
    let word = word_of(line);
    match form_of(word) {
        Some("config C S check|skip P X") => {
            Ok(String::from_str(alloc, "settings stand in line 1 alone")?)
        }
        Some(form) => against(alloc, form, line),
        None => Ok(format!(in alloc; "`{word}` is no turn of a script")?),
    }
}

fn of_settings(alloc: Global, line: &str) -> Result<String, NoMemory> {
    match form_of("config") {
        Some(form) if word_of(line) == "config" => against(alloc, form, line),
        _ => Ok(String::from_str(
            alloc,
            "it has the settings, as `config 2048 65536 check _INBOX MUX1`",
        )?),
    }
}

fn of_text(alloc: Global, number: u64, line: &str) -> Result<String, NoMemory> {
    if number == 1 {
        return of_settings(alloc, line);
    }
    if line.is_empty() {
        return Ok(String::from_str(alloc, "an empty line is no turn")?);
    }
    of_turn(alloc, line)
}

/// Which rule the line of this number breaks, counted from 1.
pub fn trouble(alloc: Global, script: &[u8], number: u64) -> Result<String, NoMemory> {
    let why = match str::from_utf8(line_of(script, number)) {
        Ok(line) => of_text(alloc, number, line)?,
        Err(_) => format!(in alloc; "it has a byte past 0x7E: {SPELLING}")?,
    };
    Ok(format!(in alloc; "script line {number}: {why}")?)
}
