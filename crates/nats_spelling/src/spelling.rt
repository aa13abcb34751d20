//! Bytes and numbers as the fields of a line spell them.
ghost use Rattle.std.specs.Prelude.{◌≡◌, ◌<◌, ◌≤◌, ◌++◌, length, take, IfOk, OnOk};
ghost use Rattle.std.specs.List.{flat_map};
ghost use Rattle.std.specs.Fmt.{decimal};
ghost use Rattle.memchr.specs.Find.{Nowhere, Passes};
ghost use Rattle.nats_spelling.specs.Spelling.{is_plain, is_odd, hex_digit, letter, spelled, spelled_or_absent};

use itoa::Buffer;
use nats_names::{NoMemory, Subject};

/// Whether a byte stands for itself in a field.
pub fn is_plain(b: u8) -> bool
    ensures { result ≡ is_plain b }
{
    b >= b'!' && b <= b'}' && b != b'%'
}

fn hex_digit(n: u8) -> u8
    requires { n < 16 }
    ensures { result ≡ hex_digit n }
{
    if n < 10 { b'0' + n } else { b'A' - 10 + n }
}

fn push_letter(out: &mut Vec<u8>, b: u8) -> Result<(), NoMemory>
    ensures { OnOk result (out.new.items ≡ out.old.items ++ letter b) }
{
    if is_plain(b) {
        out.push(b)?;
        return Ok(());
    }
    out.extend_from_slice(&[b'%', hex_digit(b / 16), hex_digit(b % 16)])?;
    Ok(())
}

// How many bytes at the front are plain.
fn plain_run(bytes: &[u8]) -> usize
    ensures within { result ≤ length bytes.now }
    ensures plain { Nowhere (Passes is_odd bytes.now) 0 result }
{
    for i in 0..bytes.len() {
        if !is_plain(bytes[i]) {
            return i;
        }
    }
    bytes.len()
}

// Appends the letters of a run of plain bytes at the front and of the byte behind it, and answers how many bytes
// that were.
fn push_run(out: &mut Vec<u8>, bytes: &[u8]) -> Result<usize, NoMemory>
    requires { 0 < length bytes.now }
    ensures some { IfOk result (λ n. (0 < n) × (n ≤ length bytes.now)) }
    ensures spelled { IfOk result (λ n. out.new.items ≡ out.old.items ++ flat_map letter (take n bytes.now)) }
{
    let run = plain_run(bytes);
    out.extend_from_slice(&bytes[..run])?;
    if run == bytes.len() {
        return Ok(run);
    }
    push_letter(out, bytes[run])?;
    Ok(run + 1)
}

/// Appends the one spelling of `bytes` in a field of a line: bytes from `!` to `}` but `%` stand for themselves,
/// another is `%` and two hexadecimal digits in upper case, and the empty text is `%` alone.
///
/// # Errors
///
/// `NoMemory` for want of memory: a part may stand at the end already.
pub fn push_spelled(out: &mut Vec<u8>, bytes: &[u8]) -> Result<(), NoMemory>
    ensures { OnOk result (out.new.items ≡ out.old.items ++ spelled bytes.now) }
{
    if bytes.is_empty() {
        out.push(b'%')?;
        return Ok(());
    }
    let mut at = 0;
    while at < bytes.len() {
        at += push_run(out, &bytes[at..])?;
    }
    Ok(())
}

/// Appends the spelling of a subject, or `~` where it is absent.
pub fn push_optional(out: &mut Vec<u8>, subject: &Option<Subject>) -> Result<(), NoMemory>
    ensures { OnOk result (out.new.items ≡ out.old.items ++ spelled_or_absent subject.now) }
{
    match subject {
        Some(subject) => push_spelled(out, subject.as_str().as_bytes()),
        None => {
            out.push(b'~')?;
            Ok(())
        }
    }
}

/// Appends a number in decimal.
pub fn push_number(out: &mut Vec<u8>, n: u64) -> Result<(), NoMemory>
    ensures { OnOk result (out.new.items ≡ out.old.items ++ decimal n) }
{
    let mut buffer = Buffer::new();
    out.extend_from_slice(buffer.format(n).as_bytes())?;
    Ok(())
}
