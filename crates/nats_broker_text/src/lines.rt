//! Lines of a text, by their CR LF.
ghost use Rattle.std.specs.Prelude.{◌≡◌, ◌+◌, ◌≤◌, length, IfSome, option_map};
ghost use Rattle.nats_lines.specs.Operations.{cut_line};
ghost use Rattle.nats_broker_text.specs.Lines.{has_line};

use memchr::memmem;

/// The first line of a text without its CR LF, `None` where the text has none.
pub fn first_line(text: &[u8]) -> Option<&[u8]>
    ensures line { option_map (λ line. line.now) result ≡ option_map (λ cut. cut.line) (cut_line text.now) }
    ensures within { IfSome result (λ line. length line.now + 2 ≤ length text.now) }
{
    let end = memmem::find(text, b"\r\n")?;
    Some(&text[..end])
}

/// Whether a line's end stands in a text.
pub fn has_line(text: &[u8]) -> bool
    ensures { result ≡ has_line text.now }
{
    memmem::find(text, b"\r\n").is_some()
}
