//! Cuts a text at CR LF.
ghost use Rattle.std.specs.Prelude.{◌≡◌, ◌+◌, length, IfSome, option_map};
ghost use Rattle.nats_lines.specs.Operations.{cut_line};
ghost use Rattle.nats_client_text.specs.Code.{cut_view};

use memchr::memmem;

/// A text cut behind its first line.
#[derive(Clone, Copy)]
pub struct CutText<'a> {
    /// The first line, without its CR LF.
    pub line: &'a [u8],
    /// What follows that.
    pub rest: &'a [u8],
}

/// A text cut at its first CR LF, `None` where it has none.
pub fn cut(text: &[u8]) -> Option<CutText<'_>>
    ensures cut { option_map cut_view result ≡ cut_line text.now }
    ensures within { IfSome result (λ cut. length cut.line.now + 2 + length cut.rest.now ≡ length text.now) }
{
    let end = memmem::find(text, b"\r\n")?;
    Some(CutText {
        line: &text[..end],
        rest: &text[end + 2..],
    })
}
