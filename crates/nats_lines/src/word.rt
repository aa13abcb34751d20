//! The word that a line begins with.
ghost use Rattle.std.specs.Prelude.{◌≡◌, ◌≤◌, length};
ghost use Rattle.nats_lines.specs.Operations.{word_of};
ghost use Rattle.nats_lines.specs.Heads.{word_len};

/// The words of the protocol that a line may begin with. `+OK`, `PING` and `PONG` are operations whatever follows
/// them in the line.
#[derive(Clone, Copy)]
pub enum Word {
    Ok,
    Ping,
    Pong,
    Error,
    Info,
    Message,
    HeaderMessage,
    Other,
}

/// What a line begins with. The words are tested in another order than the grammar names them, since messages are most
/// of what comes.
#[inline(always)]
pub fn first_word(line: &[u8]) -> Word
    ensures word { result ≡ word_of line.now }
    ensures long { word_len result ≤ length line.now }
{
    if line.starts_with(b"MSG ") {
        Word::Message
    } else if line.starts_with(b"HMSG ") {
        Word::HeaderMessage
    } else if line.starts_with(b"+OK") {
        Word::Ok
    } else if line.starts_with(b"PING") {
        Word::Ping
    } else if line.starts_with(b"PONG") {
        Word::Pong
    } else if line.starts_with(b"-ERR") {
        Word::Error
    } else if line.starts_with(b"INFO ") {
        Word::Info
    } else {
        Word::Other
    }
}
