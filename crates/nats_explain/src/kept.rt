//! A source that keeps what it gives.
use nats_names::Failed;
use nats_replay::Source;

/// A source that gives what another one gives, and keeps a copy of it, for whoever wants to look at it again. Where
/// memory is wanting for the copy it keeps nothing more, and gives on.
#[derive(Drop)]
pub struct Kept<S> {
    inner: S,
    bytes: Vec<u8>,
    is_whole: bool,
}

impl<S> Kept<S> {
    /// A source over `inner` that kept nothing yet.
    pub fn new(inner: S, bytes: Vec<u8>) -> Kept<S> {
        Kept {
            inner,
            bytes,
            is_whole: true,
        }
    }

    /// All that was given so far; none where memory was wanting for it.
    pub fn bytes(&self) -> Option<&[u8]> {
        self.is_whole.then_some(self.bytes.as_slice())
    }
}

impl<S: Source> Source for Kept<S> {
    ghost left = { λ s. S.left s.inner };

    ghost given = { λ s. S.given s.inner };

    ghost ends = { λ s. S.ends s.inner };

    ghost faults = { λ s. S.faults s.inner };

    fn read(&mut self, buf: &mut [u8]) -> Result<usize, Failed> {
        let count = self.inner.read(buf)?;
        if self.is_whole {
            self.is_whole = self.bytes.extend_from_slice(&buf[..count]).is_ok();
        }
        Ok(count)
    }
}
