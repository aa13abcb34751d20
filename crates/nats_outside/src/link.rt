//! The two halves of a link.
ghost use Rattle.std.specs.Prelude.{◌≡◌, ◌≤◌, ◌<◌, true, length, IfOk};
ghost use Rattle.std.specs.List.{concat};
ghost use Rattle.std.specs.Io.{ReadsAtMost};
ghost use Rattle.std.specs.Io.KnownBytes.{ReadConsumes};
ghost use Rattle.nats_outside.specs.Told.{ReadTold, WriteTold, read_of, bounded, write_of};

use bytes::Bytes;
use nats_names::Failed;

/// The reading half of a link. Each count stops at 2^64-1. Own trait: a clause that names the cause of a failure
/// needs a count, which std's `Read` has not.
pub trait LinkRead {
    /// The bytes left and the pieces given, where they are known, the counts, and how long a read may wait.
    ghost read_told: { Self → ReadTold };

    /// Gives the next bytes into the front of `buf`, at most as many as it holds, and answers how many they are.
    /// None in a nonempty `buf` is the end. A read that fails gives no byte, and is counted.
    fn read(&mut self, buf: &mut [u8]) -> Result<usize, Failed>
        ensures bound { ReadsAtMost result buf.new }
        ensures bytes { ReadConsumes ((read_told self.old).left) ((read_told self.new).left) result buf.new }
        ensures told { read_told self.new
            ≡ read_of result buf.new ((read_told self.new).left) (read_told self.old) };

    /// How many milliseconds a read may wait for bytes from here on; none is for as long as it takes. A read that
    /// would wait longer fails. A link that can't be bounded so reads as before. Own call: the crate's reads stand
    /// beside a timer.
    fn wait_at_most(&mut self, ms: Option<u64>)
        ensures told { read_told self.new ≡ bounded ms (read_told self.old) };
}

/// The writing half of a link. Each count stops at 2^64-1. Own trait, as `LinkRead`.
pub trait LinkWrite {
    /// The bytes taken, where they are known, the failures, and whether it was shut.
    ghost write_told: { Self → WriteTold };

    /// Takes bytes from the front of the joined pieces, and answers how many they are. Taking none of nonempty
    /// bytes is a failure. A write that fails takes none, and is counted.
    fn write_pieces(&mut self, pieces: &[Bytes]) -> Result<usize, Failed>
        ensures bound { IfOk result (λ n. n ≤ length (concat pieces.now)) }
        ensures progress { 0 < length (concat pieces.now) → IfOk result (λ n. 0 < n) }
        ensures told { write_told self.new ≡ write_of result (concat pieces.now) (write_told self.old) };

    /// Ends writing. It changes no byte that was taken; where it fails, it is counted.
    fn shut(&mut self)
        ensures shut { (write_told self.new).is_shut ≡ true }
        ensures taken { (write_told self.new).taken ≡ (write_told self.old).taken }
        ensures faults { (write_told self.old).faults ≤ (write_told self.new).faults };
}
