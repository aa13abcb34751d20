//! What holds of the words that a broker is proved by, whatever its peers write. Each function does nothing: its
//! contract is the law, so the law is proved where the function is.
ghost use Rattle.nats_broker.specs.Laws.{DueIsDone, NoneLeft, AllDone, PiecesJoin};

/// A command is due exactly where there is what it leaves, and once all that is due is done nothing is due.
pub fn due_is_done()
    ensures exact { DueIsDone }
    ensures none { NoneLeft }
{}

/// Behind any turns no command of any peer is left undone: not of the peer that was fed last, nor of another.
pub fn all_is_done()
    ensures { AllDone }
{}

/// A peer's bytes may come in any pieces: two one after another leave what both leave at once, where the peer is up
/// in between. So the commands that are done for a peer are those of all its joined bytes.
pub fn pieces_join()
    ensures { PiecesJoin }
{}
