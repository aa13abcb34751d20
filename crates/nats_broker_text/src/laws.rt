//! What holds of the grammar of a peer's commands. The function does nothing: its contract is the law.
ghost use Rattle.nats_broker_text.specs.Laws.{FrontStays};

/// A command at the front of a peer's bytes stays there as more come, and so does what is none. So it doesn't matter
/// in which pieces the bytes come.
pub fn front_stays()
    ensures { FrontStays }
{}
