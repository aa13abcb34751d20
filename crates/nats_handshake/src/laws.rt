//! What holds of handshakes, whatever the text. A function here does nothing: its contract is the law.
ghost use Rattle.nats_handshake.specs.Course.{CutAnywhere};

/// What the server says comes to the same however it is cut.
pub fn cut_anywhere()
    ensures { CutAnywhere }
{}
