//! What holds of what a session hands out. The function does nothing: its contract is the law, so the law is proved
//! where the function is.
ghost use Rattle.nats_session.specs.Laws.{ReplyOnce};

/// A ticket settles once at most, so `reply_of` has a reply of it exactly where it settled and its reply was not
/// handed out.
pub fn reply_once()
    ensures { ReplyOnce }
{}
