//! What settles the calls of a caller, over any losses, late and repeated replies. Each function does nothing: its
//! contract is the law, so the law is proved where the function is.
//!
//! Together they say of a whole run, whatever else happens to the core: a call answers a message exactly where a poll
//! found that one of its attempts was replied to by it; the message is the first to number 0, since that attempt's
//! request was handled, with the subject of its reply; no message settles two calls; and an attempt whose deadline
//! came settles none.
#![tactic(auto)]

ghost use Rattle.nats_rpc_laws.specs.Attempts.{RepliedOnlySo, RepliedWhere, RepliedStays};
ghost use Rattle.nats_rpc_laws.specs.Services.{AnswersInOrder};
ghost use Rattle.nats_rpc_laws.specs.Runs.{PollGoesOn, RepliedBy, FirstOfAttempt, OneCall, NoneLate};
ghost use Rattle.nats_rpc_laws.specs.Tokens.{MadeBySending, SentAs, SubjectOfAttempt};

use nats_core::Message;

/// A poll answers a message only where the call was replied to by it before, or where an attempt of it was: by the
/// first message to number 0, since the attempt's request was handled, whose subject is that of the reply. A late
/// reply to an attempt whose deadline came, and one that is repeated, settle nothing.
pub fn replied_only_so()
    ensures { RepliedOnlySo }
{}

/// Where an attempt of a call was replied to, and nobody else took the reply, a poll settles the call by it.
pub fn replied_where()
    ensures { RepliedWhere }
{}

/// A call that was replied to stays so, and answers the same message at each poll.
pub fn replied_stays()
    ensures { RepliedStays }
{}

/// A poll of a call that was given is a step of a run: the laws below speak of all that a caller's polls can come to.
pub fn poll_goes_on()
    ensures { PollGoesOn }
{}

/// In a whole run a call that was replied to by a message was so by an attempt of its own: a poll found that.
pub fn replied_by()
    ensures { RepliedBy }
{}

/// The message by which an attempt was replied to, as a poll found, is the first to number 0 with the subject of its
/// reply, since its request was handled.
pub fn first_of_attempt()
    ensures { FirstOfAttempt }
{}

/// No message settles two calls of a run.
pub fn one_call()
    ensures { OneCall }
{}

/// An attempt that was let go, as its deadline came or as it settled its call, is no call's attempt ever after: a late
/// reply to it settles none, and a repeated one neither.
pub fn none_late()
    ensures { NoneLate }
{}

/// An attempt that waits behind a poll waited before it, or the poll sent its request.
pub fn made_by_sending()
    ensures { MadeBySending }
{}

/// The ticket of an attempt was given to the request that was sent: under the token of the caller's name and the
/// attempt's number.
pub fn sent_as()
    ensures { SentAs }
{}

/// A message by which an attempt settles has the subject of the attempt's own token, however much later it comes.
pub fn subject_of_attempt()
    ensures { SubjectOfAttempt }
{}

/// The answers of a service that are done with, published or given up, are those that its function gave for the
/// messages with a reply, in order, less the one that it keeps: so each such message is answered once, by its own.
pub fn answers_in_order<F: FnMut(&Message) -> Vec<u8>>()
    ensures { AnswersInOrder F.FnMut (λ v. v.items) }
{}
