//! What holds of requests and their replies, whatever the history: by which message a request settles, and that it does
//! so once. Each function does nothing: its contract is the law, so the law is proved where the function is.
#![tactic(auto)]

ghost use Rattle.nats_ask_laws.specs.Laws.{SinceAsked, OneSubject, OneAsked, FirstReply, OneByOne, SettledForGood, HeldReply};
ghost use Rattle.nats_ask_laws.specs.Given.{GivenOnce, GivenForGood, TurnsInOrder, HandledAsGiven, RepliedAsGiven};

/// A request that waits for a reply was handled, and since then no message to number 0 with the subject of its reply
/// was read, no other request under its token was handled, its deadline did not come, and the session did not close.
pub fn since_asked()
    ensures { SinceAsked }
{}

/// No two requests wait for a reply to one subject: a later one under the same token takes the place of the earlier.
pub fn one_subject()
    ensures { OneSubject }
{}

/// A message that is the first to come since a request was handled, with the subject of its reply, is that to no other
/// request: so no message replies to two.
pub fn one_asked()
    ensures { OneAsked }
{}

/// A ticket that settled as replied by a message did so by the first message to number 0, since its request was
/// handled, whose subject is that of the reply.
pub fn first_reply()
    ensures { FirstReply }
{}

/// One operation that is read settles one ticket at most, so no message replies to two requests.
pub fn one_by_one()
    ensures { OneByOne }
{}

/// A ticket that settled keeps its reply, and nothing later settles it: a reply that comes behind the deadline of its
/// request settles none, nor does one that is repeated.
pub fn settled_for_good()
    ensures { SettledForGood }
{}

/// A session that stands for a history hands out for a ticket the reply by which it settled there, and holds it until
/// then.
pub fn held_reply()
    ensures { HeldReply }
{}

/// A ticket is given to one call, as that is accepted.
pub fn given_once()
    ensures { GivenOnce }
{}

/// A ticket that was given stays given to its call, whatever comes.
pub fn given_for_good()
    ensures { GivenForGood }
{}

/// Whatever turns were played, each call that is handled was the oldest that waited.
pub fn turns_in_order()
    ensures { TurnsInOrder }
{}

/// Where each call that is handled was the oldest that waited, the request that is handled for a ticket is the call
/// that the ticket was given to.
pub fn handled_as_given()
    ensures { HandledAsGiven }
{}

/// A message by which a ticket settled as replied has the subject of the reply to the call that the ticket was given
/// to: the inbox with the token of that very request.
pub fn replied_as_given()
    ensures { RepliedAsGiven }
{}
