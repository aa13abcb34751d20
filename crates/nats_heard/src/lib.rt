//! What holds of the messages that a subscription was put and dropped, beside all that was read of its number. Each
//! function does nothing: its contract is the law, so the law is proved where the function is.
#![tactic(auto)]

ghost use Rattle.nats_heard.specs.Heard.{PrefixHeard, HeardByPlace, ReadOfJoined};

/// Where no message of a subscription is read before its subscribe was handled, what it was put and dropped is, in
/// the order of reading, the beginning of what was read of its number.
pub fn prefix_heard()
    ensures { PrefixHeard }
{}

/// Whatever turns are played, what a subscription was put and dropped is in the order of reading by its places, puts
/// first where places are equal: once a message was dropped, none is put before the next turn.
pub fn heard_by_place()
    ensures { HeardByPlace }
{}

/// Where no further link comes up, the messages of a number that a session read are the first of those that the
/// grammar reads in all the bytes that its link gave.
pub fn read_of_joined()
    ensures { ReadOfJoined }
{}
