//! What holds of what waits for the peers of a broker. Each function does nothing: its contract is the law, so the law
//! is proved where the function is.
ghost use Rattle.nats_server_laws.specs.Waiting.{ReadsFit, WaitsAsSaid, ToldAsAsked, TextsGrow};

/// Each command that stands at the front of a peer's bytes can be told on: the subject and the reply of a publish are
/// words without white space, its headers are distinct names with values, and it has no more bytes than are counted
/// against the broker's limit; the number of an interest is a number of the protocol.
pub fn reads_fit()
    ensures { ReadsFit }
{}

/// Whatever turns a broker plays, what waits for a peer is the text of a list of greetings, messages and answers that
/// can be told, so that `read_back` applies to it. The broker's name is a token, and the most bytes of a message are a
/// number of the protocol.
pub fn waits_as_said()
    ensures { WaitsAsSaid }
{}

/// Whatever turns a broker plays, each message that waits for a peer stands under a number that one of the peer's own
/// commands asked for, of those that were done. The broker's name is a token, and the most bytes of a message are a
/// number of the protocol.
pub fn told_as_asked()
    ensures { ToldAsAsked }
{}

/// Whatever turns a broker plays, what waits for a peer is only added to.
pub fn texts_grow()
    ensures { TextsGrow }
{}
