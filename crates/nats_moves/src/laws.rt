//! What holds of clients of one broker. Each function does nothing: its contract is the law, so the law is proved where
//! the function is.
ghost use Rattle.nats_moves.specs.Laws.{BrokerOfTurns};

/// Behind any moves the broker is what a list of turns leaves of a new one: that each client joins, and then those of
/// the moves, in order.
pub fn broker_of_turns()
    ensures { BrokerOfTurns }
{}
