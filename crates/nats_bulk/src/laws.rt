//! What holds of the list of turns, however long it is. The function does nothing: its contract is the law, so the
//! law is proved where the function is.
ghost use Rattle.nats_bulk.specs.Laws.{InTurn};

/// Each turn of the list may come where it stands, however many there are: so a list that is played is never
/// answered with a place that is out of turn.
pub fn in_turn()
    ensures { InTurn }
{}
