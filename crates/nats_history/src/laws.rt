//! What holds of the words on histories, whatever the history. Each function does nothing: its contract is the law,
//! so the law is proved where the function is.
ghost use Rattle.nats_history.specs.Laws.{PartsAfter, SameSettled, NoneLeft, NoneAfterTurn, LimitHolds, DrainPuts, FlushesReached, CutAnyhow, UncutInTurn};

/// What the words on a longer history give is what its newest step makes of the parts before it: so a handler needs no
/// history.
pub fn parts_after()
    ensures { PartsAfter }
{}

/// Settling a history, each step chosen from the history so far, puts the steps that are due at its parts, each chosen
/// from the parts so far.
pub fn same_settled()
    ensures { SameSettled }
{}

/// Behind all due steps none is due: there are never more rounds of them than the definition plays.
pub fn none_left()
    ensures { NoneLeft }
{}

/// After a turn no step is due, so that the next turn may be played.
pub fn none_after_turn()
    ensures { NoneAfterTurn }
{}

/// Once a limit is handled for a subscription that is open, its puts never pass the greater of it and the puts
/// then, over any links, until another limit is handled for it.
pub fn limit_holds()
    ensures { LimitHolds }
{}

/// A subscription that is drained is put each message of its number that is read on its link after its subscribe
/// was handled and before the PONG of its drain, where its queue has room, it is not shut and it has no earlier
/// end.
pub fn drain_puts()
    ensures { DrainPuts }
{}

/// The flushes that some bytes settle are all those that await no more of them: flushes await bytes in the order in
/// which they were handled.
pub fn flushes_reached()
    ensures { FlushesReached }
{}

/// Two lists of turns, each turn of which may come where it stands, and which differ only in how pieces that stand
/// side by side cut the same bytes, have the same steps, but for those by which bytes joined a link, and for the
/// places.
pub fn cut_anyhow()
    ensures { CutAnyhow }
{}

/// Where each turn of a list may come where it stands, each still may once all pieces that stand side by side are
/// one. The other way round it need not be so: a link may end within a piece, and a piece behind that would come
/// out of turn.
pub fn uncut_in_turn()
    ensures { UncutInTurn }
{}
