//! What holds of those who get a message. The function does nothing: its contract is the law.
ghost use Rattle.nats_picking.specs.Once.{EachOnce, InOrder};

/// Of each group that has members among those that match, one gets the message: the member with the least count, of
/// several such the oldest. The groups come in the order of their names' bytes.
pub fn each_group_once()
    ensures once { EachOnce }
    ensures order { InOrder }
{}
