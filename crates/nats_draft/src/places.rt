//! Where the things of numbers stand.
ghost use Rattle.nats_draft.specs.Sheet.{IsPlaceOf};

/// The place of number `sid` among `count` things that are numbered from 1, if it has one.
pub fn place_of(sid: u64, count: usize) -> Option<usize>
    ensures { IsPlaceOf sid count result }
{
    let index = (sid as usize).checked_sub(1)?;
    (index < count).then_some(index)
}
