//! A session that ends, and its link that is handed back.
ghost use Rattle.std.specs.Prelude.{◌≡◌, ◌≤◌, true};
ghost use Rattle.nats_live.specs.Back.{IsBack};
ghost use Rattle.nats_live.specs.Steps.{HangsUp};

use crate::step::play;
use nats_core::{Core, LinkWrite, Turn};
use nats_outside::seen;
use nats_system::World;
use std::alloc::Global;

// Hangs up where the link is up. Want of memory leaves the session as it is: nothing is asked of it any more.
pub(crate) fn hang_up(alloc: Global, core: &mut Core)
    ensures { HangsUp core.old core.new }
{
    if core.handler().is_up() {
        let _ = play(alloc, core, Turn::Hangup);
    }
}

// Ends writing.
fn end_writing<T: LinkWrite>(write: &mut T)
    ensures shut { (T.write_told write.new).is_shut ≡ true }
    ensures taken { (T.write_told write.new).taken ≡ (T.write_told write.old).taken }
    ensures faults { (T.write_told write.old).faults ≤ (T.write_told write.new).faults }
{
    write.shut();
}

// Ends writing, and hands a link back.
pub(crate) fn hand_back<W: World>(world: &mut W, read: W::Read, write: W::Write)
    ensures back { IsBack (W.Read.read_told read) (W.Write.write_told write) (W.seen world.old) (W.seen world.new) }
    ensures beside { W.beside_reach world.new ≡ W.beside_reach world.old }
{
    let mut write = write;
    end_writing(&mut write);
    seen::hang_up(world, read, write);
}
