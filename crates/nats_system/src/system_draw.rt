//! Numbers from the system.
ghost use Rattle.std.specs.Prelude.{◌≡◌};

use nats_outside::Draw;
use std::random::RandomSource;

/// Numbers from the random bytes of the system. Where it gives none, that is counted and 0 is given.
#[derive(Drop)]
pub struct SystemDraw<R> {
    rt: R,
    faults: u64,
}

impl<R> SystemDraw<R> {
    /// It gave nothing yet.
    pub fn new(rt: R) -> SystemDraw<R>
        ensures { result.faults ≡ 0 }
    {
        SystemDraw { rt, faults: 0 }
    }

    /// How often the system gave no bytes, up to 2^64-1.
    pub fn faults(&self) -> u64
        ensures { result ≡ self.now.faults }
    {
        self.faults
    }
}

impl<R: RandomSource> Draw for SystemDraw<R> {
    ghost BesideDraw = { Unit {0} };

    ghost beside_draw = { λ _. tt };

    fn draw(&mut self) -> u64 {
        let mut bytes = [0u8; 8];
        match self.rt.fill_bytes(&mut bytes) {
            Ok(()) => u64::from_le_bytes(bytes),
            Err(_) => {
                self.faults = self.faults.saturating_add(1);
                0
            }
        }
    }
}
