//! Who gives numbers.
ghost use Rattle.std.specs.Prelude.{◌≡◌};

/// Gives numbers that nothing is known of. Own trait: the Rust asks its generator.
pub trait Draw {
    /// What stands beside it, which its call leaves as it was.
    ghost BesideDraw: { Type 0 };

    ghost beside_draw: { Self → BesideDraw };

    /// A number.
    fn draw(&mut self) -> u64
        ensures beside { beside_draw self.new ≡ beside_draw self.old };
}
