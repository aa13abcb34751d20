//! All of the outside that connecting needs.
ghost use Rattle.std.specs.Prelude.{◌≡◌};
ghost use Rattle.nats_outside.specs.Told.{Seen};

use crate::{Clock, Dialer, Draw, Resolver};

/// All of the outside that connecting needs. A call of one part leaves what the others tell as it was, and what stands
/// beside all of them. Own trait.
pub trait Reach: Dialer + Resolver + Clock + Draw {
    /// All that the parts tell.
    ghost seen: { Self → Seen };

    ghost seen_is: { (w : Self) → seen w ≡ record {
      dialer = Self.dialer_told w;
      resolver = Self.resolver_told w;
      clock = Self.clock_told w;
    } };

    /// What stands beside all parts, which no call of a part changes.
    ghost BesideReach: { Type 0 };

    ghost beside_reach: { Self → BesideReach };

    ghost by_dialer: { (a b : Self) → Self.beside_dialer a ≡ Self.beside_dialer b
        → (Self.resolver_told a ≡ Self.resolver_told b) × (Self.clock_told a ≡ Self.clock_told b)
        × (beside_reach a ≡ beside_reach b) };

    ghost by_resolver: { (a b : Self) → Self.beside_resolver a ≡ Self.beside_resolver b
        → (Self.dialer_told a ≡ Self.dialer_told b) × (Self.clock_told a ≡ Self.clock_told b)
        × (beside_reach a ≡ beside_reach b) };

    ghost by_clock: { (a b : Self) → Self.beside_clock a ≡ Self.beside_clock b
        → (Self.dialer_told a ≡ Self.dialer_told b) × (Self.resolver_told a ≡ Self.resolver_told b)
        × (beside_reach a ≡ beside_reach b) };

    ghost by_draw: { (a b : Self) → Self.beside_draw a ≡ Self.beside_draw b
        → (Self.dialer_told a ≡ Self.dialer_told b) × (Self.resolver_told a ≡ Self.resolver_told b)
        × (Self.clock_told a ≡ Self.clock_told b) × (beside_reach a ≡ beside_reach b) };
}
