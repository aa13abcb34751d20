//! Four parts of the outside side by side.
ghost use Rattle.std.specs.Prelude.{◌≡◌};

use crate::{Clock, Dialer, Draw, Failed, Reach, ResolveError, Resolver};
use std::alloc::Global;
use std::net::SocketAddr;

/// A dialer, a resolver, a clock and a source of numbers side by side: all of the outside that connecting needs.
#[derive(Drop)]
pub struct Joined<D, R, C, G> {
    /// Who dials.
    pub dialer: D,
    /// Who resolves.
    pub resolver: R,
    /// The clock.
    pub clock: C,
    /// Who gives numbers.
    pub draw: G,
}

impl<D: Dialer, R, C, G> Dialer for Joined<D, R, C, G> {
    type Read = D::Read;

    type Write = D::Write;

    ghost dialer_told = { λ w. D.dialer_told w.dialer };

    ghost BesideDialer = { R × C × G };

    ghost beside_dialer = { λ w. (w.resolver, w.clock, w.draw) };

    fn dial(&mut self, to: &SocketAddr, within: u64) -> Result<(D::Read, D::Write), Failed> {
        self.dialer.dial(to, within)
    }

    fn hang_up(&mut self, read: D::Read, write: D::Write) {
        self.dialer.hang_up(read, write)
    }
}

impl<D, R: Resolver, C, G> Resolver for Joined<D, R, C, G> {
    ghost resolver_told = { λ w. R.resolver_told w.resolver };

    ghost BesideResolver = { D × C × G };

    ghost beside_resolver = { λ w. (w.dialer, w.clock, w.draw) };

    fn resolve(
        &mut self,
        alloc: Global,
        host: &str,
        port: u16,
    ) -> Result<Vec<SocketAddr>, ResolveError> {
        self.resolver.resolve(alloc, host, port)
    }
}

impl<D, R, C: Clock, G> Clock for Joined<D, R, C, G> {
    ghost clock_told = { λ w. C.clock_told w.clock };

    ghost BesideClock = { D × R × G };

    ghost beside_clock = { λ w. (w.dialer, w.resolver, w.draw) };

    fn start_ms(&mut self) -> u64 {
        self.clock.start_ms()
    }

    fn now_ms(&mut self) -> u64 {
        self.clock.now_ms()
    }

    fn sleep_ms(&mut self, ms: u64) {
        self.clock.sleep_ms(ms)
    }
}

impl<D, R, C, G: Draw> Draw for Joined<D, R, C, G> {
    ghost BesideDraw = { D × R × C };

    ghost beside_draw = { λ w. (w.dialer, w.resolver, w.clock) };

    fn draw(&mut self) -> u64 {
        self.draw.draw()
    }
}

impl<D: Dialer, R: Resolver, C: Clock, G: Draw> Reach for Joined<D, R, C, G> {
    ghost use Rattle.std.proofs.Common.{ap, refl};

    ghost seen = { λ w. record {
      dialer = D.dialer_told w.dialer;
      resolver = R.resolver_told w.resolver;
      clock = C.clock_told w.clock;
    } };

    ghost seen_is = { λ w. refl };

    ghost BesideReach = { Unit {0} };

    ghost beside_reach = { λ _. tt };

    ghost by_dialer = { λ a b e. (ap (λ s. R.resolver_told s.0) e, ap (λ s. C.clock_told s.1) e, refl) };

    ghost by_resolver = { λ a b e. (ap (λ s. D.dialer_told s.0) e, ap (λ s. C.clock_told s.1) e, refl) };

    ghost by_clock = { λ a b e. (ap (λ s. D.dialer_told s.0) e, ap (λ s. R.resolver_told s.1) e, refl) };

    ghost by_draw = { λ a b e. (
      ap (λ s. D.dialer_told s.0) e,
      ap (λ s. R.resolver_told s.1) e,
      ap (λ s. C.clock_told s.2) e,
      refl,
    ) };
}
