//! The addresses of sockets that a resolver gave.
ghost use Rattle.std.specs.Prelude.{◌≡◌, length};
ghost use Rattle.std.specs.Iterator.{at_most};
ghost use Rattle.std.specs.Map.Iter.{TakesFirst};

use std::marker::Model;
use std::net::SocketAddr;
use std::vec;

/// The addresses that a resolver gave, in order, and then it ends. Contracts see it as the list of those that are left.
/// The crate answers an iterator without a name.
#[derive(Drop)]
pub struct SocketAddrs {
    inner: vec::IntoIter<SocketAddr>,
}

impl Model for SocketAddrs {
    ghost use Rattle.std.specs.Prelude.{List};
    ghost use Rattle.std.specs.Vec.Iter.{into_iter_items};
    ghost use Rattle.std.specs.declared.net.socket_addr.SocketAddr.{SocketAddr};

    ghost Value = { List SocketAddr };

    ghost view = { λ all. into_iter_items all.inner };
}

impl SocketAddrs {
    pub(crate) fn over(addresses: Vec<SocketAddr>) -> SocketAddrs
        ensures { result ≡ addresses.items }
    {
        SocketAddrs {
            inner: addresses.into_iter(),
        }
    }
}

impl Iterator for SocketAddrs {
    type Item = SocketAddr;

    ghost next_gives = { TakesFirst (λ address. address) };

    ghost remaining = { λ all. at_most (length all) };

    fn next(&mut self) -> Option<SocketAddr> {
        self.inner.next()
    }
}
