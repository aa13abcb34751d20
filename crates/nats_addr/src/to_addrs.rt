//! What can be turned into addresses of servers.
ghost use Rattle.std.specs.Prelude.{◌≡◌, ◌++◌, [], ◌∷◌, List, Result, Ok, map, string_bytes, OnOk};
ghost use Rattle.url.specs.Parts.{Parts};
ghost use Rattle.nats_names.specs.declared.addr_error.AddrError.{AddrError};
ghost use Rattle.nats_addr.specs.Addr.{addr_of, addrs_of, addrs_of_one, AnswersAll};

use crate::{AddrError, NoMemory, ServerAddr};
use std::alloc::{AllocError, Global};
use std::convert::AsStr;

/// What can be turned into a list of addresses of servers. The crate's `ToServerAddrs`.
pub trait ToServerAddrs {
    /// The addresses, or the one refusal that is the answer.
    ghost addrs: { Self → Result (List Parts) AddrError };

    /// The addresses in order, or why there are none. The crate's call.
    fn to_server_addrs(&self, alloc: Global) -> Result<Vec<ServerAddr>, AddrError>
        ensures { AnswersAll result (addrs self.now) };
}

/// It alone.
impl ToServerAddrs for ServerAddr {
    ghost use Rattle.std.specs.Prelude.{Ok, [], ◌∷◌};

    ghost addrs = { λ addr. Ok (addr ∷ []) };

    fn to_server_addrs(&self, alloc: Global) -> Result<Vec<ServerAddr>, AddrError> {
        copies(alloc, std::slice::from_ref(self))
    }
}

/// The one that the text spells.
impl ToServerAddrs for String {
    ghost addrs = { λ text. addrs_of_one (string_bytes text) };

    fn to_server_addrs(&self, alloc: Global) -> Result<Vec<ServerAddr>, AddrError> {
        let mut addrs = Vec::new(alloc);
        push(&mut addrs, ServerAddr::parse(alloc, self.as_str())?)?;
        Ok(addrs)
    }
}

/// Those that the texts spell; the first that spells none decides.
impl ToServerAddrs for Vec<String> {
    ghost addrs = { λ texts. addrs_of (map string_bytes texts.items) };

    fn to_server_addrs(&self, alloc: Global) -> Result<Vec<ServerAddr>, AddrError> {
        parse_all(alloc, self.as_slice())
    }
}

/// They themselves.
impl ToServerAddrs for Vec<ServerAddr> {
    ghost use Rattle.std.specs.Prelude.{Ok};

    ghost addrs = { λ addrs. Ok addrs.items };

    fn to_server_addrs(&self, alloc: Global) -> Result<Vec<ServerAddr>, AddrError> {
        copies(alloc, self.as_slice())
    }
}

/// The addresses that these texts spell, in order; the first that spells none decides. Own call of this library,
/// for the Rust's `ToServerAddrs` of slices.
pub fn addrs_of_texts(alloc: Global, texts: &[&str]) -> Result<Vec<ServerAddr>, AddrError>
    ensures { AnswersAll result (addrs_of (map (λ text. text.now) texts.now)) }
{
    parse_all(alloc, texts)
}

fn push(addrs: &mut Vec<ServerAddr>, addr: ServerAddr) -> Result<(), NoMemory>
    ensures ok { OnOk result (addrs.new.items ≡ addrs.old.items ++ addr ∷ []) }
{
    addrs.push(addr)?;
    Ok(())
}

fn parse_all<T: AsStr>(alloc: Global, texts: &[T]) -> Result<Vec<ServerAddr>, AddrError>
    ensures { AnswersAll result (addrs_of (map T.text texts.now)) }
{
    let mut addrs = Vec::new(alloc);
    let mut rest = texts;
    'texts: while let Some((text, behind)) = rest.split_first() {
        let addr = ServerAddr::parse(alloc, text.as_str())?;
        push(&mut addrs, addr)?;
        rest = behind;
    }
    Ok(addrs)
}

fn copies(alloc: Global, addrs: &[ServerAddr]) -> Result<Vec<ServerAddr>, AddrError>
    ensures { AnswersAll result (Ok addrs.now) }
{
    let mut copies = Vec::new(alloc);
    'addrs: for addr in addrs {
        push(&mut copies, addr.copy(alloc)?)?;
    }
    Ok(copies)
}
