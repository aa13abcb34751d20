//! A session that begins on a link.
ghost use Rattle.std.specs.Prelude.{◌≡◌, ℕ, [], true, IfOk, IfErr, IsTrue};
ghost use Rattle.nats_core.specs.Calls.{parts_in};
ghost use Rattle.nats_core.specs.Journal.{new_core};
ghost use Rattle.nats_live.specs.declared.error.LiveError.TheVariants as refused;
ghost use Rattle.nats_live.specs.Ended.{limit_with};
ghost use Rattle.nats_live.specs.Flow.{HasBegun, HasBegunOr};
ghost use Rattle.nats_live.specs.State.{default_config};

use crate::error::LiveError;
use crate::step::play;
use bytes::Bytes;
use nats_core::{Config, Core, NoMemory, ServerInfo, Token, Turn};
use nats_pool::ConnectOptions;
use nats_system::id_token;
use rand::SeedableRng;
use rand::rngs::SmallRng;
use std::alloc::Global;

// The settings of default options.
fn config_of(mux_id: Token) -> Config
    ensures { result ≡ default_config mux_id }
{
    let ConnectOptions {
        client_capacity,
        subscription_capacity,
        skip_subject_validation,
        inbox_prefix,
        ..
    } = ConnectOptions::new();
    Config {
        client_capacity,
        subscription_capacity,
        skip_subject_validation,
        inbox_prefix,
        mux_id,
    }
}

// A core that keeps its journal, on default options; its mux id is drawn from a generator of this seed.
fn new_core(alloc: Global, seed: u64) -> Result<Core, NoMemory>
    ensures { IfOk result (λ core. (mux : _) × (core ≡ new_core (default_config mux) true)) }
{
    let mut generator = SmallRng::seed_from_u64(seed);
    let mux_id = id_token(alloc, &mut generator)?;
    Core::new(alloc, config_of(mux_id), true)
}

// A core on its first link, whose server said this of itself.
fn on_link(alloc: Global, info: ServerInfo, seed: u64) -> Result<Core, LiveError>
    ensures begun { IfOk result (λ core. HasBegun info.max_payload [] core.session) }
    ensures up { IfOk result (λ core. IsTrue (parts_in core).link.is_up) }
    ensures err { IfErr result (λ e. e ≡ refused.NoMemory) }
{
    let mut core = new_core(alloc, seed)?;
    play(alloc, &mut core, Turn::Up(info))?;
    Ok(core)
}

// The bytes that came behind the handshake are the link's first piece.
fn feed(alloc: Global, core: &mut Core, rest: Vec<u8>) -> Result<(), LiveError>
    ensures { (most : ℕ) → IsTrue (parts_in core.old).link.is_up → HasBegun most [] core.old.session
        → HasBegunOr (limit_with most rest.items) rest.items result core.new.session }
{
    if rest.is_empty() {
        return Ok(());
    }
    let bytes = Bytes::from_vec(rest)?;
    play(alloc, core, Turn::Piece(bytes))?;
    Ok(())
}

// A core that keeps its journal, on a link that just came up: the server said this of itself, and these bytes
// came behind the handshake.
pub(crate) fn begin(
    alloc: Global,
    info: ServerInfo,
    rest: Vec<u8>,
    seed: u64,
) -> Result<Core, LiveError>
    ensures begun { IfOk result
        (λ core. HasBegun (limit_with info.max_payload rest.items) rest.items core.session) }
    ensures err { IfErr result (λ e. e ≡ refused.NoMemory) }
{
    let mut core = on_link(alloc, info, seed)?;
    feed(alloc, &mut core, rest)?;
    Ok(core)
}
