//! The machine of a session: it keeps what the next turn needs, and no history.
ghost use Rattle.std.specs.Prelude.{◌≡◌, [], IfOk};
ghost use Rattle.nats_session.specs.Handler.{StandsFor, nothing_handed, idle};

mod accessors;
mod calls;
mod drains;
mod due;
mod ends;
mod exchange;
mod infos;
mod played;
mod requests;

pub use due::Look;
use exchange::Exchange;
use nats_history::{Call, Config, Event, NoMemory, ServerInfo, Statistics};
use nats_subs::Queue;
pub use played::Played;
use std::alloc::Global;
use std::marker::Model;

/// The limit of a payload's size in bytes, with its header block, before any link came up. The crate's default.
pub const DEFAULT_MAX_PAYLOAD: u64 = 1_048_576;

/// A tick ends the link where so many ticks before it have no answer. The crate's `MAX_PENDING_PINGS`.
const TICK_LIMIT: u64 = 2;

/// A session over one link at a time. The crate's private handler, with its turns as calls. Contracts see its
/// parts, the events that wait to be handed out, and the settled tickets that do.
///
/// To drive it by hand, again and again:
/// 1. `check` tells whether a turn may be played, which is the condition of the turn's own call: `up` once the
///    handshake of a link is done, `piece` or `shared_piece` for bytes that it gave, `written` for bytes that it took,
///    `tick`, `lost`, `give_up` and `deadline` as clock and link tell, `hang_up`, `submit` and `take` as the user asks.
/// 2. `advance` plays the steps that this made due, one each, until it answers `Nothing`: operations are read, then
///    calls that wait are handled.
/// 3. `next_event` hands out events until none is left, `reply_of` the replies of flushes and requests by their
///    tickets; the messages of a subscription wait for `take`.
/// 4. `pending_pieces` lends the bytes that wait for the link; as many as it took go with `written`.
///
/// What it tells of itself (`is_up`, `state`, `link`, `max_payload`, `server_info`, `statistics`, `pending`, ..) may be
/// asked at any time. `Core` of `nats_core` does the second step by itself and keeps a journal; `run` plays a whole
/// list of turns.
#[derive(Drop)]
pub struct ConnectionHandler {
    config: Config,
    is_closed: bool,
    drain_accepted: bool,
    drain_handled: bool,
    link: u64,
    is_up: bool,
    max_payload: u64,
    info: Option<Box<ServerInfo>>,
    infos: u64,
    reads: u64,
    exchange: Exchange,
    calls: Queue<Call>,
    requested: bool,
    statistics: Statistics,
    events: Queue<Event>,
}

impl Model for ConnectionHandler {
    ghost use Rattle.std.specs.Option.{option_map};
    ghost use Rattle.nats_session.specs.Handler.{Seen};

    ghost Value = { Seen };

    ghost view = { λ h. record {
      parts = record {
        config = h.config;
        is_closed = h.is_closed;
        drain = record { is_accepted = h.drain_accepted; is_handled = h.drain_handled };
        link = record {
          number = h.link;
          is_up = h.is_up;
          max_payload = h.max_payload;
          info = option_map (λ info. info.value) h.info;
          infos = h.infos;
          reads = h.reads;
          pings = h.exchange.pings;
          wire = h.exchange.connection.wire;
        };
        calls = h.calls;
        subs = h.exchange.subs;
        requested = h.requested;
        tickets = h.exchange.tickets.tickets;
        statistics = h.statistics;
      };
      events = h.events;
      ready = h.exchange.tickets.ready;
    } };
}

impl ConnectionHandler {
    /// A session with no link yet. Today it takes no memory, so it never answers `NoMemory`.
    pub fn new(alloc: Global, config: Config) -> Result<ConnectionHandler, NoMemory>
        ensures seen { IfOk result (λ h. h ≡ record { parts = idle config; events = []; ready = [] }) }
        ensures stands { IfOk result (λ h. StandsFor config nothing_handed [] h) }
        ensures limit { IfOk result (λ h. h.parts.link.max_payload ≡ DEFAULT_MAX_PAYLOAD) }
    {
        Ok(ConnectionHandler {
            config,
            is_closed: false,
            drain_accepted: false,
            drain_handled: false,
            link: 0,
            is_up: false,
            max_payload: DEFAULT_MAX_PAYLOAD,
            info: None,
            infos: 0,
            reads: 0,
            exchange: Exchange::new(alloc),
            calls: Queue::new(alloc),
            requested: false,
            statistics: Statistics::default(),
            events: Queue::new(alloc),
        })
    }
}
