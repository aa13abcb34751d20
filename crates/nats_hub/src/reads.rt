//! What a hub tells at one hold of its lock, and what its generator draws.
ghost use Rattle.std.specs.Prelude.{◌≡◌, ◌++◌, length, true, IfOk, codes};
ghost use Rattle.std.specs.List.{list_all};
ghost use Rattle.std.specs.String.{string_bytes};
ghost use Rattle.nats_names.specs.Names.{is_letter_or_digit};
ghost use Rattle.nats_hub.specs.Inboxes.{IsInbox};

use crate::{Hub, Tallies};
use nats_core::{Event, NoMemory, ServerInfo, Subject, Token};
use nats_history::Statistics;
use nats_names::State;
use nats_system::{id_text, id_token};
use nats_versions::is_version_compatible;
use std::alloc::Global;
use std::sync::Wait;

/// Whether a further call may be made at once. Own type.
#[derive(Clone, Copy, Debug, PartialEq, Eq)]
pub enum Room {
    /// There is room for it.
    Free,
    /// As many calls wait as may.
    Full,
    /// The session is closed.
    Closed,
}

impl<G: Tallies> Hub<G> {
    /// Whether the session is closed.
    pub fn is_closed<R: Wait>(&self, rt: &R) -> bool {
        self.locked.lock(rt).session().is_closed()
    }

    /// Whether a further call may be made at once.
    pub fn room<R: Wait>(&self, rt: &R) -> Room {
        let guard = self.locked.lock(rt);
        if guard.session().is_closed() {
            Room::Closed
        } else if guard.session().has_room() {
            Room::Free
        } else {
            Room::Full
        }
    }

    /// The number of the last link that came up, or 0.
    pub fn link<R: Wait>(&self, rt: &R) -> u64 {
        self.locked.lock(rt).session().link()
    }

    /// How many operations were read.
    pub fn reads<R: Wait>(&self, rt: &R) -> u64 {
        self.locked.lock(rt).session().reads()
    }

    /// The most bytes of a message that the server takes; 1,048,576 before any link came up.
    pub fn max_payload<R: Wait>(&self, rt: &R) -> u64 {
        self.locked.lock(rt).session().max_payload()
    }

    /// Whether a link is up, was, or none was yet.
    pub fn state<R: Wait>(&self, rt: &R) -> State {
        self.locked.lock(rt).session().state()
    }

    /// Messages and bytes that went in and out, and how many links came up.
    pub fn statistics<R: Wait>(&self, rt: &R) -> Statistics {
        self.locked.lock(rt).session().statistics()
    }

    /// What a server said of itself last; none before any link came up.
    ///
    /// # Errors
    ///
    /// `NoMemory` for want of memory.
    pub fn server_info<R: Wait>(
        &self,
        rt: &R,
        alloc: Global,
    ) -> Result<Option<ServerInfo>, NoMemory> {
        match self.locked.lock(rt).session().server_info() {
            Some(info) => Ok(Some(info.copy(alloc)?)),
            None => Ok(None),
        }
    }

    /// What a server said of itself last, where that is news: none where just `seen` INFOs were read, over all links
    /// and those by which links came up left out; else how many were read, and the last one. Own call: what drives the
    /// links of a client tells its pool what is news.
    ///
    /// # Errors
    ///
    /// `NoMemory` for want of memory.
    pub fn news<R: Wait>(
        &self,
        rt: &R,
        alloc: Global,
        seen: u64,
    ) -> Result<Option<(u64, ServerInfo)>, NoMemory> {
        self.locked.lock(rt).news(alloc, seen)
    }

    /// Whether the server that spoke last has what came with this version; no server has before any link came up.
    pub fn is_server_compatible<R: Wait>(
        &self,
        rt: &R,
        major: i64,
        minor: i64,
        patch: i64,
    ) -> bool {
        match self.locked.lock(rt).session().server_info() {
            Some(info) => is_version_compatible(info.version.as_str(), major, minor, patch),
            None => false,
        }
    }

    /// The oldest event that was not handed out yet. At most 128 wait; later ones are dropped.
    pub fn next_event<R: Wait>(&self, rt: &R) -> Option<Event> {
        self.locked.lock(rt).next_event()
    }

    /// Puts an event behind those that wait to be handed out; it is dropped where 128 wait. Own call: what drives the
    /// links of a client tells so of what it found by itself.
    pub fn note<R: Wait>(&self, rt: &R, event: Event) {
        self.locked.lock(rt).note(event)
    }

    /// A text of 22 ASCII letters or digits, drawn from the hub's generator.
    ///
    /// # Errors
    ///
    /// `NoMemory` for want of memory.
    pub fn draw_text<R: Wait>(&self, rt: &R, alloc: Global) -> Result<String, NoMemory>
        ensures len { IfOk result (λ text. length (string_bytes text) ≡ 22) }
        ensures letters { IfOk result (λ text. list_all is_letter_or_digit (string_bytes text) ≡ true) }
    {
        let mut generator = self.generator.lock(rt);
        id_text(alloc, &mut *generator)
    }

    /// A token of 22 ASCII letters or digits, drawn from the hub's generator.
    ///
    /// # Errors
    ///
    /// `NoMemory` for want of memory.
    pub fn draw_token<R: Wait>(&self, rt: &R, alloc: Global) -> Result<Token, NoMemory>
        ensures { IfOk result (λ token. length token ≡ 22) }
    {
        let mut generator = self.generator.lock(rt);
        id_token(alloc, &mut *generator)
    }

    /// The prefix of inboxes, which shares its bytes.
    fn inbox_prefix<R: Wait>(&self, rt: &R, alloc: Global) -> Result<Subject, NoMemory> {
        self.locked
            .lock(rt)
            .session()
            .config()
            .inbox_prefix
            .copy(alloc)
    }

    /// A subject for replies: the prefix of inboxes, a dot, and 22 ASCII letters or digits from the hub's generator.
    ///
    /// # Errors
    ///
    /// `NoMemory` for want of memory.
    #[tactic(auto, using(crate::proofs::Inbox::inbox_is))]
    pub fn new_inbox<R: Wait>(&self, rt: &R, alloc: Global) -> Result<String, NoMemory>
        ensures { IfOk result (λ text. IsInbox (string_bytes text)) }
    {
        let id = self.draw_text(rt, alloc)?;
        let prefix = self.inbox_prefix(rt, alloc)?;
        inbox_of(alloc, &prefix, id.as_str())
    }
}

/// A prefix, a dot, and an id.
fn inbox_of(alloc: Global, prefix: &Subject, id: &str) -> Result<String, NoMemory>
    ensures { IfOk result (λ text. string_bytes text ≡ prefix.now ++ (codes "." ++ id.now)) }
{
    let mut text = String::new(alloc);
    text.push_str(prefix.as_str())?;
    text.push_str(".")?;
    text.push_str(id)?;
    Ok(text)
}
