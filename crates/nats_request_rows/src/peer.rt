//! The peer of a link in memory: it hears what a hub writes, and replies to the requests in it.
ghost use Rattle.std.specs.Prelude.{◌≡◌, false};

use crate::hand;
use anyhow::{Result, anyhow};
use nats_client::{Bytes, Hub, Tallies, Turn};
use std::alloc::Global;
use std::sync::Wait;

/// How often the peer takes what waits, at most, until it heard a request.
const LOOKS: u64 = 8;

/// How a line begins that subscribes to the inboxes of requests without one of their own.
const SHARED: &str = "SUB _INBOX.MUX1.*";

/// The most bytes of a message that it takes on a later link.
const LIMIT: u64 = 1_048_576;

/// What the peer does once it heard a request.
#[derive(Clone, Copy)]
pub(crate) enum Plan {
    /// It replies.
    Reply,
    /// It replies with two headers.
    Headers,
    /// It replies to the first request that it ever heard, and then to this one.
    First,
    /// It replies twice.
    Twice,
    /// It says that nobody answers.
    Nobody,
    /// It replies with an error and no body.
    Error,
    /// It sends a message to the inbox by the number of no subscription, and then replies.
    Stray,
    /// The link is lost and another comes up, on which it replies.
    NextLink,
    /// The client hangs up.
    Hangup,
}

/// A request that was heard.
#[derive(Drop)]
struct Asked {
    inbox: String,
    /// The number of the subscription to the inbox.
    number: u64,
    body: String,
}

/// The peer, which knows the requests that it heard.
#[derive(Drop)]
pub(crate) struct Peer {
    /// The number of the subscription that has the inboxes of requests without one of their own.
    shared: u64,
    /// The number of the other subscription that was heard last.
    own: u64,
    /// The requests, oldest first.
    asked: Vec<Asked>,
    /// All that was heard since it was shown last.
    text: String,
}

/// The inbox of a line that asks for replies.
fn inbox_in(line: &str) -> Option<&str> {
    let mut words = line.split(' ');
    let word = words.next()?;
    let _subject = words.next()?;
    let inbox = words.next()?;
    let lengths = words.count();
    let is_request = word == "PUB" && lengths == 1 || word == "HPUB" && lengths == 2;
    if is_request { Some(inbox) } else { None }
}

/// The number in a line that subscribes.
fn number_in(line: &str) -> Option<u64> {
    if !line.starts_with("SUB ") {
        return None;
    }
    line.split(' ').last()?.parse::<u64>().ok()
}

/// A message without headers.
fn plain(alloc: Global, inbox: &str, number: u64, payload: &str) -> Result<String> {
    let length = payload.len();
    Ok(format!(in alloc; "MSG {inbox} {number} {length}\r\n{payload}\r\n")?)
}

/// A message with this block of headers.
fn headed(alloc: Global, inbox: &str, number: u64, block: &str, payload: &str) -> Result<String> {
    let (head, length) = (block.len(), block.len().saturating_add(payload.len()));
    Ok(format!(in alloc; "HMSG {inbox} {number} {head} {length}\r\n{block}{payload}\r\n")?)
}

/// The link gives this text.
fn says<G: Tallies, R: Wait>(rt: &R, alloc: Global, hub: &Hub<G>, text: &str) -> Result<()> {
    let piece = Bytes::copy_from_slice(alloc, text.as_bytes())?;
    hand::play(rt, alloc, hub, Turn::Piece(piece))
}

impl Peer {
    /// It heard nothing.
    pub(crate) fn new(alloc: Global) -> Peer {
        Peer {
            shared: 0,
            own: 0,
            asked: Vec::new(alloc),
            text: String::new(alloc),
        }
    }

    /// Notes a subscription, if the line is of one.
    fn note_number(&mut self, line: &str) {
        let Some(number) = number_in(line) else {
            return;
        };
        if line.starts_with(SHARED) {
            self.shared = number;
        } else {
            self.own = number;
        }
    }

    /// Notes a request.
    fn note_request(&mut self, alloc: Global, inbox: &str, body: &str) -> Result<()> {
        let is_shared = inbox.starts_with(hand::INBOX);
        let number = if is_shared { self.shared } else { self.own };
        Ok(
            self.asked.push(Asked {
                inbox: String::from_str(alloc, inbox)?,
                number,
                body: String::from_str(alloc, body)?,
            })?,
        )
    }

    /// Notes the subscriptions and the requests of a text.
    fn note(&mut self, alloc: Global, text: &str) -> Result<()> {
        let mut open: Option<&str> = None;
        for line in text.lines() {
            self.note_number(line);
            if let Some(inbox) = open {
                self.note_request(alloc, inbox, line)?;
            }
            open = inbox_in(line);
        }
        Ok(self.text.push_str(text)?)
    }

    /// Takes what waits.
    pub(crate) fn take<G: Tallies, R: Wait>(
        &mut self,
        rt: &R,
        alloc: Global,
        hub: &Hub<G>,
    ) -> Result<()> {
        let text = hand::takes(rt, alloc, hub)?;
        self.note(alloc, text.as_str())
    }

    /// Hears one more request.
    pub(crate) fn hear<G: Tallies, R: Wait>(
        &mut self,
        rt: &R,
        alloc: Global,
        hub: &Hub<G>,
    ) -> Result<()> {
        let before = self.asked.len();
        for _ in 0..LOOKS {
            if self.asked.len() > before {
                return Ok(());
            }
            hub.wait_for_bytes(rt, hub.link(rt));
            self.take(rt, alloc, hub)?;
        }
        Err(anyhow!("no request came"))
    }

    /// Hears two more requests.
    pub(crate) fn hear_two<G: Tallies, R: Wait>(
        &mut self,
        rt: &R,
        alloc: Global,
        hub: &Hub<G>,
    ) -> Result<()> {
        let wanted = self.asked.len().saturating_add(2);
        for _ in 0..LOOKS {
            if self.asked.len() >= wanted {
                return Ok(());
            }
            hub.wait_for_bytes(rt, hub.link(rt));
            self.take(rt, alloc, hub)?;
        }
        Err(anyhow!("no two requests came"))
    }

    /// Forgets what was heard and not shown.
    pub(crate) fn forget(&mut self, alloc: Global) {
        self.text = String::new(alloc);
    }

    /// Hands out all that was heard since it was shown last, in lines with bars.
    pub(crate) fn show(&mut self, alloc: Global) -> Result<String> {
        let shown = hand::shown(alloc, self.text.as_str())?;
        self.text = String::new(alloc);
        Ok(shown)
    }

    /// A reply to the request at this place: a word, a colon and the request's body.
    fn reply(&self, alloc: Global, place: usize, word: &str) -> Result<String> {
        let Some(asked) = self.asked.as_slice().get(place) else {
            return Err(anyhow!("no such request"));
        };
        let payload = format!(in alloc; "{word}:{}", asked.body.as_str())?;
        plain(alloc, asked.inbox.as_str(), asked.number, payload.as_str())
    }

    /// A reply to the last request, of this block of headers and this body.
    fn reply_with(&self, alloc: Global, block: &str, payload: &str) -> Result<String> {
        let Some(asked) = self.asked.as_slice().last() else {
            return Err(anyhow!("no request"));
        };
        headed(alloc, asked.inbox.as_str(), asked.number, block, payload)
    }

    /// A message to the inbox of the last request, by the number of no subscription.
    fn stray(&self, alloc: Global) -> Result<String> {
        let Some(asked) = self.asked.as_slice().last() else {
            return Err(anyhow!("no request"));
        };
        plain(alloc, asked.inbox.as_str(), 77, "stray")
    }

    /// Replies to the request at this place.
    fn replies<G: Tallies, R: Wait>(
        &self,
        rt: &R,
        alloc: Global,
        hub: &Hub<G>,
        place: usize,
        word: &str,
    ) -> Result<()> {
        let text = self.reply(alloc, place, word)?;
        says(rt, alloc, hub, text.as_str())
    }

    /// Replies to the last request with a block of headers.
    fn replies_with<G: Tallies, R: Wait>(
        &self,
        rt: &R,
        alloc: Global,
        hub: &Hub<G>,
        block: &str,
        payload: &str,
    ) -> Result<()> {
        let text = self.reply_with(alloc, block, payload)?;
        says(rt, alloc, hub, text.as_str())
    }

    /// Replies to the last request.
    pub(crate) fn answers<G: Tallies, R: Wait>(
        &self,
        rt: &R,
        alloc: Global,
        hub: &Hub<G>,
    ) -> Result<()> {
        self.replies(rt, alloc, hub, self.asked.len().saturating_sub(1), "re")
    }

    /// Replies to the last request, and to the one before it.
    pub(crate) fn answers_both<G: Tallies, R: Wait>(
        &self,
        rt: &R,
        alloc: Global,
        hub: &Hub<G>,
    ) -> Result<()> {
        self.answers(rt, alloc, hub)?;
        self.replies(rt, alloc, hub, self.asked.len().saturating_sub(2), "re")
    }

    /// Sends a stray message, and then replies.
    fn strays<G: Tallies, R: Wait>(&self, rt: &R, alloc: Global, hub: &Hub<G>) -> Result<()> {
        let text = self.stray(alloc)?;
        says(rt, alloc, hub, text.as_str())?;
        self.answers(rt, alloc, hub)
    }

    /// Another link comes up, on which it replies.
    fn answers_on_next<G: Tallies, R: Wait>(
        &mut self,
        rt: &R,
        alloc: Global,
        hub: &Hub<G>,
    ) -> Result<()> {
        hand::play(rt, alloc, hub, Turn::Lost)?;
        hand::up(rt, alloc, hub, LIMIT)?;
        self.take(rt, alloc, hub)?;
        self.answers(rt, alloc, hub)
    }

    /// Does what is planned.
    fn act<G: Tallies, R: Wait>(
        &mut self,
        rt: &R,
        alloc: Global,
        hub: &Hub<G>,
        plan: Plan,
    ) -> Result<()> {
        match plan {
            Plan::Reply => self.answers(rt, alloc, hub),
            Plan::Headers => {
                let block = "NATS/1.0\r\nK: w\r\nL: x\r\n\r\n";
                self.replies_with(rt, alloc, hub, block, "with")
            }
            Plan::First => {
                self.replies(rt, alloc, hub, 0, "again")?;
                self.answers(rt, alloc, hub)
            }
            Plan::Twice => {
                self.answers(rt, alloc, hub)?;
                self.replies(rt, alloc, hub, self.asked.len().saturating_sub(1), "more")
            }
            Plan::Nobody => self.replies_with(rt, alloc, hub, "NATS/1.0 503\r\n\r\n", ""),
            Plan::Error => {
                let block = "NATS/1.0 408 Request Timeout\r\n\r\n";
                self.replies_with(rt, alloc, hub, block, "")
            }
            Plan::Stray => self.strays(rt, alloc, hub),
            Plan::NextLink => self.answers_on_next(rt, alloc, hub),
            Plan::Hangup => hand::play(rt, alloc, hub, Turn::Hangup),
        }
    }

    /// Hears a request, and then does what is planned.
    pub(crate) fn hear_and_act<G: Tallies, R: Wait>(
        &mut self,
        rt: &R,
        alloc: Global,
        hub: &Hub<G>,
        plan: Plan,
    ) -> Result<()> {
        self.hear(rt, alloc, hub)?;
        self.act(rt, alloc, hub, plan)
    }
}
