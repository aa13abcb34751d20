//! Requests that are refused, and what the first of several causes is. Nothing is written of a request that is refused.
ghost use Rattle.std.specs.Prelude.{◌≡◌, ◌^◌, true};

use crate::{ask, hand};
use anyhow::Result;
use nats_client::{Client, Config, Subject, Tallies, Turn};
use std::alloc::Global;
use std::sync::Wait;
use std::sync::ledger::Blank;

/// The most bytes of a message: four of a body alone.
const LIMIT: u64 = 4;

/// How many milliseconds a request waits by default.
const TIME: u64 = 10_000;

/// The settings of a session.
#[derive(Clone, Copy)]
pub(crate) enum Settings {
    /// The default ones.
    Usual,
    /// Subjects are taken untested.
    Untested,
    /// Inboxes begin with what may not be published to, and subjects are taken untested.
    BadPrefix,
}

impl Settings {
    /// All of them.
    pub(crate) const ALL: [Settings; 3] = [
        Settings::Usual,
        Settings::Untested,
        Settings::BadPrefix,
    ];

    fn name(self) -> &'static str {
        match self {
            Settings::Usual => "usual",
            Settings::Untested => "untested subjects",
            Settings::BadPrefix => "a bad prefix of inboxes",
        }
    }

    fn config(self, alloc: Global) -> Result<Config> {
        let mut config = hand::config(alloc)?;
        match self {
            Settings::Usual => {}
            Settings::Untested => config.skip_subject_validation = true,
            Settings::BadPrefix => {
                config.skip_subject_validation = true;
                config.inbox_prefix = Subject::from_static("in box");
            }
        }
        Ok(config)
    }
}

/// Prints what was written of a request, and what it came to.
fn print<G: Tallies, R: Wait + Print>(
    rt: &R,
    alloc: Global,
    client: &Client<G>,
    name: &str,
    told: &str,
) -> Result<()> {
    let text = hand::takes(rt, alloc, client.hub())?;
    let shown = hand::shown(alloc, text.as_str())?;
    Ok(println!(rt; "{name}:{} => {told}", shown.as_str())?)
}

/// Asks at this subject with this body, by a clock that soon gives that the time is over.
fn asks<G: Tallies, R: Wait + Print>(
    rt: &R,
    alloc: Global,
    client: &mut Client<G>,
    subject: &'static str,
    text: &'static str,
) -> Result<()> {
    let mut clock = hand::ending(alloc, TIME)?;
    let told = ask::plainly(rt, alloc, client, subject, text, &mut clock)?;
    print(rt, alloc, client, subject, told.as_str())
}

/// Asks with headers and without a body.
fn asks_with_headers<G: Tallies, R: Wait + Print>(
    rt: &R,
    alloc: Global,
    client: &mut Client<G>,
) -> Result<()> {
    let mut clock = hand::ending(alloc, TIME)?;
    let headers = ask::headers(alloc, "v")?;
    let told = ask::with_headers(rt, alloc, client, "", headers, &mut clock)?;
    print(rt, alloc, client, "headers", told.as_str())
}

/// Subjects that may or may not be published to.
fn subjects<G: Tallies, R: Wait + Print>(
    rt: &R,
    alloc: Global,
    client: &mut Client<G>,
) -> Result<()> {
    for subject in ["", "a b", " a", "a ", "a\tb", "a*", ".a..b.", "a.*", "a.>"] {
        asks(rt, alloc, client, subject, "hi")?;
    }
    Ok(())
}

/// Messages that are larger than the server takes, and one that is just as large.
fn sizes<G: Tallies, R: Wait + Print>(rt: &R, alloc: Global, client: &mut Client<G>) -> Result<()> {
    asks(rt, alloc, client, "four", "1234")?;
    asks(rt, alloc, client, "five", "12345")?;
    asks(rt, alloc, client, "", "12345")?;
    asks_with_headers(rt, alloc, client)
}

/// The causes in their order, on a session that is to close, or is closed.
fn ends<G: Tallies, R: Wait + Print>(rt: &R, alloc: Global, client: &mut Client<G>) -> Result<()> {
    asks(rt, alloc, client, "a b", "12345")?;
    asks(rt, alloc, client, "five", "12345")?;
    asks(rt, alloc, client, "four", "1234")
}

/// The rows of a session of these settings.
fn rows<G: Tallies, R: Wait + Print>(rt: &R, alloc: Global, client: &mut Client<G>) -> Result<()> {
    subjects(rt, alloc, client)?;
    sizes(rt, alloc, client)?;
    client.drain(rt, alloc)?;
    print(rt, alloc, client, "drain", "done")?;
    ends(rt, alloc, client)?;
    hand::play(rt, alloc, client.hub(), Turn::Hangup)?;
    ends(rt, alloc, client)
}

/// Requests that are refused by a session of these settings, and what its hub came to.
pub(crate) fn play_refused<G: Tallies, R: Wait + Print>(
    rt: &R,
    alloc: Global,
    blank: Blank,
    settings: Settings,
) -> Result<()>
    requires name { blank.name ≡ G.name }
    requires parts { blank.parts ≡ G.parts }
    requires all { blank.parts ≡ 2 ^ 63 }
    requires kept { G.is_kept ≡ true }
{
    println!(rt; "settings: {}", settings.name())?;
    let config = settings.config(alloc)?;
    let mut client = hand::begin::<G, R>(rt, alloc, blank, config, LIMIT)?;
    rows(rt, alloc, &mut client)?;
    hand::finishes(rt, alloc, client)
}
