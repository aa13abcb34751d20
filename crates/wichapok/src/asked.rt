//! What the words ask for.

use crate::stop::Stop;
use clap::ArgMatches;
use nats_names::Text;
use nats_pool::Auth;
use std::alloc::{AllocError, Global};

/// How many attempts to connect anew may fail in turn before a benchmark is given up: they take about 16 seconds.
const TRIES_IN_TURN: usize = 15;

/// The port of a broker that is served, where none is named.
const USUAL_PORT: u64 = 4_222;

/// How many may be connected at once to a broker that is served, where no number is named.
const USUAL_MOST: u64 = 64;

/// What a benchmark measures.
#[derive(Clone, Copy, Debug, PartialEq, Eq)]
pub enum Way {
    /// Publishing.
    Publish,
    /// Taking what others publish.
    Subscribe,
    /// Publishing, and taking all of that.
    Both,
    /// Asking, one request after the other, and answering.
    Request,
}

impl Way {
    /// What its rates are headed by.
    pub fn title(self) -> &'static str {
        match self {
            Way::Publish => "Pub",
            Way::Subscribe => "Sub",
            Way::Both => "Pub/Sub",
            Way::Request => "Request",
        }
    }

    /// What is told behind how many of how many, where not all went through.
    pub fn what(self) -> &'static str {
        match self {
            Way::Publish => "messages were published",
            Way::Subscribe | Way::Both => "messages came",
            Way::Request => "requests were answered",
        }
    }

    /// What this word of the command line names.
    fn of(word: &str) -> Option<Way> {
        if word == "pub" {
            Some(Way::Publish)
        } else if word == "sub" {
            Some(Way::Subscribe)
        } else if word == "pubsub" {
            Some(Way::Both)
        } else if word == "request" {
            Some(Way::Request)
        } else {
            None
        }
    }
}

/// A benchmark.
#[derive(Clone, Copy, Debug)]
pub struct Bench {
    /// What it measures.
    pub way: Way,
    /// How many messages there are in all; each subscription takes so many.
    pub msgs: u64,
    /// How many bytes each has.
    pub size: u64,
    /// How many clients there are, each on a thread of its own.
    pub clients: u64,
}

/// What is to be done.
#[derive(Drop)]
pub enum Deed {
    /// A message is published so many times.
    Publish {
        /// Its subject.
        subject: String,
        /// Its payload.
        payload: Vec<u8>,
        /// Its headers, each a name, a colon and a value.
        headers: Vec<String>,
        /// Where replies go.
        reply: Option<String>,
        /// How many times.
        count: u64,
    },
    /// Messages are printed.
    Subscribe {
        /// Their subject.
        subject: String,
        /// The queue group.
        queue: Option<String>,
        /// How many; without end where none is named.
        count: Option<u64>,
    },
    /// A request is made, and its reply printed.
    Request {
        /// Its subject.
        subject: String,
        /// Its payload.
        payload: Vec<u8>,
    },
    /// Requests are answered.
    Reply {
        /// Their subject.
        subject: String,
        /// The payload of each answer.
        payload: Vec<u8>,
        /// The queue group.
        queue: Option<String>,
        /// How many; without end where none is named.
        count: Option<u64>,
    },
    /// A rate is measured.
    Bench(Bench),
}

impl Deed {
    /// How many attempts to connect anew may fail in turn, where that is limited: a benchmark is to end.
    pub fn most_attempts(&self) -> Option<usize> {
        match self {
            Deed::Bench(_) => Some(TRIES_IN_TURN),
            Deed::Publish { .. }
            | Deed::Subscribe { .. }
            | Deed::Request { .. }
            | Deed::Reply { .. } => None,
        }
    }

    /// How many messages of a subscription may wait, where that is not what is usual: a benchmark loses none.
    pub fn room(&self) -> Option<u64> {
        match self {
            Deed::Bench(bench) => Some(bench.msgs),
            Deed::Publish { .. }
            | Deed::Subscribe { .. }
            | Deed::Request { .. }
            | Deed::Reply { .. } => None,
        }
    }
}

/// A broker that is to be served.
#[derive(Clone, Copy, Debug)]
pub struct Serving {
    /// The port; one that the system picks where it is 0.
    pub port: u16,
    /// How many may be connected at once.
    pub most: u64,
}

/// What the words ask for: a broker that is served, or something over a connection.
#[derive(Drop)]
pub enum Asked {
    /// A broker is served.
    Serve(Serving),
    /// Something is done over a connection.
    Connect(Task),
}

/// All that is asked for over a connection.
#[derive(Drop)]
pub struct Task {
    /// The servers to connect to.
    pub servers: Vec<String>,
    /// The name of the connection.
    pub name: Text,
    /// What the client logs in by.
    pub auth: Auth,
    /// Milliseconds that a request waits for its reply.
    pub timeout: Option<u64>,
    /// What is to be done.
    pub deed: Deed,
}

/// A word that may be left out.
fn optional(alloc: Global, word: Option<&str>) -> Result<Option<String>, AllocError> {
    match word {
        Some(word) => Ok(Some(String::from_str(alloc, word)?)),
        None => Ok(None),
    }
}

/// Words of which there may be none.
fn all(alloc: Global, words: Option<&[&str]>) -> Result<Vec<String>, AllocError> {
    let mut texts = Vec::new(alloc);
    if let Some(words) = words {
        'words: for word in words {
            texts.push(String::from_str(alloc, word)?)?;
        }
    }
    Ok(texts)
}

/// Whether the payload is standard input.
pub fn wants_input(matches: &ArgMatches<'_>) -> bool {
    match matches.subcommand() {
        Some((_, of)) => of.get_str("PAYLOAD") == Some("-"),
        None => false,
    }
}

/// The subject.
fn subject_of(alloc: Global, of: &ArgMatches<'_>) -> Result<String, Stop> {
    match of.get_str("SUBJECT") {
        Some(word) => Ok(String::from_str(alloc, word)?),
        None => Err(Stop::Words),
    }
}

/// The payload: a word, or what standard input gave.
fn payload_of(alloc: Global, of: &ArgMatches<'_>, input: Vec<u8>) -> Result<Vec<u8>, Stop> {
    match of.get_str("PAYLOAD") {
        Some("-") => Ok(input),
        Some(word) => Ok(Vec::from_slice(alloc, word.as_bytes())?),
        None => Err(Stop::Words),
    }
}

/// A message that is to be published.
fn publish_of(alloc: Global, of: &ArgMatches<'_>, input: Vec<u8>) -> Result<Deed, Stop> {
    let payload = payload_of(alloc, of, input)?;
    let subject = subject_of(alloc, of)?;
    let headers = all(alloc, of.get_strs("header"))?;
    let reply = optional(alloc, of.get_str("reply"))?;
    Ok(Deed::Publish {
        subject,
        payload,
        headers,
        reply,
        count: of.get_one::<u64>("count").unwrap_or(1),
    })
}

/// A benchmark.
fn bench_of(of: &ArgMatches<'_>) -> Result<Deed, Stop> {
    match Way::of(of.get_str("WAY").unwrap_or("")) {
        Some(way) => Ok(Deed::Bench(Bench {
            way,
            msgs: of.get_one::<u64>("msgs").unwrap_or(1),
            size: of.get_one::<u64>("size").unwrap_or(0),
            clients: of.get_one::<u64>("clients").unwrap_or(1),
        })),
        None => Err(Stop::Words),
    }
}

/// What is to be done, of the command with this word.
fn deed_of(alloc: Global, word: &str, of: &ArgMatches<'_>, input: Vec<u8>) -> Result<Deed, Stop> {
    if word == "bench" {
        return bench_of(of);
    }
    if word == "pub" {
        return publish_of(alloc, of, input);
    }
    let subject = subject_of(alloc, of)?;
    if word == "request" {
        let payload = payload_of(alloc, of, input)?;
        return Ok(Deed::Request { subject, payload });
    }
    let queue = optional(alloc, of.get_str("queue"))?;
    let count = of.get_one::<u64>("count");
    if word == "sub" {
        return Ok(Deed::Subscribe {
            subject,
            queue,
            count,
        });
    }
    let payload = payload_of(alloc, of, input)?;
    Ok(Deed::Reply {
        subject,
        payload,
        queue,
        count,
    })
}

/// The servers to connect to; `home` where none is named.
fn servers_of(
    alloc: Global,
    matches: &ArgMatches<'_>,
    home: &str,
) -> Result<Vec<String>, AllocError> {
    let mut servers = all(alloc, matches.get_strs("server"))?;
    if servers.is_empty() {
        servers.push(String::from_str(alloc, home)?)?;
    }
    Ok(servers)
}

/// What the client logs in by.
fn auth_of(alloc: Global, matches: &ArgMatches<'_>) -> Result<Auth, AllocError> {
    let mut auth = Auth::new();
    auth.username = optional(alloc, matches.get_str("user"))?;
    auth.password = optional(alloc, matches.get_str("password"))?;
    auth.token = optional(alloc, matches.get_str("token"))?;
    Ok(auth)
}

/// The broker that is to be served.
fn serving_of(of: &ArgMatches<'_>) -> Result<Serving, Stop> {
    let port = of.get_one::<u64>("port").unwrap_or(USUAL_PORT);
    match u16::try_from(port) {
        Ok(port) => Ok(Serving {
            port,
            most: of.get_one::<u64>("max").unwrap_or(USUAL_MOST),
        }),
        Err(_) => Err(Stop::Words),
    }
}

/// All that is asked for over a connection by the command with this word.
fn task_of(
    alloc: Global,
    matches: &ArgMatches<'_>,
    word: &str,
    of: &ArgMatches<'_>,
    home: &str,
    input: Vec<u8>,
) -> Result<Task, Stop> {
    let deed = deed_of(alloc, word, of, input)?;
    let servers = servers_of(alloc, matches, home)?;
    let auth = auth_of(alloc, matches)?;
    let name = Text::from_text(alloc, matches.get_str("name").unwrap_or("wichapok"))?;
    Ok(Task {
        servers,
        name,
        auth,
        timeout: of.get_one::<u64>("timeout"),
        deed,
    })
}

/// What the words ask for, where `home` is the server if none is named and `input` what standard input gave.
pub fn asked_of(
    alloc: Global,
    matches: &ArgMatches<'_>,
    home: &str,
    input: Vec<u8>,
) -> Result<Asked, Stop> {
    let Some((word, of)) = matches.subcommand() else {
        return Err(Stop::Words);
    };
    if word == "serve" {
        Ok(Asked::Serve(serving_of(of)?))
    } else {
        let task = task_of(alloc, matches, word, of, home, input)?;
        Ok(Asked::Connect(task))
    }
}
