//! The words that the program takes.

use crate::stop::Stop;
use clap::error::ErrorKind;
use clap::{Arg, ArgAction, Command, Error, value_parser};
use std::alloc::{AllocError, Global};

/// What a benchmark measures.
const WAYS: &[&str] = &["pub", "sub", "pubsub", "request"];

/// The most bytes of a benchmark's message.
const MOST: i64 = 1_048_576;

/// What each exit status of the program says.
const STATUSES: &str = "Exit status:
  0   all is done, or what was asked for was printed
  2   the words are no command
  3   standard input failed
  4   standard output failed
  7   out of memory
  9   no link came about
  10  the client or the server refused what was asked for, or the session was closed first
  11  a request's time was over before its reply came
  12  nobody answers requests to the subject
  13  not all messages or replies of a benchmark came";

/// When a benchmark gives up.
const PATIENCE: &str =
    "A benchmark is given up once no message came for 10 seconds (`sub` waits 60 for its first),
a reply is late, or no link came up anew for about 16 seconds. Then it tells how many of how
many came, prints their rate, and ends with status 13.";

/// An option with a value.
fn option<'a>(alloc: Global, name: &'a str, value: &'a str, help: &'a str) -> Arg<'a> {
    Arg::new(alloc, name)
        .long(name)
        .value_name(value)
        .help(help)
        .action(ArgAction::Set)
}

/// An option with a number.
fn number<'a>(alloc: Global, name: &'a str, value: &'a str, help: &'a str) -> Arg<'a> {
    option(alloc, name, value, help).value_parser(value_parser!(u64).range(1..))
}

/// A word that has to stand there.
fn word<'a>(alloc: Global, name: &'a str, help: &'a str) -> Arg<'a> {
    Arg::new(alloc, name)
        .required(true)
        .help(help)
        .action(ArgAction::Set)
}

fn publish<'a>(alloc: Global) -> Result<Command<'a>, AllocError> {
    let headers = option(
        alloc,
        "header",
        "NAME:VALUE",
        "A header; may stand more than once",
    )
    .action(ArgAction::Append);
    Command::new(alloc, "pub")
        .about("Publishes a message")
        .arg(word(alloc, "SUBJECT", "The subject"))?
        .arg(
            Arg::new(alloc, "PAYLOAD")
                .default_value("")
                .help("The payload; `-` reads it from standard input"),
        )?
        .arg(headers)?
        .arg(option(alloc, "reply", "SUBJECT", "Where replies go"))?
        .arg(number(alloc, "count", "N", "How many times").default_value("1"))
}

fn subscribe<'a>(alloc: Global) -> Result<Command<'a>, AllocError> {
    Command::new(alloc, "sub")
        .about("Subscribes, and prints each message as it comes")
        .arg(word(alloc, "SUBJECT", "The subject, which may have wildcards"))?
        .arg(option(
            alloc,
            "queue",
            "GROUP",
            "Shares the messages with others of this group",
        ))?
        .arg(number(alloc, "count", "N", "Ends after so many messages"))
}

fn request<'a>(alloc: Global) -> Result<Command<'a>, AllocError> {
    Command::new(alloc, "request")
        .about("Asks, and prints the reply")
        .arg(word(alloc, "SUBJECT", "The subject"))?
        .arg(word(alloc, "PAYLOAD", "The payload"))?
        .arg(number(alloc, "timeout", "MS", "Milliseconds to wait for the reply").default_value(
            "10000",
        ))
}

fn reply<'a>(alloc: Global) -> Result<Command<'a>, AllocError> {
    Command::new(alloc, "reply")
        .about("Answers each request with a payload")
        .arg(word(alloc, "SUBJECT", "The subject, which may have wildcards"))?
        .arg(word(alloc, "PAYLOAD", "The payload of each answer"))?
        .arg(option(
            alloc,
            "queue",
            "GROUP",
            "Shares the requests with others of this group",
        ))?
        .arg(number(alloc, "count", "N", "Ends after so many answers"))
}

fn bench<'a>(alloc: Global) -> Result<Command<'a>, AllocError> {
    let size = option(alloc, "size", "S", "Bytes of each message").value_parser(value_parser!(
        u64
    ).range(0..=MOST));
    Command::new(alloc, "bench")
        .about("Measures how many messages go through in a second")
        .after_help(PATIENCE)
        .arg(word(
            alloc,
            "WAY",
            "What is measured: publishing, taking, both, or requests",
        )
        .value_parser(WAYS))?
        .arg(number(alloc, "msgs", "N", "Messages in all").default_value("100000"))?
        .arg(size.default_value("128"))?
        .arg(number(
            alloc,
            "clients",
            "C",
            "Clients over one connection, each on a thread of its own",
        )
        .default_value("1"))?
        .arg(number(alloc, "timeout", "MS", "Milliseconds to wait for a reply").default_value(
            "10000",
        ))
}

fn serve<'a>(alloc: Global) -> Result<Command<'a>, AllocError> {
    let port = option(
        alloc,
        "port",
        "P",
        "The port of 127.0.0.1 to listen on; 0 for one that the system picks",
    )
    .value_parser(value_parser!(u64).range(0..=65_535));
    Command::new(alloc, "serve")
        .about(
            "Serves a broker in memory to clients on this machine, until it is ended by a signal",
        )
        .arg(port.default_value("4222"))?
        .arg(number(
            alloc,
            "max",
            "N",
            "Clients at once; the link of one that comes past them is closed",
        )
        .default_value("64"))
}

/// All words that the program takes.
pub fn command<'a>(alloc: Global) -> Result<Command<'a>, AllocError> {
    let server = option(
        alloc,
        "server",
        "URL",
        "A server; may stand more than once. Else NATS_URL, else nats://127.0.0.1:4222",
    )
    .action(ArgAction::Append);
    Command::new(alloc, "wichapok")
        .version("0.1.0")
        .about("A NATS client that stays connected, and a broker for one machine")
        .after_help(STATUSES)
        .subcommand_required(true)
        .arg(server)?
        .arg(option(alloc, "user", "NAME", "The user to log in as"))?
        .arg(option(alloc, "password", "TEXT", "The user's password"))?
        .arg(option(alloc, "token", "TEXT", "The token to log in by"))?
        .arg(option(alloc, "name", "TEXT", "The name of the connection"))?
        .subcommand(publish(alloc)?)?
        .subcommand(subscribe(alloc)?)?
        .subcommand(request(alloc)?)?
        .subcommand(reply(alloc)?)?
        .subcommand(bench(alloc)?)?
        .subcommand(serve(alloc)?)
}

/// Prints why words were not taken, or the help that they asked for.
pub fn refuse<R: Print + Eprint>(rt: &R, error: &Error) -> Stop {
    if error.print(rt).is_err() {
        return Stop::Output;
    }
    match error.kind() {
        ErrorKind::OutOfMemory => Stop::NoMemory,
        _ if error.use_stderr() => Stop::Words,
        _ => Stop::Told,
    }
}
