//! What is told of a call: what it sends, asks for, names, and what else its acceptance and its handling mean.
use nats_history::refusals::{
    Outgoing, ReplyTo, Wanted, asked, drains_all, ends_link, has_group, has_subjects, lets_go,
    limits, names, requests, sent, shuts, size_of, subscribes, takes_ticket,
};
use nats_history::{Call, Config, NoMemory, Subject, Turn};
use nats_row_words::words::{say, say_number};
use nats_script::{Script, read_script};
use std::alloc::Global;

/// A script of calls. No subject of the settings' inbox prefix may be published to.
const CALLS: &str = "config 1 1 check IN%20BOX MUX1
pub a r hi
hpub a ~ hi K v
pub a%20b ~ hi
sub b.> g
sub .b ~
sub b g%20h
unsub 1
limit 1 3
drain 1
drainall
flush
request c T1 hey
drop 1
reconnect
";

/// What is told of each of them, a line for each.
const TOLD: &str = "sends a r 2 bytes
sends a ~ 20 bytes
sends a b ~ 2 bytes, bad subjects
asks for b.> g
asks for .b ~, bad subjects
asks for b g h, bad group
names 1, shuts 1
names 1, limits 3
names 1
drains all
has a ticket
sends c inbox T1 3 bytes, requests, has a ticket, bad subjects
names 1, lets go 1
ends the link
";

fn say_optional(out: &mut Vec<u8>, subject: &Option<Subject>) -> Result<(), NoMemory> {
    match subject {
        Some(subject) => say(out, subject.as_str()),
        None => say(out, "~"),
    }
}

fn say_reply_to(out: &mut Vec<u8>, reply: &ReplyTo<'_>) -> Result<(), NoMemory> {
    match reply {
        ReplyTo::Given(subject) => say_optional(out, subject),
        ReplyTo::Inbox(token) => {
            say(out, "inbox ")?;
            say(out, token.as_str())
        }
    }
}

fn say_sent(out: &mut Vec<u8>, message: &Outgoing<'_>, size: u64) -> Result<(), NoMemory> {
    say(out, "sends ")?;
    say(out, message.subject.as_str())?;
    say(out, " ")?;
    say_reply_to(out, &message.reply)?;
    say_number(out, "", size)?;
    say(out, " bytes")
}

fn say_asked(out: &mut Vec<u8>, wanted: &Wanted<'_>) -> Result<(), NoMemory> {
    say(out, "asks for ")?;
    say(out, wanted.subject.as_str())?;
    say(out, " ")?;
    say_optional(out, wanted.queue_group)
}

/// Says a further word of a line.
fn say_further(out: &mut Vec<u8>, word: &str) -> Result<(), NoMemory> {
    if !matches!(out.last(), None | Some(b'\n')) {
        say(out, ", ")?;
    }
    say(out, word)
}

fn say_if(out: &mut Vec<u8>, is_so: bool, word: &str) -> Result<(), NoMemory> {
    if is_so {
        say_further(out, word)
    } else {
        Ok(())
    }
}

fn say_some(out: &mut Vec<u8>, number: Option<u64>, word: &str) -> Result<(), NoMemory> {
    match number {
        Some(number) => {
            say_further(out, "")?;
            say_number(out, word, number)
        }
        None => Ok(()),
    }
}

fn say_what(out: &mut Vec<u8>, call: &Call) -> Result<(), NoMemory> {
    if let Some(message) = sent(call) {
        say_sent(out, &message, size_of(call))?;
    }
    match asked(call) {
        Some(wanted) => say_asked(out, &wanted),
        None => Ok(()),
    }
}

fn say_whom(out: &mut Vec<u8>, call: &Call) -> Result<(), NoMemory> {
    say_some(out, names(call), "names")?;
    say_some(out, shuts(call), "shuts")?;
    say_some(out, limits(call), "limits")?;
    say_some(out, lets_go(call), "lets go")
}

fn say_how(out: &mut Vec<u8>, config: &Config, call: &Call) -> Result<(), NoMemory> {
    say_if(out, requests(call), "requests")?;
    say_if(out, takes_ticket(call), "has a ticket")?;
    say_if(out, drains_all(call), "drains all")?;
    say_if(out, ends_link(call).is_some(), "ends the link")?;
    say_if(out, !has_subjects(config, call), "bad subjects")?;
    say_if(out, !has_group(call), "bad group")
}

fn say_call(out: &mut Vec<u8>, config: &Config, call: &Call) -> Result<(), NoMemory> {
    say_what(out, call)?;
    say_whom(out, call)?;
    say_how(out, config, call)?;
    say_if(out, subscribes(call) != asked(call).is_some(), "and not so")?;
    say(out, "\n")
}

fn say_turns(out: &mut Vec<u8>, config: &Config, turns: &[Turn]) -> Result<(), NoMemory> {
    for turn in turns {
        match turn {
            Turn::Do(call) => say_call(out, config, call)?,
            _ => say(out, "no call\n")?,
        }
    }
    Ok(())
}

fn say_script(out: &mut Vec<u8>, script: &Script) -> Result<(), NoMemory> {
    match script {
        Script::Good { config, turns } => say_turns(out, config, turns.as_slice()),
        Script::Bad(line) => say_number(out, "line", *line),
    }
}

fn told(alloc: Global) -> Result<Vec<u8>, NoMemory> {
    let mut out = Vec::new(alloc);
    let script = read_script(alloc, CALLS.as_bytes())?;
    let said = say_script(&mut out, &script);
    drop(script);
    said?;
    Ok(out)
}

/// Whether each call is told of as its line says.
pub fn are_told(alloc: Global) -> Result<bool, NoMemory> {
    Ok(told(alloc)?.as_slice() == TOLD.as_bytes())
}
