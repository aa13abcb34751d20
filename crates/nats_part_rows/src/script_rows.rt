//! Scripts that are read, and a transcript with a row of every kind that is printed.
use nats_header::HeaderMap;
use nats_history::{
    Call, CallReply, Event, LinkRow, LinkWord, Message, SubRow, TakeReply, Transcript,
};
use nats_names::{Bytes, StatusCode, Subject, Text};
use nats_row_words::words::agrees;
use nats_script::{NoMemory, Script, Seq, Turn, print_transcript, read_script};
use std::alloc::Global;

/// The number of the first line that cannot be read, 0 where each can.
fn bad_line_of(script: &Script) -> u64 {
    match script {
        Script::Good { .. } => 0,
        Script::Bad(line) => *line,
    }
}

/// The number of the first line of a text that cannot be read, 0 where each can.
fn bad_line(alloc: Global, text: &str) -> Result<u64, NoMemory> {
    let script = read_script(alloc, text.as_bytes())?;
    Ok(bad_line_of(&script))
}

/// A script of one turn.
fn script_of(alloc: Global, line: &str) -> Result<Script, NoMemory> {
    let mut text = String::from_str(alloc, "config 1 1 check P X\n")?;
    text.push_str(line)?;
    read_script(alloc, text.as_bytes())
}

/// The turn of a script whose lines can all be read, and that has one.
fn only_turn(script: &Script) -> Option<&Turn> {
    let Script::Good { turns, .. } = script else {
        return None;
    };
    match turns.as_slice() {
        [turn] => Some(turn),
        _ => None,
    }
}

/// Texts, and the number of the first line of each that cannot be read, 0 where each can.
const TEXTS: [(&str, u64); 26] = [
    ("", 1),
    ("\n", 1),
    ("up 1\n", 1),
    ("config 2048 check _INBOX MUX1\n", 1),
    ("config 2048 65536 none _INBOX MUX1\n", 1),
    ("config 2048 65536 check %FF MUX1\n", 1),
    ("config 2048 65536 check _INBOX MUX-1\n", 1),
    ("config 0 18446744073709551615 skip _INBOX MUX1", 0),
    (
        "config 1 1 check P X\ntake 7\nwrite 0\npiece %\nup 0\nup 7\nsub a..b ~\n",
        0,
    ),
    ("config 1 1 check P X\nup 01\n", 2),
    ("config 1 1 check P X\nup 1\n\nup 1\n", 3),
    ("config 1 1 check P X\nopen {\n", 2),
    ("config 1 1 check P X\npiece %0d\n", 2),
    ("config 1 1 check P X\npiece %41\n", 2),
    ("config 1 1 check P X\npiece\n", 2),
    ("config 1 1 check P X\nwrite  1\n", 2),
    ("config 1 1 check P X\nwrite 18446744073709551616\n", 2),
    ("config 1 1 check P X\ntake 1 \n", 2),
    ("config 1 1 check P X\nsub %FF ~\n", 2),
    ("config 1 1 check P X\nlimit 1\n", 2),
    ("config 1 1 check P X\ndrain 1\ndrainall\ndrain\n", 4),
    ("config 1 1 check P X\nflush\nflush 1\n", 3),
    ("config 1 1 check P X\npub a ~ x y\n", 2),
    ("config 1 1 check P X\nhpub a ~ x K\n", 2),
    ("config 1 1 check P X\nhpub a ~ x K v%0D%0Aw\n", 2),
    ("config 1 1 check P X\nhpub a ~ x K: v\n", 2),
];

/// Whether the first line in no form is found in each.
pub fn are_found(alloc: Global, out: &mut Vec<u8>) -> Result<bool, NoMemory> {
    let mut holds = true;
    for (text, want) in TEXTS {
        let found = format!(in alloc; "{}", bad_line(alloc, text)?)?;
        let wanted = format!(in alloc; "{want}")?;
        holds = agrees(out, text, found.as_bytes(), wanted.as_bytes())? && holds;
    }
    Ok(holds)
}

/// How many values some headers have under `K`.
fn under_k(headers: &Option<HeaderMap>) -> Option<usize> {
    let headers = headers.as_ref()?;
    let mut count = 0usize;
    for _value in headers.get_all("K") {
        count = count.saturating_add(1);
    }
    Some(count)
}

/// How many values the headers of a turn have under `K`, where it is a publish.
fn under_k_of(turn: Option<&Turn>) -> Option<usize> {
    match turn {
        Some(Turn::Do(Call::Publish(message))) => under_k(&message.headers),
        _ => None,
    }
}

/// How many values the headers of a line's turn have under `K`, where it is a publish.
fn values_under_k(alloc: Global, line: &str) -> Result<Option<usize>, NoMemory> {
    let script = script_of(alloc, line)?;
    Ok(under_k_of(only_turn(&script)))
}

/// Whether headers are read in pairs.
fn are_paired(alloc: Global) -> Result<bool, NoMemory> {
    let mut holds = true;
    for (line, count) in [
        ("hpub a r x K v L w K %20", Some(2)),
        ("hpub a ~ x", Some(0)),
        ("pub a ~ x", None),
    ] {
        holds = values_under_k(alloc, line)? == count && holds;
    }
    Ok(holds)
}

fn is_limit(alloc: Global, line: &str) -> Result<bool, NoMemory> {
    let script = script_of(alloc, line)?;
    Ok(matches!(only_turn(&script), Some(Turn::Do(Call::Limit(3, 5)))))
}

/// The greatest size of a message that a turn's server takes.
fn max_payload_of(turn: Option<&Turn>) -> Option<u64> {
    match turn {
        Some(Turn::Up(info)) => Some(info.max_payload),
        _ => None,
    }
}

/// The greatest size of a message that the server of a line's turn takes.
fn max_payload(alloc: Global, line: &str) -> Result<Option<u64>, NoMemory> {
    let script = script_of(alloc, line)?;
    Ok(max_payload_of(only_turn(&script)))
}

/// Whether lines are read as their turns.
pub fn are_read(alloc: Global) -> Result<bool, NoMemory> {
    let mut holds = is_limit(alloc, "limit 3 5")? && are_paired(alloc)?;
    for (line, most) in [("up 33", 33), ("open {\"max_payload\":34}", 34)] {
        holds = max_payload(alloc, line)? == Some(most) && holds;
    }
    Ok(holds)
}

fn only<T: Drop>(alloc: Global, item: T) -> Result<Seq<T>, NoMemory> {
    let mut items = Seq::new(alloc);
    items.push(alloc, item)?;
    Ok(items)
}

fn add_two_values(alloc: Global, headers: &mut HeaderMap) -> Result<(), NoMemory> {
    if headers.append(alloc, "K", "v w").is_err() || headers.append(alloc, "K", "").is_err() {
        return Err(NoMemory);
    }
    Ok(())
}

fn two_values(alloc: Global) -> Result<HeaderMap, NoMemory> {
    let mut headers = HeaderMap::new(alloc);
    add_two_values(alloc, &mut headers)?;
    Ok(headers)
}

fn names(alloc: Global) -> Result<(Subject, Subject), NoMemory> {
    let subject = Subject::from_text(alloc, "a")?;
    let reply = Subject::from_text(alloc, "r\u{e9} ")?;
    Ok((subject, reply))
}

fn texts(alloc: Global) -> Result<(Bytes, Text), NoMemory> {
    let payload = Bytes::copy_from_slice(alloc, &[0, b'%', b'~', b'}'])?;
    let description = Text::from_text(alloc, "No Messages")?;
    Ok((payload, description))
}

fn message_of(
    headers: HeaderMap,
    (subject, reply): (Subject, Subject),
    (payload, description): (Bytes, Text),
) -> Message {
    Message {
        subject,
        reply: Some(reply),
        payload,
        headers: Some(headers),
        status: Some(StatusCode::NOT_FOUND),
        description: Some(description),
        length: 9,
    }
}

fn dropped(alloc: Global) -> Result<Message, NoMemory> {
    let (names, texts) = (names(alloc)?, texts(alloc)?);
    Ok(message_of(two_values(alloc)?, names, texts))
}

fn push_link(alloc: Global, links: &mut Seq<LinkRow>) -> Result<(), NoMemory> {
    let left = only(alloc, b'\n')?;
    links.push(
        alloc,
        LinkRow {
            end: LinkWord::Fault,
            taken: Seq::new(alloc),
            left,
        },
    )
}

fn push_sub(alloc: Global, subs: &mut Seq<SubRow>) -> Result<(), NoMemory> {
    let drops = only(alloc, (5, dropped(alloc)?))?;
    let takes = only(alloc, (6, TakeReply::Empty))?;
    subs.push(
        alloc,
        SubRow {
            puts: Seq::new(alloc),
            drops,
            takes,
        },
    )
}

fn push_rows(alloc: Global, rows: &mut Transcript) -> Result<(), NoMemory> {
    push_link(alloc, &mut rows.links)?;
    push_sub(alloc, &mut rows.subs)?;
    rows.events.push(alloc, (5, Event::SlowConsumer(1)))?;
    rows.calls.push(alloc, (2, CallReply::Full))?;
    rows.tickets.push(alloc, Some((7, CallReply::FlushFailed)))
}

fn print_rows(alloc: Global, rows: &mut Transcript) -> Result<Vec<u8>, NoMemory> {
    push_rows(alloc, rows)?;
    print_transcript(alloc, rows)
}

fn printed_rows(alloc: Global) -> Result<Vec<u8>, NoMemory> {
    let mut rows = Transcript {
        links: Seq::new(alloc),
        subs: Seq::new(alloc),
        events: Seq::new(alloc),
        calls: Seq::new(alloc),
        tickets: Seq::new(alloc),
    };
    let printed = print_rows(alloc, &mut rows);
    drop(rows);
    printed
}

/// Whether rows of every kind are printed.
pub fn are_printed(alloc: Global) -> Result<bool, NoMemory> {
    let want = "link 1 fault\nout %\nleft %0A\nsub 1\n\
drop 5 a r%C3%A9%20 %00%25%7E} 404 No%20Messages 9 2 K v%20w K %\ntake 6 empty\n\
event 5 slow%20consumers%20for%20subscription%201\ncall 2 full\nticket 1 7 flush-failed\n";
    Ok(printed_rows(alloc)?.as_slice() == want.as_bytes())
}
