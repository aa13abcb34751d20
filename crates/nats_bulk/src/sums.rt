//! The numbers of a transcript and their text.
ghost use Rattle.std.specs.Prelude.{◌≡◌, ◌++◌, length, IfOk, OnOk, sum_by, count_by, is_some, string_bytes};
ghost use Rattle.nats_history.specs.declared.transcript.LinkRow.{LinkRow};
ghost use Rattle.nats_history.specs.declared.transcript.SubRow.{SubRow};
ghost use Rattle.nats_bulk.specs.Summary as words;

use nats_history::{CallReply, LinkRow, NoMemory, SubRow, TakeReply, Transcript};
use std::alloc::Global;

/// What the rows of subscriptions come to.
#[derive(Clone, Copy)]
struct SubSums {
    puts: u128,
    takes: u128,
    drops: u128,
}

/// What the rows of links come to, in bytes.
#[derive(Clone, Copy)]
struct LinkSums {
    taken: u128,
    left: u128,
}

fn is_accepted(reply: &CallReply) -> bool
    ensures { result ≡ words.is_accepted reply.now }
{
    matches!(reply, CallReply::Accepted | CallReply::Numbered(_))
}

fn calls(rows: &[(u64, CallReply)]) -> usize
    ensures { result ≡ count_by words.was_accepted rows.now }
{
    let mut count = 0;
    for (_, reply) in rows {
        if is_accepted(reply) {
            count += 1;
        }
    }
    count
}

fn is_message(reply: &TakeReply) -> bool
    ensures { result ≡ words.is_message reply.now }
{
    matches!(reply, TakeReply::Message(_))
}

fn messages(rows: &[(u64, TakeReply)]) -> usize
    ensures { result ≡ count_by words.got_message rows.now }
{
    let mut count = 0;
    for (_, reply) in rows {
        if is_message(reply) {
            count += 1;
        }
    }
    count
}

fn settled(tickets: &[Option<(u64, CallReply)>]) -> usize
    ensures { result ≡ count_by is_some tickets.now }
{
    let mut count = 0;
    for ticket in tickets {
        if ticket.is_some() {
            count += 1;
        }
    }
    count
}

fn sub_sums(rows: &[SubRow]) -> SubSums
    ensures puts { result.puts ≡ sum_by (λ (row : SubRow). length row.puts) rows.now }
    ensures takes { result.takes ≡ sum_by (λ (row : SubRow). count_by words.got_message row.takes) rows.now }
    ensures drops { result.drops ≡ sum_by (λ (row : SubRow). length row.drops) rows.now }
{
    let mut sums = SubSums {
        puts: 0,
        takes: 0,
        drops: 0,
    };
    for row in rows {
        sums.puts += row.puts.as_slice().len() as u128;
        sums.takes += messages(row.takes.as_slice()) as u128;
        sums.drops += row.drops.as_slice().len() as u128;
    }
    sums
}

fn link_sums(rows: &[LinkRow]) -> LinkSums
    ensures taken { result.taken ≡ sum_by (λ (row : LinkRow). length row.taken) rows.now }
    ensures left { result.left ≡ sum_by (λ (row : LinkRow). length row.left) rows.now }
{
    let mut sums = LinkSums { taken: 0, left: 0 };
    for row in rows {
        sums.taken += row.taken.as_slice().len() as u128;
        sums.left += row.left.as_slice().len() as u128;
    }
    sums
}

/// The numbers of a transcript.
#[derive(Clone, Copy)]
struct Figures {
    turns: u128,
    calls: u128,
    puts: u128,
    takes: u128,
    drops: u128,
    settled: u128,
    taken: u128,
    left: u128,
}

fn count(turns: u64, transcript: &Transcript) -> Figures
    ensures { result ≡ words.figures_of turns transcript.now }
{
    let subs = sub_sums(transcript.subs.as_slice());
    let links = link_sums(transcript.links.as_slice());
    Figures {
        turns: turns as u128,
        calls: calls(transcript.calls.as_slice()) as u128,
        puts: subs.puts,
        takes: subs.takes,
        drops: subs.drops,
        settled: settled(transcript.tickets.as_slice()) as u128,
        taken: links.taken,
        left: links.left,
    }
}

fn push_line(alloc: Global, out: &mut String, word: &str, n: u128) -> Result<(), NoMemory>
    ensures { OnOk result (string_bytes out.new ≡ string_bytes out.old ++ words.line word.now n) }
{
    let line = format!(in alloc; "{word} {n}\n")?;
    out.push_str(line.as_str())?;
    Ok(())
}

fn text_of(alloc: Global, figures: Figures) -> Result<String, NoMemory>
    ensures { IfOk result (λ text. string_bytes text ≡ words.figures_text figures) }
{
    let mut out = String::new(alloc);
    push_line(alloc, &mut out, "turns", figures.turns)?;
    push_line(alloc, &mut out, "calls", figures.calls)?;
    push_line(alloc, &mut out, "puts", figures.puts)?;
    push_line(alloc, &mut out, "takes", figures.takes)?;
    push_line(alloc, &mut out, "drops", figures.drops)?;
    push_line(alloc, &mut out, "settled", figures.settled)?;
    push_line(alloc, &mut out, "out", figures.taken)?;
    push_line(alloc, &mut out, "left", figures.left)?;
    Ok(out)
}

/// What a list of so many turns came to, eight lines of a word and a number each: `turns`; `calls`, those that were
/// accepted; `puts`, messages that were put into queues; `takes`, those that a message answered; `drops`, messages
/// that met a full queue; `settled` tickets; `out`, bytes that links took; `left`, bytes that they left.
///
/// # Errors
///
/// For want of memory.
pub fn summary(alloc: Global, turns: u64, transcript: &Transcript) -> Result<String, NoMemory>
    ensures { IfOk result (λ text. string_bytes text ≡ words.summary turns transcript.now) }
{
    text_of(alloc, count(turns, transcript))
}
