//! Tickets of flushes and requests by their calls.
use nats_history::{Bytes, CallReply, Message, NoMemory, Subject, Waits};
use nats_tickets::Tickets;
use std::alloc::Global;

/// The next ticket that waits to be handed out, with a 1 where it was flushed.
fn next_told(flushes: &mut Tickets) -> Option<(u64, u64)> {
    let (ticket, reply) = flushes.next()?;
    Some((ticket, u64::from(matches!(&reply, CallReply::Flushed))))
}

/// The tickets of flushes that wait to be handed out, each with a 1 behind it where it was flushed and a 0 where it
/// failed.
fn told(alloc: Global, flushes: &mut Tickets) -> Result<Vec<u64>, NoMemory> {
    let mut told = Vec::new(alloc);
    for _ in 0..9u64 {
        let Some((ticket, is_flushed)) = next_told(flushes) else {
            break;
        };
        told.push(ticket)?;
        told.push(is_flushed)?;
    }
    Ok(told)
}

/// Whether just these wait to be handed out.
fn tells(alloc: Global, flushes: &mut Tickets, want: &[u64]) -> Result<bool, NoMemory> {
    Ok(told(alloc, flushes)?.as_slice() == want)
}

/// Four flushes, of which the first wrote nothing, the second is behind five bytes, the others behind seven.
fn wait_four(flushes: &mut Tickets) -> Result<(), NoMemory> {
    for waiting in [0, 5, 7, 7] {
        flushes.give(Waits::Flush)?;
        flushes.handle_flush(waiting)?;
    }
    Ok(())
}

fn settle_by_bytes(alloc: Global, flushes: &mut Tickets) -> Result<bool, NoMemory> {
    let settled = flushes.has_next();
    let at_once = tells(alloc, flushes, &[1, 1])?;
    flushes.pass(4);
    let none = !flushes.has_next() && tells(alloc, flushes, &[])?;
    flushes.pass(1);
    Ok(settled && at_once && none && tells(alloc, flushes, &[2, 1])?)
}

fn is_failed(reply: &Option<CallReply>) -> bool {
    matches!(reply, Some(CallReply::FlushFailed))
}

/// Whether a ticket settled as one that failed.
fn fails(tickets: &mut Tickets, ticket: u64) -> bool {
    let reply = tickets.reply_of(ticket);
    is_failed(&reply)
}

/// Whether a ticket has no reply to hand out.
fn is_silent(tickets: &mut Tickets, ticket: u64) -> bool {
    let reply = tickets.reply_of(ticket);
    reply.is_none()
}

/// Whether a ticket failed, and tells so once.
fn failed_once(flushes: &mut Tickets, ticket: u64) -> bool {
    fails(flushes, ticket) && is_silent(flushes, ticket)
}

fn fail_at_the_end(alloc: Global, flushes: &mut Tickets) -> Result<bool, NoMemory> {
    flushes.give(Waits::Flush)?;
    flushes.fail();
    flushes.drop_waiting();
    let failed = failed_once(flushes, 4);
    Ok(failed && tells(alloc, flushes, &[3, 0, 5, 0])? && flushes.given() == 5)
}

fn settle(alloc: Global, flushes: &mut Tickets) -> Result<bool, NoMemory> {
    wait_four(flushes)?;
    Ok(settle_by_bytes(alloc, flushes)? && fail_at_the_end(alloc, flushes)?)
}

/// Whether flushes settle in order.
pub fn flushes_settle(alloc: Global) -> Result<bool, NoMemory> {
    let mut flushes = Tickets::new(alloc);
    let settled = settle(alloc, &mut flushes);
    drop(flushes);
    settled
}

fn reply_at(alloc: Global, subject: &str) -> Result<Message, NoMemory> {
    let subject = Subject::from_text(alloc, subject)?;
    let payload = Bytes::copy_from_slice(alloc, b"hi")?;
    Ok(Message {
        subject,
        reply: None,
        payload,
        headers: None,
        status: None,
        description: None,
        length: 2,
    })
}

/// Four requests, and a flush before the last of them.
fn give_five(tickets: &mut Tickets) -> Result<(), NoMemory> {
    for waits in [
        Waits::Request,
        Waits::Request,
        Waits::Request,
        Waits::Flush,
        Waits::Request,
    ] {
        tickets.give(waits)?;
    }
    Ok(())
}

fn tells_requests(tickets: &Tickets) -> bool {
    tickets.is_request(3) && !tickets.is_request(4) && !tickets.is_request(6)
}

/// The next request that waits has its reply come at this subject.
fn handle(alloc: Global, tickets: &mut Tickets, subject: &str) -> Result<(), NoMemory> {
    let subject = Subject::from_text(alloc, subject)?;
    tickets.handle_request(alloc, &subject)
}

fn arrive(alloc: Global, tickets: &mut Tickets, subject: &str) -> Result<(), NoMemory> {
    tickets.arrive(reply_at(alloc, subject)?);
    Ok(())
}

fn is_dropped(reply: &Option<CallReply>) -> bool {
    matches!(reply, Some(CallReply::Dropped))
}

/// A request takes the subject of an earlier one, which is dropped.
fn drops_the_first(alloc: Global, tickets: &mut Tickets) -> Result<bool, NoMemory> {
    handle(alloc, tickets, "i.m.A")?;
    handle(alloc, tickets, "i.m.B")?;
    arrive(alloc, tickets, "i.m.AB")?;
    handle(alloc, tickets, "i.m.A")?;
    let reply = tickets.reply_of(1);
    Ok(is_dropped(&reply))
}

fn is_replied(reply: &Option<CallReply>) -> bool {
    matches!(reply, Some(CallReply::Replied(_)))
}

fn replies(tickets: &mut Tickets, ticket: u64) -> bool {
    let reply = tickets.reply_of(ticket);
    is_replied(&reply)
}

/// Of two replies the first one settles the request.
fn replies_once(alloc: Global, tickets: &mut Tickets) -> Result<bool, NoMemory> {
    arrive(alloc, tickets, "i.m.A")?;
    arrive(alloc, tickets, "i.m.A")?;
    Ok(replies(tickets, 3) && is_silent(tickets, 3))
}

fn is_timed_out(next: &Option<(u64, CallReply)>, ticket: u64) -> bool {
    matches!(next, Some((next, CallReply::TimedOut)) if *next == ticket)
}

/// Whether this ticket is handed out next, as one that timed out.
fn times_out(tickets: &mut Tickets, ticket: u64) -> bool {
    let next = tickets.next();
    is_timed_out(&next, ticket)
}

fn two_time_out(tickets: &mut Tickets) -> bool {
    tickets.time_out(2);
    tickets.time_out(2);
    tickets.time_out(5);
    times_out(tickets, 2) && times_out(tickets, 5)
}

fn is_next_failed(next: &Option<(u64, CallReply)>, ticket: u64) -> bool {
    matches!(next, Some((next, CallReply::FlushFailed)) if *next == ticket)
}

fn is_over(tickets: &mut Tickets) -> bool {
    let next = tickets.next();
    next.is_none()
}

/// A flush that waits at the end has failed, and nothing waits behind it.
fn last_fails(tickets: &mut Tickets) -> bool {
    tickets.drop_waiting();
    let next = tickets.next();
    is_next_failed(&next, 4) && is_over(tickets)
}

fn settle_requests(alloc: Global, tickets: &mut Tickets) -> Result<bool, NoMemory> {
    give_five(tickets)?;
    Ok(
        tells_requests(tickets)
            && drops_the_first(alloc, tickets)?
            && replies_once(alloc, tickets)?
            && two_time_out(tickets)
            && last_fails(tickets),
    )
}

/// Whether requests settle by their subjects.
pub fn requests_settle(alloc: Global) -> Result<bool, NoMemory> {
    let mut tickets = Tickets::new(alloc);
    let settled = settle_requests(alloc, &mut tickets);
    drop(tickets);
    settled
}
