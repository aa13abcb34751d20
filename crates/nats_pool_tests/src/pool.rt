//! A pool of servers by its calls: its addresses with commas between them, its options, and the calls, each
//! answered by a word.
use nats_pool::{
    Choice, ChoiceBox, ConnectOptions, DelayBox, Next, Outcome, Pool, ReconnectToServer, Server,
    ServerAddr, ServerInfo, Text, addrs_of_texts,
};
use nats_rows::{Bad, push_bytes};
use std::alloc::Global;

fn push_number(alloc: Global, number: u64, out: &mut String) -> Result<(), Bad> {
    Ok(out.push_str(format!(in alloc; "{number}")?.as_str())?)
}

// ---- options

fn last_of(mut servers: Vec<Server>) -> Option<ReconnectToServer> {
    let server = servers.pop()?;
    Some(ReconnectToServer {
        addr: server.addr,
        delay: None,
    })
}

fn last_one(servers: Vec<Server>, info: ServerInfo) -> Option<ReconnectToServer> {
    drop(info);
    last_of(servers)
}

fn twice(attempts: usize) -> u64 {
    if attempts < 100 {
        2 * attempts as u64
    } else {
        200
    }
}

fn other_one(alloc: Global) -> Option<ReconnectToServer> {
    Some(ReconnectToServer {
        addr: ServerAddr::parse(alloc, "d").ok()?,
        delay: None,
    })
}

/// Options whose callback names the last server, with twice the attempts as delay.
fn with_last(alloc: Global) -> Result<ConnectOptions, Bad> {
    let choice: ChoiceBox = Box::new(alloc, last_one)?;
    let delay: DelayBox = Box::new(alloc, twice)?;
    Ok(
        ConnectOptions::new()
            .reconnect_to_server_callback(choice)
            .reconnect_delay_callback(delay),
    )
}

/// Options whose callback names the last server, with no delay of its own.
fn with_choice(alloc: Global) -> Result<ConnectOptions, Bad> {
    let choice: ChoiceBox = Box::new(alloc, last_one)?;
    Ok(ConnectOptions::new().reconnect_to_server_callback(choice))
}

/// Options whose callback names a server that is none of the pool's.
fn with_other(alloc: Global) -> Result<ConnectOptions, Bad> {
    let choice: ChoiceBox = Box::new(alloc, move |servers: Vec<Server>, info: ServerInfo| {
        drop(servers);
        drop(info);
        other_one(alloc)
    })?;
    Ok(
        ConnectOptions::new()
            .retain_servers_order()
            .reconnect_to_server_callback(choice),
    )
}

fn options_of(alloc: Global, word: &str) -> Result<ConnectOptions, Bad> {
    match word {
        "~" => Ok(ConnectOptions::new()),
        "default" => Ok(ConnectOptions::default()),
        "order" => Ok(ConnectOptions::new().retain_servers_order()),
        "two" => Ok(ConnectOptions::new().max_reconnects(Some(2))),
        "last" => with_last(alloc),
        "choice" => with_choice(alloc),
        "other" => with_other(alloc),
        _ => Err(Bad::Form),
    }
}

// ---- calls

fn report(alloc: Global, pool: &mut Pool, text: &str) -> Result<(), Bad> {
    let addr = ServerAddr::parse(alloc, text).map_err(|_| Bad::Form)?;
    let why = Text::from_text(alloc, "no")?;
    pool.report(&addr, Outcome::Failed(why));
    Ok(())
}

fn choice_word(choice: Choice) -> &'static str {
    match choice {
        Choice::Default => "default",
        Choice::Callback => "callback",
        Choice::NotInPool => "not-in-pool",
    }
}

/// Begins a round, and appends how its servers were chosen, by the answer and as it is kept.
fn push_begun(alloc: Global, pool: &mut Pool, out: &mut String) -> Result<(), Bad> {
    let info = ServerInfo::default(alloc);
    let begun = pool.begin_round(alloc, &info);
    drop(info);
    let choice = begun.map_err(|_| Bad::NoMemory)?;
    out.push_str(choice_word(choice))?;
    out.push('/')?;
    Ok(out.push_str(choice_word(pool.last_choice()))?)
}

fn push_next(alloc: Global, next: &Next, out: &mut String) -> Result<(), Bad> {
    match next {
        Next::Try(attempt) => {
            push_bytes(out, attempt.addr.host().as_bytes())?;
            out.push('/')?;
            push_number(alloc, attempt.delay, out)
        }
        Next::Over => Ok(out.push_str("over")?),
        Next::MaxReconnects => Ok(out.push_str("most")?),
    }
}

/// What is handed out next, but of a server that it is one.
fn any_word(next: &Next) -> &'static str {
    match next {
        Next::Try(_) => "one",
        Next::Over => "over",
        Next::MaxReconnects => "most",
    }
}

fn push_attempt(alloc: Global, pool: &mut Pool, out: &mut String) -> Result<(), Bad> {
    let next = pool.next_attempt();
    let pushed = push_next(alloc, &next, out);
    drop(next);
    pushed
}

fn push_any(pool: &mut Pool, out: &mut String) -> Result<(), Bad> {
    let next = pool.next_attempt();
    let word = any_word(&next);
    drop(next);
    Ok(out.push_str(word)?)
}

/// Appends each server with its failures.
fn push_servers(alloc: Global, pool: &Pool, out: &mut String) -> Result<(), Bad> {
    for server in pool.server_pool(alloc)?.as_slice() {
        let (host, failed) = (server.addr.host(), server.failed_attempts);
        out.push_str(format!(in alloc; "{host}={failed};")?.as_str())?;
    }
    Ok(())
}

fn addrs_of(alloc: Global, texts: &str) -> Result<Vec<ServerAddr>, Bad> {
    let mut addrs = Vec::new(alloc);
    for text in texts.split(',') {
        if !text.is_empty() {
            addrs.push(ServerAddr::parse(alloc, text).map_err(|_| Bad::Form)?)?;
        }
    }
    Ok(addrs)
}

fn push_set(alloc: Global, pool: &mut Pool, texts: &str, out: &mut String) -> Result<(), Bad> {
    let addrs = addrs_of(alloc, texts)?;
    match pool.set_server_pool(alloc, addrs) {
        Ok(()) => Ok(out.push_str("set")?),
        Err(refusal) => Ok(push_bytes(out, refusal.to_string(alloc)?.as_bytes())?),
    }
}

/// Appends texts, each behind `!`.
fn push_texts(texts: &[Text], out: &mut String) -> Result<(), Bad> {
    for text in texts {
        out.push('!')?;
        out.push_str(text.as_str())?;
    }
    Ok(())
}

/// A server tells of these addresses; appends which of them are skipped.
fn push_told(alloc: Global, pool: &mut Pool, urls: &[Text], out: &mut String) -> Result<(), Bad> {
    out.push_str("told")?;
    let skipped = pool.discover(alloc, urls)?;
    push_texts(skipped.as_slice(), out)
}

/// A server tells of addresses, with commas between.
fn push_discovered(
    alloc: Global,
    pool: &mut Pool,
    texts: &str,
    out: &mut String,
) -> Result<(), Bad> {
    let mut urls = Vec::new(alloc);
    for text in texts.split(',') {
        urls.push(Text::from_text(alloc, text)?)?;
    }
    push_told(alloc, pool, urls.as_slice(), out)
}

fn push_call(alloc: Global, pool: &mut Pool, call: &str, out: &mut String) -> Result<(), Bad> {
    match call.split_once(',') {
        Some(("fails", text)) => {
            report(alloc, pool, text)?;
            Ok(out.push_str("failed")?)
        }
        Some(("set", texts)) => push_set(alloc, pool, texts, out),
        Some(("discover", text)) => push_discovered(alloc, pool, text, out),
        Some(_) => Err(Bad::Form),
        None => match call {
            "begin" => push_begun(alloc, pool, out),
            "next" => push_attempt(alloc, pool, out),
            "discover" => push_told(alloc, pool, &[], out),
            "any" => push_any(pool, out),
            "servers" => push_servers(alloc, pool, out),
            _ => Err(Bad::Form),
        },
    }
}

fn push_calls(alloc: Global, pool: &mut Pool, calls: &str, out: &mut String) -> Result<(), Bad> {
    for call in calls.split(' ') {
        push_call(alloc, pool, call, out)?;
        out.push(' ')?;
    }
    Ok(())
}

fn made(alloc: Global, texts: &str, mut options: ConnectOptions) -> Result<Pool, Bad> {
    let pool_options = options.take_pool_options();
    drop(options);
    let texts: Vec<&str> = texts.split(',').collect(alloc)?;
    let addrs = addrs_of_texts(alloc, texts.as_slice()).map_err(|_| Bad::Form)?;
    Ok(Pool::new(alloc, addrs, pool_options, 7)?)
}

/// Appends what a pool answers to each of the calls.
pub fn push_pool(alloc: Global, rest: &str, out: &mut String) -> Result<(), Bad> {
    let (texts, behind) = rest.split_once(' ').ok_or(Bad::Form)?;
    let (word, calls) = behind.split_once(' ').ok_or(Bad::Form)?;
    let mut pool = made(alloc, texts, options_of(alloc, word)?)?;
    let pushed = push_calls(alloc, &mut pool, calls, out);
    drop(pool);
    pushed
}
