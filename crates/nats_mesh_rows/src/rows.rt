//! What each row prints.

use crate::scripts;
use anyhow::{Result, anyhow};
use nats_mesh::{BrokerInfo, Config, Move, RouteError, Token, Transcript, mesh};
use nats_print::print_transcript;
use std::alloc::Global;

fn token(text: &str) -> Result<Token> {
    match Token::new(text) {
        Some(token) => Ok(token),
        None => Err(anyhow!("no token")),
    }
}

/// Settings by which so many messages of a subscription may wait, and subjects are tested or not.
fn config(alloc: Global, most: u64, skip: bool) -> Result<Config> {
    let mut config = Config::new(alloc)?;
    config.subscription_capacity = most;
    config.skip_subject_validation = skip;
    Ok(config)
}

/// Two clients with the same settings.
fn two(alloc: Global, most: u64, skip: bool) -> Result<Vec<Config>> {
    let mut configs = Vec::new(alloc);
    configs.push(config(alloc, most, skip)?)?;
    configs.push(config(alloc, most, skip)?)?;
    Ok(configs)
}

fn add_all(text: &mut Vec<u8>, alloc: Global, rows: &[Transcript]) -> Result<()> {
    for row in rows {
        text.extend_from_slice(b"client\n")?;
        text.extend_from_slice(print_transcript(alloc, row)?.as_slice())?;
    }
    Ok(())
}

/// The transcripts of two clients, or the place of the first move that may not come.
fn add(
    text: &mut Vec<u8>,
    alloc: Global,
    name: &str,
    configs: &[Config],
    moves: &[Move],
) -> Result<()> {
    let info = BrokerInfo {
        server_id: token("LOOPBACK")?,
        max_payload: 100,
    };
    text.extend_from_slice(name.as_bytes())?;
    text.extend_from_slice(b"\n")?;
    match mesh(alloc, configs, info, moves) {
        Ok(rows) => add_all(text, alloc, rows.as_slice()),
        Err(RouteError::OutOfTurn { place }) => {
            let line = format!(in alloc; "move {place} out of turn\n")?;
            text.extend_from_slice(line.as_bytes())?;
            Ok(())
        }
        Err(RouteError::NoMemory) => Err(anyhow!("out of memory")),
    }
}

/// All rows, one behind another.
pub(crate) fn printed(alloc: Global) -> Result<Vec<u8>> {
    let mut text = Vec::new(alloc);
    let usual = two(alloc, 2, false)?;
    let usual = usual.as_slice();
    let untested = two(alloc, 2, true)?;
    let moves = scripts::exchange(alloc)?;
    add(&mut text, alloc, "exchange", usual, moves.as_slice())?;
    let moves = scripts::pieces(alloc)?;
    add(&mut text, alloc, "pieces", usual, moves.as_slice())?;
    let moves = scripts::asks(alloc, token("T1")?)?;
    add(&mut text, alloc, "asks", usual, moves.as_slice())?;
    let moves = scripts::ends(alloc)?;
    add(
        &mut text,
        alloc,
        "ends",
        untested.as_slice(),
        moves.as_slice(),
    )?;
    let moves = scripts::nobody(alloc)?;
    add(&mut text, alloc, "nobody", usual, moves.as_slice())?;
    let moves = scripts::unnamed(alloc)?;
    add(&mut text, alloc, "unnamed", usual, moves.as_slice())?;
    let moves = scripts::unheard(alloc, token("T1")?)?;
    add(
        &mut text,
        alloc,
        "no responders",
        untested.as_slice(),
        moves.as_slice(),
    )?;
    Ok(text)
}
