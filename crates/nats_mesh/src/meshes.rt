//! Moves, played one after another.
ghost use Rattle.std.specs.Prelude.{◌≡◌, false, map, IfOk};
ghost use Rattle.nats_broker.specs.Playing.{is_due};
ghost use Rattle.nats_moves.specs.declared.moves.Move.TheVariants as moves;
ghost use Rattle.nats_moves.specs.Mesh.{transcript_of};
ghost use Rattle.nats_mesh.specs.Meshes.{mesh_of, Moved, PlaysMoves, MeshesFrom, Meshes, MeshesHear, rows_of};

use crate::begin::{come_up, open_broker};
use crate::broker::{feed, is_up_at, told_behind};
use crate::client::Client;
use crate::clients::{bring_at, step_at, waiting_at};
use crate::told::{tell_configs, tell_info, tell_moves};
use nats_broker::{Broker, BrokerInfo, RouteError};
use nats_core::Turn;
use nats_history::{Config, Transcript};
use nats_moves::Move;
use nats_names::NoMemory;
use nats_own_laws::laws::mesh_hears;
use std::alloc::Global;

/// So many of the bytes that wait for a client's link, or all, are taken and fed to the broker: whether they may be.
fn carry(
    alloc: Global,
    clients: &mut [Client],
    broker: &mut Broker,
    i: u64,
    n: u64,
) -> Result<bool, NoMemory>
    requires { is_due broker.old ≡ false }
    ensures { Moved (moves.Carry i n) (mesh_of clients.old broker.old) result (mesh_of clients.new broker.new) }
{
    if !is_up_at(broker, i) {
        return Ok(false);
    }
    let bytes = waiting_at(clients, alloc, i, n)?;
    let stepped = step_at(clients, alloc, i, Turn::Write(n))?;
    if !stepped {
        return Ok(false);
    }
    feed(alloc, broker, i, bytes.as_slice())?;
    Ok(true)
}

/// So many of the bytes that wait for a client at the broker, or all, are brought to it: whether they may be.
fn bring(
    alloc: Global,
    clients: &mut [Client],
    broker: &Broker,
    i: u64,
    n: u64,
) -> Result<bool, NoMemory>
    requires { is_due broker.now ≡ false }
    ensures { Moved (moves.Bring i n) (mesh_of clients.old broker.now) result (mesh_of clients.new broker.now) }
{
    if !is_up_at(broker, i) {
        return Ok(false);
    }
    let text = told_behind(broker, i);
    bring_at(clients, alloc, i, text, n)
}

/// One move: whether it may come.
fn one_move(
    alloc: Global,
    clients: &mut [Client],
    broker: &mut Broker,
    step: &Move,
) -> Result<bool, NoMemory>
    requires { is_due broker.old ≡ false }
    ensures { Moved step.now (mesh_of clients.old broker.old) result (mesh_of clients.new broker.new) }
{
    match step {
        Move::Do(i, call) => {
            let call = call.copy(alloc)?;
            step_at(clients, alloc, *i, Turn::Do(call))
        }
        Move::Take(i, sid) => step_at(clients, alloc, *i, Turn::Take(*sid)),
        Move::Carry(i, n) => carry(alloc, clients, broker, *i, *n),
        Move::Bring(i, n) => bring(alloc, clients, broker, *i, *n),
    }
}

/// All moves, one after another.
fn play_all(
    alloc: Global,
    clients: &mut [Client],
    broker: &mut Broker,
    moves: &[Move],
) -> Result<(), RouteError>
    requires { is_due broker.old ≡ false }
    ensures { PlaysMoves moves.now (mesh_of clients.old broker.old) result (mesh_of clients.new broker.new) }
{
    let mut place = 0;
    'moves: while place < moves.len() {
        let step = &moves[place];
        place += 1;
        let made = one_move(alloc, clients, broker, step)?;
        if !made {
            return Err(RouteError::OutOfTurn {
                place: place as u64,
            });
        }
    }
    Ok(())
}

/// What each client came to.
fn transcripts(alloc: Global, clients: &[Client]) -> Result<Vec<Transcript>, NoMemory>
    ensures { IfOk result (λ rows. rows.items ≡ map transcript_of clients.now) }
{
    let mut rows = Vec::new(alloc);
    let mut k = 0;
    'clients: while k < clients.len() {
        let client = &clients[k];
        k += 1;
        rows.push(client.transcript(alloc)?)?;
    }
    Ok(rows)
}

/// The moves are made: what each client came to.
fn play_on(
    alloc: Global,
    clients: &mut [Client],
    broker: &mut Broker,
    moves: &[Move],
) -> Result<Vec<Transcript>, RouteError>
    requires { is_due broker.old ≡ false }
    ensures { MeshesFrom (mesh_of clients.old broker.old) moves.now (rows_of result) }
{
    match play_all(alloc, clients, broker, moves) {
        Ok(()) => Ok(transcripts(alloc, clients)?),
        Err(refused) => Err(refused),
    }
}

/// Clients come up at a new broker, and the moves are made.
fn play_mesh(
    alloc: Global,
    configs: &[Config],
    info: BrokerInfo,
    moves: &[Move],
) -> Result<Vec<Transcript>, RouteError>
    ensures { Meshes configs.now info moves.now (rows_of result) }
{
    let mut clients = come_up(alloc, configs, &info)?;
    let mut broker = open_broker(alloc, configs, info)?;
    play_on(alloc, clients.as_mut_slice(), &mut broker, moves)
}

/// Plays clients and a broker in one process, without a network: for tests of what clients do with one another, in any
/// order of calls and of bytes.
///
/// There is a client for each of the settings, numbered from 1 in their order, and a new broker of this description.
/// Each client joins and comes up with what it reads in the broker's first line. Then the moves come, one after
/// another, and the broker does after each all that is due. A `Do` is a call of a client, a `Take` takes the oldest
/// message of its subscription. `Carry` and `Bring` move so many bytes, or all where fewer wait: from the client's link
/// to the broker, and from the broker to the client, behind the first line.
///
/// It answers each client's transcript, in their order. Each is exactly that of the client's turns: that it came up,
/// and then those that its moves name. Where a client tests subjects, what a subscription of it was put and dropped, by
/// place and puts first where places are equal, is the beginning of the messages of its number that are read in what
/// the broker told the client.
///
/// All is kept until the end: the turns of each client, with their replies, and all that the broker told it. A `Carry`
/// plays the client's turns anew, as the transcripts do in the end. Own call.
///
/// # Errors
///
/// `OutOfTurn` exactly where a move may not come, with the place of the first such move, from 1: its client is none,
/// its turn may not come, or, of `Carry` and `Bring`, the client's peer ended. `NoMemory` for want of memory, whatever
/// moves came before.
pub fn mesh(
    alloc: Global,
    configs: &[Config],
    info: BrokerInfo,
    moves: &[Move],
) -> Result<Vec<Transcript>, RouteError>
    ensures meshes { Meshes configs.now info moves.now (rows_of result) }
    ensures hears { MeshesHear configs.now info moves.now (rows_of result) }
{
    mesh_hears();
    tell_info(&info);
    tell_configs(configs);
    tell_moves(moves);
    play_mesh(alloc, configs, info, moves)
}
