//! A list of turns, played.
ghost use Rattle.std.specs.Prelude.{◌≡◌, ◌++◌, ◌∷◌, [], drop, length, IfOk, OnOk, IsTrue};
ghost use Rattle.std.specs.Result.{result_map_both};
ghost use Rattle.nats_broker.specs.Playing.{is_valid_turn, own, after_turn};
ghost use Rattle.nats_broker.specs.Routes.{text_of, row_of, rows_of, Plays, Routes};

use crate::broker::Broker;
use crate::info::BrokerInfo;
use crate::peer::PeerWord;
use crate::turn::{BrokerTurn, RouteError};
use nats_names::{NoMemory, Seq};
use std::alloc::Global;

/// What became of a peer. Own type.
#[derive(Debug, Drop, PartialEq, Eq)]
pub struct PeerRow {
    /// How it stands.
    pub word: PeerWord,
    /// What it was told behind the broker's `INFO`.
    pub text: Seq<u8>,
}

fn own(broker: &mut Broker, alloc: Global, turn: &BrokerTurn) -> Result<(), NoMemory>
    requires { IsTrue (is_valid_turn turn.now broker.old) }
    ensures { OnOk result (broker.new ≡ own turn.now broker.old) }
{
    match turn {
        BrokerTurn::Join => {
            broker.join(alloc)?;
            Ok(())
        }
        BrokerTurn::Feed(p, bytes) => broker.feed(alloc, *p, bytes.as_slice()),
        BrokerTurn::Leave(p) => {
            broker.leave(*p);
            Ok(())
        }
    }
}

fn play(broker: &mut Broker, alloc: Global, turn: &BrokerTurn) -> Result<(), NoMemory>
    requires { IsTrue (is_valid_turn turn.now broker.old) }
    ensures { OnOk result (broker.new ≡ after_turn turn.now broker.old) }
{
    own(broker, alloc, turn)?;
    broker.settle(alloc)
}

fn behind(text: &[u8], n: usize) -> &[u8]
    ensures { result.now ≡ drop n text.now }
{
    if n < text.len() { &text[n..] } else { &[] }
}

fn copy_of(alloc: Global, text: &[u8]) -> Result<Seq<u8>, NoMemory>
    ensures { IfOk result (λ copy. copy ≡ text.now) }
{
    let mut copy = Vec::new(alloc);
    copy.extend_from_slice(text)?;
    Ok(Seq::from_vec(copy))
}

fn row(alloc: Global, broker: &Broker, p: u64, word: PeerWord) -> Result<PeerRow, NoMemory>
    ensures { IfOk result (λ row. row ≡ record {
      word = word;
      text = drop (length broker.now.info) (text_of p broker.now);
    }) }
{
    Ok(PeerRow {
        word,
        text: copy_of(alloc, behind(broker.waiting(p), broker.info_len()))?,
    })
}

fn all_rows(alloc: Global, broker: &Broker) -> Result<Vec<PeerRow>, NoMemory>
    ensures { IfOk result (λ rows. rows.items ≡ rows_of broker.now) }
{
    let mut rows = Vec::new(alloc);
    let mut k = 0;
    'peers: while k < broker.peers().len() {
        let word = broker.peers()[k].word;
        k += 1;
        rows.push(row(alloc, broker, k as u64, word)?)?;
    }
    Ok(rows)
}

fn play_all(alloc: Global, broker: &mut Broker, turns: &[BrokerTurn]) -> Result<(), RouteError>
    ensures { Plays turns.now broker.old result broker.new }
{
    let mut place = 0;
    'turns: while place < turns.len() {
        let turn = &turns[place];
        place += 1;
        if !broker.check(turn) {
            return Err(RouteError::OutOfTurn {
                place: place as u64,
            });
        }
        play(broker, alloc, turn)?;
    }
    Ok(())
}

/// Plays turns on a new broker, doing after each all that is due, and answers how each peer stands and what it was
/// told, in the order of their numbers. Own call.
///
/// # Errors
///
/// `OutOfTurn` exactly where a turn may not come, with the place of the first such turn; `NoMemory` for want of
/// memory.
pub fn route(
    alloc: Global,
    info: BrokerInfo,
    turns: &[BrokerTurn],
) -> Result<Vec<PeerRow>, RouteError>
    ensures { Routes info turns.now (result_map_both (λ rows. rows.items) (λ error. error) result) }
{
    let mut broker = Broker::new(alloc, info)?;
    match play_all(alloc, &mut broker, turns) {
        Ok(()) => Ok(all_rows(alloc, &broker)?),
        Err(refused) => Err(refused),
    }
}
