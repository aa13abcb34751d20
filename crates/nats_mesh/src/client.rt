//! One client of a broker.
ghost use Rattle.std.specs.Prelude.{◌≡◌, IfOk, take, drop};
ghost use Rattle.nats_history.specs.declared.turn.Turn.TheVariants as turns;
ghost use Rattle.nats_moves.specs.Mesh.{Member, transcript_of};
ghost use Rattle.nats_mesh.specs.Clients.{came_up, Stepped, Brought, left_of};

use crate::cores::{first_of, play, transcript_of, waiting_of};
use nats_core::{Core, ServerInfo, Turn};
use nats_history::{Config, Transcript};
use nats_names::{Bytes, NoMemory};
use std::alloc::Global;
use std::marker::Model;

/// A client: its core, whose journal is kept, and how many bytes it was brought of what the broker told it behind its
/// first line.
#[derive(Drop)]
pub(crate) struct Client {
    core: Core,
    brought: usize,
}

impl Model for Client {
    ghost use Rattle.std.specs.Prelude.{◌≡◌, true};
    ghost use Rattle.nats_moves.specs.Mesh.{Member};
    ghost use Rattle.nats_mesh.specs.Clients.{member_of};

    ghost Value = { Member };

    ghost view = { λ c. member_of c.core c.brought };

    ghost invariant = { λ c. c.core.is_kept ≡ true };
}

/// So many of the bytes that a client was not brought yet, or all.
fn piece_of(alloc: Global, text: &[u8], brought: usize, n: u64) -> Result<Bytes, NoMemory>
    ensures { IfOk result (λ piece. piece ≡ take n (drop brought text.now)) }
{
    if brought < text.len() {
        first_of(alloc, &text[brought..], n)
    } else {
        Ok(Bytes::new())
    }
}

impl Client {
    /// A client that comes up with what it reads in the broker's first line.
    pub(crate) fn new(alloc: Global, config: &Config, told: &ServerInfo) -> Result<Client, NoMemory>
        ensures { IfOk result (λ c. c ≡ came_up config.now told.now) }
    {
        let mut core = Core::new(alloc, config.copy(alloc)?, true)?;
        let told = told.copy(alloc)?;
        let came = play(alloc, &mut core, Turn::Up(told))?;
        if !came {
            unreachable!();
        }
        Ok(Client { core, brought: 0 })
    }

    /// The client plays a turn: whether it may come.
    pub(crate) fn step(&mut self, alloc: Global, turn: Turn) -> Result<bool, NoMemory>
        ensures { Stepped self.old turn result self.new }
    {
        play(alloc, &mut self.core, turn)
    }

    /// So many of the bytes that it was not brought yet are brought to it, or all: whether they may come.
    pub(crate) fn bring(&mut self, alloc: Global, text: &[u8], n: u64) -> Result<bool, NoMemory>
        ensures { Brought text.now n self.old result self.new }
    {
        let piece = piece_of(alloc, text, self.brought, n)?;
        let count = piece.len();
        let played = play(alloc, &mut self.core, Turn::Piece(piece))?;
        if !played {
            return Ok(false);
        }
        self.brought += count;
        Ok(true)
    }

    /// So many of the bytes that wait for its link, or all.
    pub(crate) fn waiting(&self, alloc: Global, n: u64) -> Result<Bytes, NoMemory>
        ensures { IfOk result (λ bytes. bytes ≡ take n (left_of self.now)) }
    {
        waiting_of(alloc, &self.core, n)
    }

    /// What it came to.
    pub(crate) fn transcript(&self, alloc: Global) -> Result<Transcript, NoMemory>
        ensures { IfOk result (λ t. t ≡ transcript_of self.now) }
    {
        transcript_of(alloc, &self.core)
    }
}
