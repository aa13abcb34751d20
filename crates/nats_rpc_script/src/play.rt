//! Playing a script.
ghost use Rattle.std.specs.Prelude.{◌≡◌, ◌≤◌, IfOk};
ghost use Rattle.nats_core.specs.Journal.{turns_of};
ghost use Rattle.nats_rpc_script.specs.declared.play.Came.TheVariants as came;
ghost use Rattle.nats_rpc_script.specs.declared.play.Ending.TheVariants as endings;
ghost use Rattle.nats_rpc_script.specs.Played.{Begins, TurnComes, AskComes, PollComes, AskTurn, PollTurn, LineComes, Come, Ends, ComesTo, Transcribes, PlaysAll, PlaysRpc, out_of_turn_text, unreadable_text};

use crate::lines::{Kind, read_lines};
use crate::print::{out_of_turn_text, push_asked, push_poll, unreadable_text};
use nats_core::{Bytes, Call, Config, Core, Entry, NoMemory, StepError, Subject, Token, Turn};
use nats_rpc::{AskError, Caller};
use nats_script::{Script, print_transcript, read_script};
use nats_session::{RunError, run};
use std::alloc::Global;
use std::mem;

/// The name of a script's caller.
const NAME: &str = "R";

/// How the bytes of a script end.
#[derive(Clone, Copy, Debug, PartialEq, Eq)]
pub enum Ending {
    /// They are played, and have a transcript.
    Transcript,
    /// A line cannot be read.
    Unreadable,
    /// A line may not come where it stands.
    OutOfTurn,
}

/// What is printed of a script.
#[derive(Drop)]
pub struct Played {
    pub ending: Ending,
    pub text: Vec<u8>,
}

/// What a line comes to.
#[derive(Clone, Copy, Debug, PartialEq, Eq)]
enum Came {
    Played,
    Unreadable,
    OutOfTurn,
}

/// A caller, its core, and what was printed.
#[derive(Drop)]
struct Player {
    caller: Caller,
    core: Core,
    out: Vec<u8>,
}

impl Player {
    fn new(alloc: Global, config: Config, tries: u64, patience: u64) -> Result<Player, NoMemory>
        requires { 1 ≤ tries }
        ensures { IfOk result (λ player. Begins config tries patience player) }
    {
        let Some(name) = Token::new(NAME) else {
            unreachable!()
        };
        let core = Core::new(alloc, config, true)?;
        Ok(Player {
            caller: Caller::new(alloc, name, tries, patience),
            core,
            out: Vec::new(alloc),
        })
    }

    fn ask(
        &mut self,
        alloc: Global,
        subject: &Subject,
        payload: &Bytes,
        place: u64,
    ) -> Result<Came, NoMemory>
        ensures { IfOk result (λ came'. AskComes subject.now payload.now place self.old came' self.new) }
    {
        let subject = subject.copy(alloc)?;
        let payload = payload.clone()?;
        match self.caller.ask(alloc, subject, payload) {
            Ok(number) => {
                push_asked(&mut self.out, place, number)?;
                Ok(Came::Played)
            }
            Err(AskError::NoCall) => Ok(Came::OutOfTurn),
            Err(AskError::NoMemory) => Err(NoMemory),
        }
    }

    fn poll(&mut self, alloc: Global, call: u64, now: u64, place: u64) -> Result<Came, NoMemory>
        ensures { IfOk result (λ came'. PollComes call now place self.old came' self.new) }
    {
        if call == 0 || call > self.caller.calls() {
            return Ok(Came::OutOfTurn);
        }
        let outcome = self.caller.poll(alloc, &mut self.core, call, now)?;
        push_poll(alloc, &mut self.out, place, outcome)?;
        Ok(Came::Played)
    }

    fn step(&mut self, alloc: Global, turn: &Turn) -> Result<Came, NoMemory>
        ensures { IfOk result (λ came'. TurnComes turn.now self.old came' self.new) }
    {
        let turn = turn.copy(alloc)?;
        match self.core.step(alloc, turn) {
            Ok(_) => Ok(Came::Played),
            Err(StepError::OutOfTurn | StepError::LinkGone { .. }) => Ok(Came::OutOfTurn),
            Err(StepError::NoMemory) => Err(NoMemory),
        }
    }

    fn play_ask(&mut self, alloc: Global, turn: &Turn, place: u64) -> Result<Came, NoMemory>
        ensures { IfOk result (λ came'. AskTurn turn.now place self.old came' self.new) }
    {
        match turn {
            Turn::Do(Call::Publish(message)) => {
                self.ask(alloc, &message.subject, &message.payload, place)
            }
            _ => Ok(Came::Unreadable),
        }
    }

    fn play_poll(&mut self, alloc: Global, turn: &Turn, place: u64) -> Result<Came, NoMemory>
        ensures { IfOk result (λ came'. PollTurn turn.now place self.old came' self.new) }
    {
        match turn {
            Turn::Do(Call::Limit(call, now)) => self.poll(alloc, *call, *now, place),
            _ => Ok(Came::Unreadable),
        }
    }

    /// Plays the line at a place.
    fn play(&mut self, alloc: Global, kind: Kind, turn: &Turn, place: u64) -> Result<Came, NoMemory>
        ensures { IfOk result (λ came'. LineComes kind turn.now place self.old came' self.new) }
    {
        match kind {
            Kind::Turn => self.step(alloc, turn),
            Kind::Ask => self.play_ask(alloc, turn, place),
            Kind::Poll => self.play_poll(alloc, turn, place),
        }
    }

    /// Plays the lines, up to the first that is not played: how that came, and its place.
    fn play_lines(
        &mut self,
        alloc: Global,
        turns: &[Turn],
        kinds: &[Kind],
    ) -> Result<(Came, u64), NoMemory>
        ensures { IfOk result (λ ended. Come 1 turns.now kinds.now self.old ended.0 ended.1 self.new) }
    {
        let mut place = 1u64;
        let mut turns_left = turns;
        let mut kinds_left = kinds;
        'lines: while let Some((turn, turns_more)) = turns_left.split_first() {
            let Some((kind, kinds_more)) = kinds_left.split_first() else {
                return Ok((Came::Played, place));
            };
            match self.play(alloc, *kind, turn, place)? {
                Came::Played => {
                    turns_left = turns_more;
                    kinds_left = kinds_more;
                    place += 1;
                }
                Came::Unreadable => return Ok((Came::Unreadable, place)),
                Came::OutOfTurn => return Ok((Came::OutOfTurn, place)),
            }
        }
        Ok((Came::Played, place))
    }
}

fn unreadable(alloc: Global, line: u64) -> Result<Played, NoMemory>
    ensures ending { IfOk result (λ played. played.ending ≡ endings.Unreadable) }
    ensures text { IfOk result (λ played. played.text.items ≡ unreadable_text line) }
{
    Ok(Played {
        ending: Ending::Unreadable,
        text: unreadable_text(alloc, line)?,
    })
}

fn out_of_turn(alloc: Global, place: u64) -> Result<Played, NoMemory>
    ensures ending { IfOk result (λ played. played.ending ≡ endings.OutOfTurn) }
    ensures text { IfOk result (λ played. played.text.items ≡ out_of_turn_text place) }
{
    Ok(Played {
        ending: Ending::OutOfTurn,
        text: out_of_turn_text(alloc, place)?,
    })
}

fn turns_of(alloc: Global, journal: &[Entry]) -> Result<Vec<Turn>, NoMemory>
    ensures { IfOk result (λ turns. turns.items ≡ turns_of journal.now) }
{
    let mut turns = Vec::new(alloc);
    for entry in journal {
        turns.push(entry.turn.copy(alloc)?)?;
    }
    Ok(turns)
}

/// The transcript of the turns that a core noted, as it is printed.
fn transcript_lines(alloc: Global, core: &Core) -> Result<Vec<u8>, NoMemory>
    ensures { IfOk result (λ lines. Transcribes core.now lines.items) }
{
    let turns = turns_of(alloc, core.journal())?;
    let config = core.handler().config().copy(alloc)?;
    match run(alloc, config, turns.as_slice()) {
        Ok(transcript) => print_transcript(alloc, &transcript),
        Err(RunError::OutOfTurn { .. }) => unreachable!(),
        Err(RunError::NoMemory) => Err(NoMemory),
    }
}

impl Player {
    /// What was printed, and behind it the transcript of the core's journal.
    fn finish(&mut self, alloc: Global) -> Result<Played, NoMemory>
        ensures { IfOk result (λ played. Ends came.Played 0 self.old played) }
    {
        let lines = transcript_lines(alloc, &self.core)?;
        self.out.extend_from_slice(lines.as_slice())?;
        Ok(Played {
            ending: Ending::Transcript,
            text: mem::replace(&mut self.out, Vec::new(alloc)),
        })
    }

    /// What is printed at the end, by how the lines came.
    fn end(&mut self, alloc: Global, came: Came, place: u64) -> Result<Played, NoMemory>
        ensures { IfOk result (λ played. Ends came place self.old played) }
    {
        match came {
            Came::Played => self.finish(alloc),
            Came::Unreadable => unreadable(alloc, place.saturating_add(1)),
            Came::OutOfTurn => out_of_turn(alloc, place),
        }
    }

    /// Plays the lines, and then what they come to is printed.
    fn play_all(
        &mut self,
        alloc: Global,
        turns: &[Turn],
        kinds: &[Kind],
    ) -> Result<Played, NoMemory>
        ensures { IfOk result (λ played. ComesTo turns.now kinds.now self.old played) }
    {
        let (came, place) = self.play_lines(alloc, turns, kinds)?;
        self.end(alloc, came, place)
    }
}

fn play_turns(
    alloc: Global,
    config: Config,
    turns: &[Turn],
    kinds: &[Kind],
    terms: (u64, u64),
) -> Result<Played, NoMemory>
    requires { 1 ≤ terms.0 }
    ensures { IfOk result (λ played. PlaysAll config turns.now kinds.now terms.0 terms.1 played) }
{
    let (tries, patience) = terms;
    let mut player = Player::new(alloc, config, tries, patience)?;
    player.play_all(alloc, turns, kinds)
}

/// What a script comes to, whose caller makes so many requests for each call at most, and waits so many milliseconds
/// for the reply to each: `asked PLACE NUMBER` and `poll PLACE OUTCOME` for its calls and polls, and behind them the
/// transcript of the turns that the core played. Where a line cannot be read, `script line K` says which is the first;
/// where a line may not come where it stands, `turn K out of turn` does, and the settings are not counted there: a poll
/// of a call that was not given is one. The condition is that there is one try at least.
///
/// # Errors
///
/// `NoMemory` for want of memory.
pub fn play_rpc(alloc: Global, bytes: &[u8], tries: u64, patience: u64) -> Result<Played, NoMemory>
    requires { 1 ≤ tries }
    ensures { IfOk result (λ played. PlaysRpc bytes.now tries patience played) }
{
    let lines = read_lines(alloc, bytes)?;
    match read_script(alloc, lines.text.as_slice())? {
        Script::Bad(line) => unreadable(alloc, line),
        Script::Good { config, turns } => play_turns(
            alloc,
            config,
            turns.as_slice(),
            lines.kinds.as_slice(),
            (tries, patience),
        ),
    }
}
