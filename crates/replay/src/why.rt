//! The line on standard error that says why a run did not end with what was asked for.
use nats_explain::{NoMemory, trouble};
use nats_replay::{NO_MEMORY, WRITE_FAULT};
use nats_system::{NetDialer, NetResolver};
use std::alloc::Global;

/// What was asked for is printed.
const DONE: u8 = 0;
/// The words are no command.
const UNKNOWN: u8 = 2;
/// Standard input failed.
const READ_FAULT: u8 = 3;
/// A line of the script cannot be read.
const UNREADABLE: u8 = 5;
/// A turn of the script may not come where it stands.
const OUT_OF_TURN: u8 = 6;
/// The script is too long.
const TOO_LONG: u8 = 8;

/// What the words should have been.
const USAGE: &str = "\
the commands are `run`, `route`, `rpc TRIES PATIENCE`, `bulk N`, `seats N K`, `threads N K`, \
`pub ADDR SUBJECT PAYLOAD` and `sub ADDR SUBJECT N`; see `replay --help`";

/// What is known of a run that ended: its status and words, the bytes of the script where they were kept, and whom
/// it asked of the system.
#[derive(Drop)]
pub struct Run<'a, R> {
    pub status: u8,
    pub words: &'a [String],
    pub script: Option<&'a [u8]>,
    pub dialer: &'a NetDialer<R>,
    pub resolver: &'a NetResolver<R>,
}

/// The words with a space between each two.
fn joined(alloc: Global, words: &[String]) -> Result<String, NoMemory> {
    let mut text = String::new(alloc);
    for word in words {
        if !text.is_empty() {
            text.push(' ')?;
        }
        text.push_str(word.as_str())?;
    }
    Ok(text)
}

/// Which words are no command.
fn of_words(alloc: Global, words: &[String]) -> Result<String, NoMemory> {
    let text = joined(alloc, words)?;
    if text.is_empty() {
        return Ok(format!(in alloc; "no command; {USAGE}")?);
    }
    let text = text.as_str();
    Ok(format!(in alloc; "`{text}` is no command; {USAGE}")?)
}

fn are_run(words: &[String]) -> bool {
    match words {
        [word] => word.as_str() == "run",
        _ => false,
    }
}

/// Why a script is not played. Of scripts of turns the rule is told that a line breaks.
fn of_script(alloc: Global, words: &[String], script: Option<&[u8]>) -> Result<String, NoMemory> {
    let why = match script {
        Some(script) if are_run(words) => trouble(alloc, script)?,
        Some(_) | None => None,
    };
    match why {
        Some(text) => Ok(text),
        None => Ok(String::from_str(
            alloc,
            "the script cannot be played: standard output says which line is the first that is not as it should be",
        )?),
    }
}

impl<R> Run<'_, R> {
    /// What the system said of a link that was wanted.
    fn of_link(&self, alloc: Global) -> Result<String, NoMemory> {
        if let Some((host, error)) = self.resolver.last_fault() {
            let host = host.as_str();
            return Ok(format!(in alloc; "the host {host} is not found: {error}")?);
        }
        if let Some((addr, error)) = self.dialer.last_fault() {
            return Ok(format!(in alloc; "no link to {addr}: {error}")?);
        }
        let addr = match self.words.get(1) {
            Some(word) => word.as_str(),
            None => "",
        };
        Ok(format!(in alloc;
            "no link to {addr}, or it refused or ended first: standard output says which"
        )?)
    }

    /// The line, without its end; none where what was asked for is printed.
    fn line(&self, alloc: Global) -> Result<Option<String>, NoMemory> {
        let text = match self.status {
            DONE => return Ok(None),
            UNKNOWN => of_words(alloc, self.words)?,
            READ_FAULT => String::from_str(alloc, "standard input could not be read")?,
            WRITE_FAULT => String::from_str(alloc, "standard output could not be written")?,
            UNREADABLE | OUT_OF_TURN => of_script(alloc, self.words, self.script)?,
            NO_MEMORY => String::from_str(alloc, "out of memory")?,
            TOO_LONG => String::from_str(alloc, "the script is longer than 16,777,216 bytes")?,
            _ => self.of_link(alloc)?,
        };
        Ok(Some(text))
    }

    /// Prints the line on standard error. Where that fails, or memory is wanting, nothing more can be said.
    pub fn tell<P: Eprint>(&self, rt: &P, alloc: Global) {
        let told = match self.line(alloc) {
            Ok(Some(text)) => {
                let text = text.as_str();
                eprintln!(rt; "replay: {text}")
            }
            Ok(None) => Ok(()),
            Err(NoMemory) => eprintln!(rt; "replay: out of memory"),
        };
        drop(told);
    }
}
