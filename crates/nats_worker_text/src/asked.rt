//! The words of a command line that ask for workers.
ghost use Rattle.std.specs.Prelude.{◌≡◌, ◌≤◌, map, option_and_then, IfSome, if◌then◌else◌, None, bytes_eq, codes};
ghost use Rattle.std.specs.String.{string_bytes};
ghost use Rattle.nats_spelling.specs.Spelling.{field_number};
ghost use Rattle.nats_worker_text.specs.declared.asked.Crew.TheVariants as crews;
ghost use Rattle.nats_worker_text.specs.Asked.{IsFit, both, crew_asked, up_to};

use nats_spelling::field_number;

/// How many workers may be asked for. Own choice.
pub const MOST_WORKERS: u64 = 64;

/// How many publishes of each worker may be asked for. Own choice.
pub const MOST_PUBLISHES: u64 = 10_000;

/// Workers that words ask for, by what each holds of their session: how many they are, and how many publishes each
/// makes. Own type.
#[derive(Clone, Copy, Debug, PartialEq, Eq)]
pub enum Crew {
    /// Each has a seat of its own.
    Seats { workers: u64, count: u64 },
    /// Each has a client of its own.
    Threads { workers: u64, count: u64 },
}

/// The number that a word spells, if it is from 1 to `most`.
fn number_up_to(most: u64, word: &str) -> Option<u64>
    ensures exact { result ≡ option_and_then (up_to most) (field_number word.now) }
    ensures fits { IfSome result (λ n. (1 ≤ n) × (n ≤ most)) }
{
    let number = field_number(word.as_bytes())?;
    if 1 <= number && number <= most {
        Some(number)
    } else {
        None
    }
}

fn seats_by(workers_word: &str, count_word: &str) -> Option<Crew>
    ensures exact { result ≡ both crews.Seats (option_and_then (up_to MOST_WORKERS) (field_number workers_word.now))
        (option_and_then (up_to MOST_PUBLISHES) (field_number count_word.now)) }
    ensures fits { IfSome result IsFit }
{
    let workers = number_up_to(MOST_WORKERS, workers_word)?;
    let count = number_up_to(MOST_PUBLISHES, count_word)?;
    Some(Crew::Seats { workers, count })
}

fn threads_by(workers_word: &str, count_word: &str) -> Option<Crew>
    ensures exact { result ≡ both crews.Threads (option_and_then (up_to MOST_WORKERS) (field_number workers_word.now))
        (option_and_then (up_to MOST_PUBLISHES) (field_number count_word.now)) }
    ensures fits { IfSome result IsFit }
{
    let workers = number_up_to(MOST_WORKERS, workers_word)?;
    let count = number_up_to(MOST_PUBLISHES, count_word)?;
    Some(Crew::Threads { workers, count })
}

fn asked_by(word: &str, workers_word: &str, count_word: &str) -> Option<Crew>
    ensures exact { result ≡ (if bytes_eq word.now (codes "seats")
        then both crews.Seats (option_and_then (up_to MOST_WORKERS) (field_number workers_word.now))
        (option_and_then (up_to MOST_PUBLISHES) (field_number count_word.now))
        else (if bytes_eq word.now (codes "threads")
        then both crews.Threads (option_and_then (up_to MOST_WORKERS) (field_number workers_word.now))
        (option_and_then (up_to MOST_PUBLISHES) (field_number count_word.now)) else None)) }
    ensures fits { IfSome result IsFit }
{
    if word == "seats" {
        seats_by(workers_word, count_word)
    } else if word == "threads" {
        threads_by(workers_word, count_word)
    } else {
        None
    }
}

/// Which workers the words ask for, where they are `seats N K` or `threads N K`, both numbers in decimal with no
/// leading zero: N workers, from 1 to `MOST_WORKERS`, and K publishes of each, from 1 to `MOST_PUBLISHES`. Own choice.
pub fn crew_of(words: &[String]) -> Option<Crew>
    ensures exact { result ≡ crew_asked (map string_bytes words.now) }
    ensures fits { IfSome result IsFit }
{
    match words {
        [word, workers, count] => asked_by(word.as_str(), workers.as_str(), count.as_str()),
        _ => None,
    }
}
