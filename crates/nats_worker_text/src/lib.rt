//! What is common to what is printed of workers that publish at one session: the words of a command line that ask for
//! them, the settings of their session, and how many bytes the link takes of what they wrote. Workers are numbered
//! from 1, and so are links.
#![tactic(auto)]

mod asked;
mod lines;
mod settings;
mod taken;

pub use asked::{Crew, MOST_PUBLISHES, MOST_WORKERS, crew_of};
pub use lines::push_line;
pub use settings::workers_config;
pub use taken::taken_with_writes;
