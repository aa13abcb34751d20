//! Numbered seats at one session: holders on many threads play turns by turns, and each can prove what it played. The
//! entries under a seat's number in the common journal are exactly the turns that were played with that seat, each
//! once, in its order, with the replies that it got. Seats are numbered from 1, and so are places in the journal.
#![tactic(auto)]

mod calls;
mod receipt;
mod seat;

pub use nats_core::{
    Bytes, Call, CallReply, Config, Message, NoMemory, OutboundMessage, ServerInfo, StepReply,
    Subject, TakeReply, Token, Turn, usual_server,
};
pub use nats_desk::{PlayError, SeatEntry, SplitError};
pub use receipt::Receipt;
pub use seat::Seated;
