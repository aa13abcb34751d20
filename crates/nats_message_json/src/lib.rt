//! How the status and the payload of a message stand in JSON: both are numbers, which are read back.
#![tactic(auto)]

mod json;

pub use json::{json_of_bytes, json_of_status, payload_of, status_of};
