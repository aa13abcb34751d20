//! The settings of a session.
ghost use Rattle.std.specs.Prelude.{◌≡◌, IfOk};
ghost use Rattle.nats_history.specs.Settings.{default_config};

use nats_wire::{NoMemory, Subject, Token};
use std::alloc::Global;

/// How many accepted calls may wait by default. The crate's.
const CLIENT_CAPACITY: u64 = 2048;

/// How many messages of one subscription may wait by default. The crate's.
const SUBSCRIPTION_CAPACITY: u64 = 65_536;

const INBOX_PREFIX: &str = "_INBOX";

const MUX_ID: &str = "MUX1";

/// The settings of a session, which stay as they are.
#[derive(Debug, Drop, PartialEq, Eq)]
pub struct Config {
    /// How many accepted calls may wait to be handled.
    pub client_capacity: u64,
    /// How many messages of one subscription may wait to be taken.
    pub subscription_capacity: u64,
    /// Whether subjects are taken untested.
    pub skip_subject_validation: bool,
    /// The first part of inbox subjects.
    pub inbox_prefix: Subject,
    /// The part of inbox subjects between the prefix and a request's token.
    pub mux_id: Token,
}

impl Config {
    /// The crate's default settings: 2,048 calls and 65,536 messages of a subscription may wait, subjects are tested,
    /// inbox subjects begin with `_INBOX`. The mux id is `MUX1`, where the crate draws one: sessions that ask for
    /// replies on one server each want a mux id of their own. Today it takes no memory.
    pub fn new(_alloc: Global) -> Result<Config, NoMemory>
        ensures { IfOk result (λ c. c ≡ default_config) }
    {
        let Some(mux_id) = Token::new(MUX_ID) else {
            unreachable!()
        };
        Ok(Config {
            client_capacity: CLIENT_CAPACITY,
            subscription_capacity: SUBSCRIPTION_CAPACITY,
            skip_subject_validation: false,
            inbox_prefix: Subject::from_static(INBOX_PREFIX),
            mux_id,
        })
    }

    /// Equal settings, which share the prefix's bytes.
    pub fn copy(&self, alloc: Global) -> Result<Config, NoMemory>
        ensures { IfOk result (λ c. c ≡ self.now) }
    {
        Ok(Config {
            client_capacity: self.client_capacity,
            subscription_capacity: self.subscription_capacity,
            skip_subject_validation: self.skip_subject_validation,
            inbox_prefix: self.inbox_prefix.copy(alloc)?,
            mux_id: self.mux_id.copy(),
        })
    }
}
