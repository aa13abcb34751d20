//! What holds of the grammar of client commands and of the texts that are written, whatever the commands. Each function
//! does nothing: its contract is the law, so the law is proved where the function is.
ghost use Rattle.nats_client_text.specs.Law.{ReadBack};

/// The texts of any list of commands whose names may be published to, whose headers are names and values, and whose
/// numbers are below 2^64, are read to their end as exactly these commands, but an empty header map is read as none. So
/// no such command can be written to carry another. `CONNECT`, which comes before all else, is none of these.
pub fn read_back()
    ensures { ReadBack }
{}
