//! What holds of the texts that a broker tells its peers. Each function does nothing: its contract is the law, so the
//! law is proved where the function is.
ghost use Rattle.nats_server_text.specs.Law.{ReadBack};

/// The texts of any list of greetings, messages and answers, one after another, are read to their end by the grammar of
/// server operations as exactly these: subjects and replies hold no white space, headers are names and values, and
/// numbers are below 2^64. A header's value is read without the white space at its ends. So no message can be told so
/// that it carries another.
pub fn read_back()
    ensures { ReadBack }
{}
