//! Names that a client draws.
ghost use Rattle.std.specs.Prelude.{◌≡◌, length, true, IfOk};
ghost use Rattle.std.specs.List.{list_all};
ghost use Rattle.std.specs.String.{string_bytes};
ghost use Rattle.nats_names.specs.Names.{is_letter_or_digit};

use nats_names::{NoMemory, Token};
use rand::Rng;
use rand::distr::{Alphanumeric, Distribution};
use std::alloc::Global;

/// How many letters such a name has. The crate's ids are as long.
pub const ID_LENGTH: usize = 22;

/// A text of 22 ASCII letters or digits, drawn from `rng`. Own call: the crate takes ids of `nuid`. That no
/// other text is equal to it is not claimed.
///
/// # Errors
///
/// `NoMemory` for want of memory.
pub fn id_text<G: Rng>(alloc: Global, rng: &mut G) -> Result<String, NoMemory>
    ensures len { IfOk result (λ text. length (string_bytes text) ≡ ID_LENGTH) }
    ensures letters { IfOk result (λ text. list_all is_letter_or_digit (string_bytes text) ≡ true) }
{
    let mut text = String::new(alloc);
    'letters: while text.len() < ID_LENGTH {
        let letter: u8 = Alphanumeric.sample(rng);
        text.push(char::from(letter))?;
    }
    Ok(text)
}

/// A text that names a client, as a token.
///
/// # Errors
///
/// `NoMemory` for want of memory.
pub fn id_token<G: Rng>(alloc: Global, rng: &mut G) -> Result<Token, NoMemory>
    ensures { IfOk result (λ token. length token ≡ ID_LENGTH) }
{
    let text = id_text(alloc, rng)?;
    match Token::new(text.as_str()) {
        Some(token) => Ok(token),
        None => unreachable!(),
    }
}
