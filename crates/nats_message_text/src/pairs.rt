//! Headers as pairs of fields.
ghost use Rattle.std.specs.Prelude.{◌≡◌, ◌∷◌, ◌<◌, [], None, Some, length, IfOk, IfSome, MatchOption, if◌then◌else◌};
ghost use Rattle.std.specs.Option.{option_copied};
ghost use Rattle.nats_header.specs.Headers.{Headers};
ghost use Rattle.nats_header.specs.Names.{is_header_name, is_header_value};
ghost use Rattle.nats_spelling.specs.Spelling.{field_text};
ghost use Rattle.nats_spelling.specs.Cut.{parts_at, parts_behind};
ghost use Rattle.nats_message_text.specs.Pairs.{text_that, with_value, headers_from};

use nats_header::{HeaderError, HeaderMap};
use nats_names::NoMemory;
use nats_spelling::cut::cut;
use nats_spelling::field_text;
use std::alloc::Global;

/// The first two fields, and those that are left behind them.
fn pair(fields: &[u8]) -> Option<(&[u8], &[u8], Option<&[u8]>)>
    ensures parts { MatchOption result ((h : Headers) → headers_from (Some h) (parts_at 32 fields.now) ≡ None)
        (λ f. parts_at 32 fields.now ≡ f.0.now ∷ f.1.now ∷ parts_behind 32 (option_copied f.2)) }
    ensures shorter { IfSome result (λ f. IfSome f.2 (λ rest. length rest.now < length fields.now)) }
{
    let (name, rest) = cut(fields, b' ');
    let (value, more) = cut(rest?, b' ');
    Some((name, value, more))
}

/// Puts the value that a field spells last among those of the name that another spells; `false` where one spells none.
fn append_value(
    alloc: Global,
    headers: &mut HeaderMap,
    name: &[u8],
    value: &[u8],
) -> Result<bool, NoMemory>
    ensures { IfOk result (λ added. with_value headers.old (text_that is_header_name (field_text name.now))
        (text_that is_header_value (field_text value.now)) ≡ (if added then Some headers.new else None)) }
{
    let name = field_text(alloc, name)?;
    let value = field_text(alloc, value)?;
    let (Some(name), Some(value)) = (name, value) else {
        return Ok(false);
    };
    match headers.append(alloc, name.as_str(), value.as_str()) {
        Ok(()) => Ok(true),
        Err(HeaderError::Name | HeaderError::Value) => Ok(false),
        Err(HeaderError::NoMemory) => Err(NoMemory),
    }
}

/// The headers of the pairs of fields that are left, a name and a value each, appended in order. It is our own format.
///
/// # Errors
///
/// `NoMemory` for want of memory.
pub fn headers_of(alloc: Global, fields: Option<&[u8]>) -> Result<Option<HeaderMap>, NoMemory>
    ensures { IfOk result (λ h. h ≡ headers_from (Some []) (parts_behind 32 (option_copied fields.entry))) }
{
    let mut headers = HeaderMap::new(alloc);
    let mut rest = fields;
    'pairs: while let Some(left) = rest {
        let Some((name, value, more)) = pair(left) else {
            return Ok(None);
        };
        let added = append_value(alloc, &mut headers, name, value)?;
        if !added {
            return Ok(None);
        }
        rest = more;
    }
    Ok(Some(headers))
}
