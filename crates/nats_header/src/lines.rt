//! The lines of a header block.
ghost use Rattle.std.specs.Prelude.{◌≡◌, ◌+◌, ◌-◌, ◌^◌, ◌<◌, ◌++◌, min, length, IsTrue, OnOk};
ghost use Rattle.nats_header.specs.Names.{is_header_name, is_header_value};
ghost use Rattle.nats_header.specs.Block.{value_line, field_lines};

use crate::{HeaderName, HeaderValue};
use nats_names::NoMemory;

/// The length of the value's line in bytes: the name, a colon and a space, the value, CR LF. Where that would pass
/// `usize` it is the greatest one.
pub(crate) fn line_len(name: &HeaderName, value: &HeaderValue) -> usize
    ensures len { result ≡ min (length (value_line name.now value.now)) (2 ^ 64 - 1) }
    ensures name { IsTrue (is_header_name name.now) }
    ensures value { IsTrue (is_header_value value.now) }
{
    let name_len = name.as_str().len();
    let value_len = value.as_str().len();
    name_len.saturating_add(value_len).saturating_add(4)
}

/// The length of the lines of all values of a name, in bytes.
pub(crate) fn lines_len(name: &HeaderName, values: &[HeaderValue]) -> usize
    requires { length (field_lines (name.now, values.now)) < 2 ^ 63 }
    ensures { result ≡ length (field_lines (name.now, values.now)) }
{
    let mut len = 0;
    for value in values {
        len += line_len(name, value);
    }
    len
}

/// Appends the value's line.
fn write_line(bytes: &mut Vec<u8>, name: &HeaderName, value: &HeaderValue) -> Result<(), NoMemory>
    ensures { OnOk result (bytes.new.items ≡ bytes.old.items ++ value_line name.now value.now) }
{
    bytes.extend_from_slice(name.as_str().as_bytes())?;
    bytes.extend_from_slice(b": ")?;
    bytes.extend_from_slice(value.as_str().as_bytes())?;
    bytes.extend_from_slice(b"\r\n")?;
    Ok(())
}

/// Appends the lines of all values of a name.
pub(crate) fn write_lines(
    bytes: &mut Vec<u8>,
    name: &HeaderName,
    values: &[HeaderValue],
) -> Result<(), NoMemory>
    ensures { OnOk result
        (bytes.new.items ≡ bytes.old.items ++ field_lines (name.now, values.now)) }
{
    for value in values {
        write_line(bytes, name, value)?;
    }
    Ok(())
}
