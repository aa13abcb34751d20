//! Header maps.
ghost use Rattle.std.specs.Prelude.{◌≡◌, ◌-◌, ◌^◌, ◌<◌, ◌==◌, false, [], ◌∷◌, ◌++◌, length, is_some, slice_get, IfOk, OnOk, OnErr, IsTrue};
ghost use Rattle.std.specs.Option.{option_copied};
ghost use Rattle.std.specs.Str.{bytes_eq};
ghost use Rattle.nats_header.specs.Names.{is_header_name, is_header_value};
ghost use Rattle.nats_header.specs.Headers.{Headers, has_name, values_of, inserted, appended, all_inserted, are_fields, AreDistinct, same_headers};
ghost use Rattle.nats_header.specs.Equality.{same_headers-per, same_headers-equiv};
ghost use Rattle.nats_header.specs.Block.{block_text};
ghost use Rattle.nats_header.specs.Answers.{FieldAnswer, PairAnswer};

use crate::fields::Fields;
use crate::lines::{line_len, lines_len, write_lines};
use crate::{
    GetAll, HeaderError, HeaderIter, HeaderName, HeaderValue, IntoHeaderName, IntoHeaderValue,
};
use nats_names::NoMemory;
use std::alloc::Global;
use std::fmt;
use std::marker::Model;

/// The length of the block of the empty map in bytes: the version's line and an empty line. Format of the protocol.
const EMPTY_LEN: usize = 12;

/// What the length of a map's block stays below. Own choice: a longer one fits no memory.
const LEN_LIMIT: usize = 0x8000_0000_0000_0000;

/// The headers of a message: names in the order of their first insertion, each with one value or more. Contracts
/// see it as the list of the names with their values. Two maps are equal where they have the same values at each
/// name, in whatever order the names are. The block of a map is shorter than 2^63 bytes; a call that would pass
/// that answers want of memory. The crate's `HeaderMap`, whose names have no order.
#[derive(Drop)]
pub struct HeaderMap {
    fields: Fields,
    wire_len: usize,
}

impl Model for HeaderMap {
    ghost use Rattle.std.specs.Prelude.{◌≡◌, ◌^◌, ◌<◌, length, IsTrue};
    ghost use Rattle.nats_header.specs.Headers.{Headers, are_fields};
    ghost use Rattle.nats_header.specs.Block.{block_text};

    ghost Value = { Headers };

    ghost view = { λ m. m.fields };

    ghost invariant = { λ m. record {
      len : m.wire_len ≡ length (block_text m.fields);
      fits : m.wire_len < 2 ^ 63;
      fields : IsTrue (are_fields m.fields);
    } };
}

/// The name and the value of the two. A name is tested first, then a value, and want of memory is answered last.
fn made<K: IntoHeaderName, V: IntoHeaderValue>(
    alloc: Global,
    name: K,
    value: V,
) -> Result<(HeaderName, HeaderValue), HeaderError>
    ensures { PairAnswer (K.name_text name) (V.value_text value) result }
{
    let name = name.into_header_name(alloc);
    let value = value.into_header_value(alloc);
    match (name, value) {
        (Ok(name), Ok(value)) => Ok((name, value)),
        (Err(HeaderError::Name), _) => Err(HeaderError::Name),
        (_, Err(HeaderError::Value)) => Err(HeaderError::Value),
        _ => Err(HeaderError::NoMemory),
    }
}

impl HeaderMap {
    /// The empty map. It takes no memory. The crate's call.
    pub fn new(_alloc: Global) -> HeaderMap
        ensures { result ≡ [] }
    {
        HeaderMap {
            fields: Fields::new(),
            wire_len: EMPTY_LEN,
        }
    }

    pub(crate) fn insert_field(
        &mut self,
        alloc: Global,
        name: HeaderName,
        value: HeaderValue,
    ) -> Result<(), NoMemory>
        ensures ok { OnOk result (self.new ≡ inserted self.old name value) }
        ensures err { OnErr result (self.new ≡ self.old) }
    {
        let gone = lines_len(&name, self.fields.values_at(&name));
        let rest = self.wire_len - gone;
        let added = line_len(&name, &value);
        if added >= LEN_LIMIT - rest {
            return Err(NoMemory);
        }
        self.fields.put_alone(alloc, name, value)?;
        self.wire_len = rest + added;
        Ok(())
    }

    #[inline(always)]
    pub(crate) fn append_field(
        &mut self,
        alloc: Global,
        name: HeaderName,
        value: HeaderValue,
    ) -> Result<(), NoMemory>
        ensures ok { OnOk result (self.new ≡ appended self.old name value) }
        ensures err { OnErr result (self.new ≡ self.old) }
    {
        let added = line_len(&name, &value);
        if added >= LEN_LIMIT - self.wire_len {
            return Err(NoMemory);
        }
        self.fields.put_last(alloc, name, value)?;
        self.wire_len += added;
        Ok(())
    }

    /// Gives the name this value alone. The name keeps its place, or goes last where it wasn't there. `Name` comes
    /// exactly where the first text is no name, `Value` exactly where it is one and the second no value; a refusal
    /// changes nothing. The crate's call, which panics at such texts.
    pub fn insert<K: IntoHeaderName, V: IntoHeaderValue>(
        &mut self,
        alloc: Global,
        name: K,
        value: V,
    ) -> Result<(), HeaderError>
        ensures ok { OnOk result (self.new ≡ inserted self.old (K.name_text name) (V.value_text value)) }
        ensures values { OnOk result
            (values_of self.new (K.name_text name) ≡ V.value_text value ∷ []) }
        ensures others { OnOk result ((other : _) → bytes_eq (K.name_text name) other ≡ false
            → values_of self.new other ≡ values_of self.old other) }
        ensures err { OnErr result (self.new ≡ self.old) }
        ensures answer { FieldAnswer (is_header_name (K.name_text name))
            (is_header_value (V.value_text value)) result }
    {
        let (name, value) = made(alloc, name, value)?;
        self.insert_field(alloc, name, value)?;
        Ok(())
    }

    /// Puts the value last among those of the name, which goes last where it wasn't there. It refuses as `insert`
    /// does. The crate's call, which panics at such texts.
    pub fn append<K: IntoHeaderName, V: IntoHeaderValue>(
        &mut self,
        alloc: Global,
        name: K,
        value: V,
    ) -> Result<(), HeaderError>
        ensures ok { OnOk result (self.new ≡ appended self.old (K.name_text name) (V.value_text value)) }
        ensures values { OnOk result (values_of self.new (K.name_text name)
            ≡ values_of self.old (K.name_text name) ++ V.value_text value ∷ []) }
        ensures others { OnOk result ((other : _) → bytes_eq (K.name_text name) other ≡ false
            → values_of self.new other ≡ values_of self.old other) }
        ensures err { OnErr result (self.new ≡ self.old) }
        ensures answer { FieldAnswer (is_header_name (K.name_text name))
            (is_header_value (V.value_text value)) result }
    {
        let (name, value) = made(alloc, name, value)?;
        self.append_field(alloc, name, value)?;
        Ok(())
    }

    /// The first value of the name, `None` exactly where the name isn't there. The crate's call, which panics at a
    /// text that is no name.
    pub fn get(&self, key: &str) -> Option<&HeaderValue>
        ensures first { option_copied result ≡ slice_get (values_of self.now key.now) 0 }
        ensures there { is_some result ≡ has_name self.now key.now }
    {
        self.fields.values_under(key).first()
    }

    /// The last value of the name, `None` exactly where the name isn't there. The crate's call, which panics at a
    /// text that is no name.
    pub fn get_last(&self, key: &str) -> Option<&HeaderValue>
        ensures last { option_copied result
            ≡ slice_get (values_of self.now key.now) (length (values_of self.now key.now) - 1) }
        ensures there { is_some result ≡ has_name self.now key.now }
    {
        self.fields.values_under(key).last()
    }

    /// All values of the name in order, none where the name isn't there. The crate's call, which panics at a text
    /// that is no name.
    pub fn get_all(&self, key: &str) -> GetAll<'_, HeaderValue>
        ensures { result ≡ values_of self.now key.now }
    {
        GetAll::over(self.fields.values_under(key))
    }

    /// The names in order, each with its values in order. No name stands twice, and each has a value. The crate's call.
    pub fn iter(&self) -> HeaderIter<'_>
        ensures fields { result ≡ self.now }
        ensures valid { IsTrue (are_fields self.now) }
        ensures distinct { AreDistinct self.now }
    {
        HeaderIter::over(self.fields.entries().iter())
    }

    /// The number of names. The crate's call.
    pub fn len(&self) -> usize
        ensures { result ≡ length self.now }
    {
        self.fields.entries().len()
    }

    /// Whether there is no name. The crate's call.
    pub fn is_empty(&self) -> bool
        ensures { result ≡ (length self.now == 0) }
    {
        self.fields.is_empty()
    }

    /// The map that inserting each pair in turn makes of the empty one. The crate's `FromIterator`.
    pub fn from_pairs(
        alloc: Global,
        pairs: Vec<(HeaderName, HeaderValue)>,
    ) -> Result<HeaderMap, NoMemory>
        ensures { IfOk result (λ m. m ≡ all_inserted [] pairs.items) }
    {
        let mut map = HeaderMap::new(alloc);
        for (name, value) in pairs {
            map.insert_field(alloc, name, value)?;
        }
        Ok(map)
    }

    /// An equal map, with the names in the same order. Own call of this library, for the Rust's `Clone`.
    pub fn copy(&self, alloc: Global) -> Result<HeaderMap, NoMemory>
        ensures { IfOk result (λ m. m ≡ self.now) }
    {
        Ok(HeaderMap {
            fields: self.fields.copy(alloc)?,
            wire_len: self.wire_len,
        })
    }

    /// The length of the map's block in bytes, 12 for the empty map. The crate's call, there a private one.
    pub fn wire_len(&self) -> usize
        ensures len { result ≡ length (block_text self.now) }
        ensures bound { result < 2 ^ 63 }
    {
        self.wire_len
    }

    /// The map's block: the version's line, a line for each value, names in order, and an empty line. The crate's
    /// call, there a private one.
    pub fn to_bytes(&self, alloc: Global) -> Result<Vec<u8>, NoMemory>
        ensures block { IfOk result (λ bytes. bytes.items ≡ block_text self.now) }
        ensures valid { IsTrue (are_fields self.now) }
    {
        let mut bytes = Vec::with_capacity(alloc, self.wire_len)?;
        bytes.extend_from_slice(b"NATS/1.0\r\n")?;
        for (name, values) in self.fields.entries().iter() {
            write_lines(&mut bytes, name, values.as_slice())?;
        }
        bytes.extend_from_slice(b"\r\n")?;
        Ok(bytes)
    }
}

/// Maps are equal where they have the same values in order at each name of either; the order of names doesn't
/// matter. The crate's `PartialEq`.
impl PartialEq for HeaderMap {
    ghost eq = { same_headers };

    ghost laws = { same_headers-per };

    fn eq(&self, other: &HeaderMap) -> bool {
        self.fields.same(&other.fields)
    }
}

impl Eq for HeaderMap {
    ghost laws = { same_headers-equiv };
}

/// Prints the names with their values, as a map's `Debug` does.
impl fmt::Debug for HeaderMap {
    fn fmt<W: fmt::Write>(&self, f: &mut fmt::Formatter<W>) -> fmt::Result {
        fmt::Debug::fmt(&self.fields, f)
    }
}
