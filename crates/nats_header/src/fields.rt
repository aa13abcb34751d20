//! The fields of a header map, kept by name.
ghost use Rattle.std.specs.Prelude.{◌≡◌, ◌==◌, [], length, IfOk, OnErr, OnOk};
ghost use Rattle.nats_header.specs.Headers.{AreDistinct, values_of, inserted, appended, same_headers};

use crate::{HeaderName, HeaderValue};
use indexmap::IndexMap;
use indexmap::map::Slice;
use nats_names::{NoMemory, Seq};
use std::alloc::Global;
use std::fmt;
use std::marker::Model;

type Table = IndexMap<HeaderName, Seq<HeaderValue>>;

/// Names in the order of their first insertion, each with its values. No table is made before the first name, so
/// that a map costs little to keep and to move where a message has none.
#[derive(Drop)]
pub(crate) struct Fields {
    table: Option<Box<Table>>,
}

impl Model for Fields {
    ghost use Rattle.nats_header.specs.Headers.{Headers};
    ghost use Rattle.nats_header.specs.Kept.{if_kept};

    ghost Value = { Headers };

    ghost view = { λ f. if_kept (λ table. table.value.entries) f.table };
}

#[inline(always)]
fn insert_alone(
    table: &mut Table,
    alloc: Global,
    name: HeaderName,
    value: HeaderValue,
) -> Result<(), NoMemory>
    ensures ok { OnOk result (table.new.entries ≡ inserted table.old.entries name value) }
    ensures err { OnErr result (table.new.entries ≡ table.old.entries) }
{
    let mut values = Seq::new(alloc);
    values.push(alloc, value)?;
    table.insert(name, values)?;
    Ok(())
}

#[inline(always)]
fn append(
    table: &mut Table,
    alloc: Global,
    name: HeaderName,
    value: HeaderValue,
) -> Result<(), NoMemory>
    ensures ok { OnOk result (table.new.entries ≡ appended table.old.entries name value) }
    ensures err { OnErr result (table.new.entries ≡ table.old.entries) }
{
    match table.get_mut(&name) {
        Some(values) => values.push(alloc, value),
        None => insert_alone(table, alloc, name, value),
    }
}

fn values_in<'a>(table: &'a Table, name: &HeaderName) -> &'a [HeaderValue]
    ensures { result.now ≡ values_of table.now.entries name.now }
{
    match table.get(name) {
        Some(values) => values.as_slice(),
        None => &[],
    }
}

fn values_under<'a>(table: &'a Table, key: &str) -> &'a [HeaderValue]
    ensures { result.now ≡ values_of table.now.entries key.now }
{
    for (name, values) in table.iter() {
        if name.as_str() == key {
            return values.as_slice();
        }
    }
    &[]
}

fn same_tables(one: &Table, other: &Table) -> bool
    ensures { result ≡ same_headers one.now.entries other.now.entries }
{
    one == other
}

fn copy_of(table: &Table) -> Result<Table, NoMemory>
    ensures { IfOk result (λ copy. copy.entries ≡ table.now.entries) }
{
    Ok(table.clone()?)
}

fn single(alloc: Global, name: HeaderName, value: HeaderValue) -> Result<Fields, NoMemory>
    ensures { IfOk result (λ fields. fields ≡ inserted [] name value) }
{
    let mut table = IndexMap::new(alloc);
    insert_alone(&mut table, alloc, name, value)?;
    Ok(Fields {
        table: Some(Box::new(alloc, table)?),
    })
}

impl Fields {
    /// No name. It takes no memory.
    pub(crate) fn new() -> Fields
        ensures { result ≡ [] }
    {
        Fields { table: None }
    }

    /// The names in order, each with its values.
    pub(crate) fn entries(&self) -> Slice<'_, HeaderName, Seq<HeaderValue>>
        ensures entries { result ≡ self.now }
        ensures distinct { AreDistinct self.now }
    {
        let table = match &self.table {
            Some(table) => table,
            None => return Slice::new(),
        };
        table.as_slice()
    }

    /// Whether there is no name.
    pub(crate) fn is_empty(&self) -> bool
        ensures { result ≡ (length self.now == 0) }
    {
        self.entries().len() == 0
    }

    /// Whether both have the same values at each name of either, whatever the order of the names.
    pub(crate) fn same(&self, other: &Fields) -> bool
        ensures { result ≡ same_headers self.now other.now }
    {
        match (&self.table, &other.table) {
            (Some(table), Some(other)) => same_tables(table, other),
            (None, Some(_)) => other.is_empty(),
            (Some(_), None) => self.is_empty(),
            (None, None) => true,
        }
    }

    /// The values of a name, found by its hash; none where it isn't there.
    pub(crate) fn values_at(&self, name: &HeaderName) -> &[HeaderValue]
        ensures { result.now ≡ values_of self.now name.now }
    {
        match &self.table {
            Some(table) => values_in(table, name),
            None => &[],
        }
    }

    /// The values of the name with this text, found by looking at each name, which takes no memory; none where it
    /// isn't there.
    pub(crate) fn values_under(&self, key: &str) -> &[HeaderValue]
        ensures { result.now ≡ values_of self.now key.now }
    {
        match &self.table {
            Some(table) => values_under(table, key),
            None => &[],
        }
    }

    /// Gives a name one value alone. A refusal leaves all as it was.
    pub(crate) fn put_alone(
        &mut self,
        alloc: Global,
        name: HeaderName,
        value: HeaderValue,
    ) -> Result<(), NoMemory>
        ensures ok { OnOk result (self.new ≡ inserted self.old name value) }
        ensures err { OnErr result (self.new ≡ self.old) }
    {
        match &mut self.table {
            Some(table) => insert_alone(table, alloc, name, value),
            None => {
                *self = single(alloc, name, value)?;
                Ok(())
            }
        }
    }

    /// Puts a value last among those of a name. A refusal leaves all as it was.
    pub(crate) fn put_last(
        &mut self,
        alloc: Global,
        name: HeaderName,
        value: HeaderValue,
    ) -> Result<(), NoMemory>
        ensures ok { OnOk result (self.new ≡ appended self.old name value) }
        ensures err { OnErr result (self.new ≡ self.old) }
    {
        match &mut self.table {
            Some(table) => append(table, alloc, name, value),
            None => {
                *self = single(alloc, name, value)?;
                Ok(())
            }
        }
    }

    /// Equal fields in the same order.
    pub(crate) fn copy(&self, alloc: Global) -> Result<Fields, NoMemory>
        ensures { IfOk result (λ fields. fields ≡ self.now) }
    {
        let table = match &self.table {
            Some(table) => Some(Box::new(alloc, copy_of(table)?)?),
            None => None,
        };
        Ok(Fields { table })
    }
}

/// Prints the names with their values, as a map's `Debug` does.
impl fmt::Debug for Fields {
    fn fmt<W: fmt::Write>(&self, f: &mut fmt::Formatter<W>) -> fmt::Result {
        match &self.table {
            Some(table) => fmt::Debug::fmt(table, f),
            None => f.write_str("{}"),
        }
    }
}
