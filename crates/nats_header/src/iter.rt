//! The iterators over a header map.
ghost use Rattle.std.specs.Prelude.{◌≡◌, length};
ghost use Rattle.std.specs.Iterator.{at_most};
ghost use Rattle.std.specs.Map.Iter.{TakesFirst, deref};
ghost use Rattle.nats_header.specs.Walk.{deref_field};

use crate::{HeaderName, HeaderValue};
use indexmap::map;
use nats_names::Seq;
use std::marker::Model;
use std::slice;

/// The values of one name in order, and then it ends. Contracts see it as the list of those that are left. The crate's
/// `GetAll`.
#[derive(Drop)]
pub struct GetAll<'a, T> {
    inner: slice::Iter<'a, T>,
}

impl<'a, T> Model for GetAll<'a, T> {
    ghost use Rattle.std.specs.Prelude.{List};
    ghost use Rattle.std.specs.Slice.Iter.{iter_rest};

    ghost Value = { List T };

    ghost view = { λ all. iter_rest all.inner };
}

impl<'a, T> GetAll<'a, T> {
    pub(crate) fn over(values: &'a [T]) -> GetAll<'a, T>
        ensures { result ≡ values.now }
    {
        GetAll {
            inner: values.iter(),
        }
    }
}

impl<'a, T> Iterator for GetAll<'a, T> {
    type Item = &'a T;

    ghost next_gives = { TakesFirst deref };

    ghost remaining = { λ all. at_most (length all) };

    fn next(&mut self) -> Option<&'a T> {
        self.inner.next()
    }
}

/// The names in the order of their first insertion, each with its values in order, and then it ends. Contracts see
/// it as the list of those that are left. It stands for the crate's iterator over a hash map, which has no order.
#[derive(Drop)]
pub struct HeaderIter<'a> {
    inner: map::Iter<'a, HeaderName, Seq<HeaderValue>>,
}

impl<'a> Model for HeaderIter<'a> {
    ghost use Rattle.nats_header.specs.Headers.{Headers};

    ghost Value = { Headers };

    ghost view = { λ fields. fields.inner };
}

impl<'a> HeaderIter<'a> {
    pub(crate) fn over(inner: map::Iter<'a, HeaderName, Seq<HeaderValue>>) -> HeaderIter<'a>
        ensures { result ≡ inner.entry }
    {
        HeaderIter { inner }
    }
}

impl<'a> Iterator for HeaderIter<'a> {
    type Item = (&'a HeaderName, &'a [HeaderValue]);

    ghost next_gives = { TakesFirst deref_field };

    ghost remaining = { λ fields. at_most (length fields) };

    fn next(&mut self) -> Option<(&'a HeaderName, &'a [HeaderValue])> {
        let (name, values) = self.inner.next()?;
        Some((name, values.as_slice()))
    }
}
