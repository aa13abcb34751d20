//! Why a line is not answered, and why a program ends.
use nats_names::NoMemory;
use std::alloc::{AllocError, AllocFailed};
use std::{fmt, io};

/// Why a line is not answered.
#[derive(Clone, Copy, PartialEq, Eq, Debug, Drop)]
pub enum Bad {
    /// It is out of form.
    Form,
    /// Memory was wanting.
    NoMemory,
}

impl From<AllocError> for Bad {
    fn from(_error: AllocError) -> Self {
        Bad::NoMemory
    }
}

impl<T: Drop> From<AllocFailed<T>> for Bad {
    fn from(_error: AllocFailed<T>) -> Self {
        Bad::NoMemory
    }
}

impl From<NoMemory> for Bad {
    fn from(_error: NoMemory) -> Self {
        Bad::NoMemory
    }
}

/// Why a program ends before all is answered.
#[derive(Drop)]
pub enum Fault {
    /// A line, counted from 1, is out of form.
    Line(usize),
    /// Memory was wanting.
    NoMemory,
    /// Standard input or output failed.
    Outside(io::Error),
}

impl Fault {
    /// That of the line behind so many others.
    pub fn behind(lines: usize, bad: Bad) -> Self {
        match bad {
            Bad::Form => Fault::Line(lines.saturating_add(1)),
            Bad::NoMemory => Fault::NoMemory,
        }
    }
}

impl From<io::Error> for Fault {
    fn from(error: io::Error) -> Self {
        Fault::Outside(error)
    }
}

impl From<NoMemory> for Fault {
    fn from(_error: NoMemory) -> Self {
        Fault::NoMemory
    }
}

impl fmt::Display for Fault {
    fn fmt<W: fmt::Write>(&self, f: &mut fmt::Formatter<W>) -> fmt::Result {
        match self {
            Fault::Line(line) => write!(f, "line {line} is out of form"),
            Fault::NoMemory => write!(f, "out of memory"),
            Fault::Outside(error) => write!(f, "{error}"),
        }
    }
}
