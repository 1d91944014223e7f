//! What stores and tables hold.
use std::fmt;

/// One version of a key. `number` is the commit number, or `None` while the record is pending: put by a transaction whose
/// outcome the record does not yet show.
#[derive(Clone, Copy, PartialEq, Eq, Debug, Drop)]
pub struct Record<V> {
    pub key: u64,
    pub version: u64,
    pub number: Option<u64>,
    pub value: V,
}

/// The kind of value of a price list. (A stock count, the other kind, is an `i64`.)
#[derive(Clone, Copy, PartialEq, Eq, Debug)]
pub struct PriceCard {
    pub cents: u32,
    pub tax_class: u8,
    pub first_day: u32,
}

/// What a commit table says of a transaction's id.
#[derive(Clone, Copy, PartialEq, Eq, Debug)]
pub enum CommitEntry {
    /// It committed at this number.
    Committed(u64),
    /// It will not commit.
    Aborted,
}

impl fmt::Display for CommitEntry {
    fn fmt<W: fmt::Write>(&self, f: &mut fmt::Formatter<W>) -> fmt::Result {
        match self {
            CommitEntry::Committed(number) => write!(f, "committed at {number}"),
            CommitEntry::Aborted => write!(f, "aborted"),
        }
    }
}

/// A value and the commit number at which it is stamped.
#[derive(Clone, Copy, PartialEq, Eq, Debug, Drop)]
pub struct Stamped<V> {
    pub number: u64,
    pub value: V,
}

/// Something new found no room.
#[derive(Clone, Copy, PartialEq, Eq, Debug)]
pub struct Full {}

/// How far a transaction is; from its validation on with its commit number.
#[derive(Clone, Copy, PartialEq, Eq, Debug)]
pub enum Phase {
    Open,
    Validated(u64),
    Settled(u64),
}
