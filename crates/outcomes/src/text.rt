//! Answers in words.
use commit_table::NotPlaced;
use model::CommitEntry;
use std::fmt;

/// What looking up found.
#[derive(Clone, Copy)]
pub struct Found(pub Option<CommitEntry>);

/// What placing came to.
#[derive(Clone, Copy)]
pub struct Placed(pub Result<(), NotPlaced>);

/// Whether an entry was dropped.
#[derive(Clone, Copy)]
pub struct Dropped(pub bool);

impl fmt::Display for Found {
    fn fmt<W: fmt::Write>(&self, f: &mut fmt::Formatter<W>) -> fmt::Result {
        match self.0 {
            Some(entry) => write!(f, "{entry}"),
            None => write!(f, "no entry"),
        }
    }
}

impl fmt::Display for Placed {
    fn fmt<W: fmt::Write>(&self, f: &mut fmt::Formatter<W>) -> fmt::Result {
        match self.0 {
            Ok(()) => write!(f, "placed"),
            Err(why) => write!(f, "{why}"),
        }
    }
}

impl fmt::Display for Dropped {
    fn fmt<W: fmt::Write>(&self, f: &mut fmt::Formatter<W>) -> fmt::Result {
        f.write_str(if self.0 { "dropped" } else { "no entry" })
    }
}
