//! Opening a database, the calls on it and their answers.
use crate::refusal::Refusal;
use crate::words::Stamped;

/// What a database is opened with: the first step, the span (how many steps a manager takes from the common cell at a time), and the
/// places of the row table, of each seat's conflict table, of the version store and of the commit table.
#[derive(Clone, Copy, PartialEq, Eq, Debug)]
pub struct Opening {
    pub first: u64,
    pub span: u64,
    pub rows: usize,
    pub conflicts0: usize,
    pub conflicts1: usize,
    pub records: usize,
    pub entries: usize,
}

/// The fourteen calls. A `seat` is a manager, 0 or 1; an `id` is a transaction's.
#[derive(Clone, Copy, PartialEq, Eq, Debug)]
pub enum Call<V> {
    Takeover { seat: u64 },
    Begin { seat: u64 },
    Write { id: u64, key: u64, value: V },
    Read { id: u64, key: u64 },
    Validate { id: u64, seat: u64 },
    Settle { id: u64 },
    Stamp { id: u64 },
    Abandon { id: u64 },
    Bury { id: u64 },
    Raise { floor: u64 },
    Sweep { key: u64 },
    FastRead { key: u64 },
    FastChange { seen: u64, key: u64, value: V },
    FastWrite { key: u64, value: V },
}

/// What a call answers.
#[derive(Clone, Copy, PartialEq, Eq, Debug)]
pub enum Answer<V> {
    Denied(Refusal),
    /// A step, an id, a number or a count, as the call has it.
    Number(u64),
    /// What a read found.
    Value(Option<V>),
    /// A fast read's greatest stamped number with its value, or 0 and nothing.
    Newest { number: u64, value: Option<V> },
}

impl<V> From<Result<u64, Refusal>> for Answer<V> {
    ghost use Rattle.std.specs.Prelude.{◌≡◌};
    ghost use Rattle.model.specs.Answers.{answer_of};

    ghost from_gives = { λ res a. a ≡ answer_of res };

    fn from(res: Result<u64, Refusal>) -> Answer<V> {
        match res {
            Ok(number) => Answer::Number(number),
            Err(refusal) => Answer::Denied(refusal),
        }
    }
}

impl<V: Drop> From<Result<Option<V>, Refusal>> for Answer<V> {
    ghost use Rattle.std.specs.Prelude.{◌≡◌};
    ghost use Rattle.model.specs.Answers.{value_answer};

    ghost from_gives = { λ res a. a ≡ value_answer res };

    fn from(res: Result<Option<V>, Refusal>) -> Answer<V> {
        match res {
            Ok(value) => Answer::Value(value),
            Err(refusal) => Answer::Denied(refusal),
        }
    }
}

impl<V> From<Option<Stamped<V>>> for Answer<V> {
    ghost use Rattle.std.specs.Prelude.{◌≡◌};
    ghost use Rattle.model.specs.Answers.{newest_answer};

    ghost from_gives = { λ found a. a ≡ newest_answer found };

    fn from(found: Option<Stamped<V>>) -> Answer<V> {
        match found {
            Some(stamped) => Answer::Newest {
                number: stamped.number,
                value: Some(stamped.value),
            },
            None => Answer::Newest {
                number: 0,
                value: None,
            },
        }
    }
}
