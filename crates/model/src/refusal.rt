//! Why a call is denied, and what is handed back then.
ghost use Rattle.std.specs.Prelude.{◌≡◌};
ghost use Rattle.model.specs.Refusals.{refusal_number, refusal_layer, refusal_place};

use std::fmt;

/// The part of the database that denies.
#[derive(Clone, Copy, PartialEq, Eq, Debug)]
pub enum Layer {
    Engine,
    Manager,
    Store,
    CommitTable,
}

/// The refusals, each with what its place needs. Number 11 has two cases, for it comes from two layers.
#[derive(Clone, Copy, PartialEq, Eq, Debug)]
pub enum Refusal {
    /// 1: an opening limit is broken, a store or commit table is not empty, or a seat is above 1.
    OutsideLimits,
    /// 2: the seat was never taken over.
    SeatVacant { seat: u64 },
    /// 3: all rows are used.
    RowsFull { rows: u64 },
    /// 4: the seat has used up its span, and another manager has taken steps since.
    SpanLost { seat: u64 },
    /// 5: a span is needed, and there are not enough steps left.
    StepsSpent { seat: u64 },
    /// 6: no row has the id.
    NoRow { id: u64 },
    /// 7: the transaction is in another phase.
    WrongPhase { id: u64 },
    /// 8: the id is below the fence.
    Fenced { id: u64 },
    /// 9: the id's step is at or above the seat's clock.
    StepAhead { id: u64 },
    /// 10: the id is below the seat's low.
    BelowLow { low: u64 },
    /// 11: a key's conflict entry is above the id.
    ConflictAtManager { key: u64 },
    /// 11: the key's greatest stamped number is above what the caller saw.
    ConflictAtEngine { key: u64 },
    /// 12: the row holds 16 keys, and this one is new.
    KeysFull { key: u64 },
    /// 13: a new record is needed, and the store is full.
    StoreFull { key: u64 },
    /// 14: the id is below the floor.
    BelowFloor { floor: u64 },
    /// 15: a new commit entry is needed for the id, and the commit table is full.
    EntriesFull { id: u64 },
    /// 16: the id's commit entry says aborted.
    EntryAborted { id: u64 },
    /// 17: the id is at or above the fence.
    NotFenced { id: u64 },
    /// 18: the wanted floor is above the clock of the seat in charge.
    AboveClock { floor: u64 },
    /// 19: the key has a pending record.
    KeyPending { key: u64 },
    /// 20: the key's class has no number left below the next step.
    ClassSpent { key: u64 },
}

impl Refusal {
    /// The refusal's number, 1 to 20.
    pub fn number(self) -> u8
        ensures { result ≡ refusal_number self }
    {
        match self {
            Refusal::OutsideLimits => 1,
            Refusal::SeatVacant { .. } => 2,
            Refusal::RowsFull { .. } => 3,
            Refusal::SpanLost { .. } => 4,
            Refusal::StepsSpent { .. } => 5,
            Refusal::NoRow { .. } => 6,
            Refusal::WrongPhase { .. } => 7,
            Refusal::Fenced { .. } => 8,
            Refusal::StepAhead { .. } => 9,
            Refusal::BelowLow { .. } => 10,
            Refusal::ConflictAtManager { .. } => 11,
            Refusal::ConflictAtEngine { .. } => 11,
            Refusal::KeysFull { .. } => 12,
            Refusal::StoreFull { .. } => 13,
            Refusal::BelowFloor { .. } => 14,
            Refusal::EntriesFull { .. } => 15,
            Refusal::EntryAborted { .. } => 16,
            Refusal::NotFenced { .. } => 17,
            Refusal::AboveClock { .. } => 18,
            Refusal::KeyPending { .. } => 19,
            Refusal::ClassSpent { .. } => 20,
        }
    }

    /// The layer that denies.
    pub fn layer(self) -> Layer
        ensures { result ≡ refusal_layer self }
    {
        match self {
            Refusal::SeatVacant { .. }
            | Refusal::SpanLost { .. }
            | Refusal::StepsSpent { .. }
            | Refusal::StepAhead { .. }
            | Refusal::BelowLow { .. }
            | Refusal::ConflictAtManager { .. } => Layer::Manager,
            Refusal::StoreFull { .. } => Layer::Store,
            Refusal::EntriesFull { .. } => Layer::CommitTable,
            Refusal::OutsideLimits
            | Refusal::RowsFull { .. }
            | Refusal::NoRow { .. }
            | Refusal::WrongPhase { .. }
            | Refusal::Fenced { .. }
            | Refusal::ConflictAtEngine { .. }
            | Refusal::KeysFull { .. }
            | Refusal::BelowFloor { .. }
            | Refusal::EntryAborted { .. }
            | Refusal::NotFenced { .. }
            | Refusal::AboveClock { .. }
            | Refusal::KeyPending { .. }
            | Refusal::ClassSpent { .. } => Layer::Engine,
        }
    }

    /// Where it denies: the seat, id, key, count or bound that the case carries, 0 where it carries none.
    pub fn place(self) -> u64
        ensures { result ≡ refusal_place self }
    {
        match self {
            Refusal::OutsideLimits => 0,
            Refusal::SeatVacant { seat }
            | Refusal::SpanLost { seat }
            | Refusal::StepsSpent { seat } => seat,
            Refusal::RowsFull { rows } => rows,
            Refusal::NoRow { id }
            | Refusal::WrongPhase { id }
            | Refusal::Fenced { id }
            | Refusal::StepAhead { id }
            | Refusal::EntriesFull { id }
            | Refusal::EntryAborted { id }
            | Refusal::NotFenced { id } => id,
            Refusal::BelowLow { low } => low,
            Refusal::ConflictAtManager { key }
            | Refusal::ConflictAtEngine { key }
            | Refusal::KeysFull { key }
            | Refusal::StoreFull { key }
            | Refusal::KeyPending { key }
            | Refusal::ClassSpent { key } => key,
            Refusal::BelowFloor { floor } | Refusal::AboveClock { floor } => floor,
        }
    }

    fn reason(self) -> &'static str {
        match self {
            Refusal::OutsideLimits => "outside the limits of opening, making or seats",
            Refusal::SeatVacant { .. } => "the seat was never taken over",
            Refusal::RowsFull { .. } => "all rows are used",
            Refusal::SpanLost { .. } =>
                "the seat's span is used up and another manager has gone on",
            Refusal::StepsSpent { .. } => "no steps are left for another span",
            Refusal::NoRow { .. } => "no row has the id",
            Refusal::WrongPhase { .. } => "the transaction is in another phase",
            Refusal::Fenced { .. } => "the id is below the fence",
            Refusal::StepAhead { .. } => "the id's step is not below the seat's clock",
            Refusal::BelowLow { .. } => "the id is below the seat's low",
            Refusal::ConflictAtManager { .. } => "a later commit has the key",
            Refusal::ConflictAtEngine { .. } => "the key has a newer number",
            Refusal::KeysFull { .. } => "the transaction holds 16 keys",
            Refusal::StoreFull { .. } => "the version store is full",
            Refusal::BelowFloor { .. } => "the id is below the floor",
            Refusal::EntriesFull { .. } => "the commit table is full",
            Refusal::EntryAborted { .. } => "the transaction was aborted",
            Refusal::NotFenced { .. } => "the id is not below the fence",
            Refusal::AboveClock { .. } => "the wanted floor is above the clock in charge",
            Refusal::KeyPending { .. } => "the key has a pending record",
            Refusal::ClassSpent { .. } => "the key's class has no number left",
        }
    }
}

impl fmt::Display for Layer {
    fn fmt<W: fmt::Write>(&self, f: &mut fmt::Formatter<W>) -> fmt::Result {
        f.write_str(match self {
            Layer::Engine => "engine",
            Layer::Manager => "manager",
            Layer::Store => "store",
            Layer::CommitTable => "commit table",
        })
    }
}

impl fmt::Display for Refusal {
    fn fmt<W: fmt::Write>(&self, f: &mut fmt::Formatter<W>) -> fmt::Result {
        let number = self.number();
        let layer = self.layer();
        let place = self.place();
        let reason = self.reason();
        write!(f, "{number} ({layer}, {place}): {reason}")
    }
}
