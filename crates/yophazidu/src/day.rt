//! The calls of the day. Ids are whole steps; the first step is 1 and a span has four.
use manager::steps::STEP;
use model::{Call, Opening};

pub const OPENING: Opening = Opening {
    first: 1,
    span: 4,
    rows: 64,
    conflicts0: 64,
    conflicts1: 64,
    records: 256,
    entries: 64,
};

/// The delivery's id.
const DELIVERY: u64 = STEP;

/// The number at which the delivery committed.
const DELIVERED: u64 = 2 * STEP;

/// The stocktake's id.
const STOCKTAKE: u64 = 3 * STEP;

/// The sale's id.
const SALE: u64 = 4 * STEP;

/// Where the second manager starts: its floor, and the id of its first transaction.
const HANDOVER: u64 = 9 * STEP;

const APPLES: u64 = 7;

const PEARS: u64 = 8;

const PLUMS: u64 = 9;

pub const DAY: [Call<i64>; 27] = [
    Call::Takeover { seat: 0 },
    // a delivery, carried through all phases
    Call::Begin { seat: 0 },
    Call::Read {
        id: DELIVERY,
        key: APPLES,
    },
    Call::Write {
        id: DELIVERY,
        key: APPLES,
        value: 50,
    },
    Call::Write {
        id: DELIVERY,
        key: PEARS,
        value: 5,
    },
    Call::Validate {
        id: DELIVERY,
        seat: 0,
    },
    Call::Settle { id: DELIVERY },
    Call::Stamp { id: DELIVERY },
    Call::Stamp { id: DELIVERY },
    // a stocktake reads what it left
    Call::Begin { seat: 0 },
    Call::Read {
        id: STOCKTAKE,
        key: APPLES,
    },
    Call::FastRead { key: APPLES },
    // single keys: a first count, and a sale that saw the delivery's number
    Call::FastWrite {
        key: PLUMS,
        value: 12,
    },
    Call::FastChange {
        seen: DELIVERED,
        key: APPLES,
        value: 49,
    },
    // a sale is validated, and then the other manager takes over: it cannot settle any more
    Call::Begin { seat: 0 },
    Call::Write {
        id: SALE,
        key: PEARS,
        value: 4,
    },
    Call::Validate { id: SALE, seat: 0 },
    Call::Takeover { seat: 1 },
    Call::Settle { id: SALE },
    Call::Bury { id: SALE },
    Call::Abandon { id: STOCKTAKE },
    // nobody reads below the new manager's first step: old versions go
    Call::Raise { floor: HANDOVER },
    Call::Sweep { key: APPLES },
    // what the next transaction finds
    Call::Begin { seat: 1 },
    Call::Read {
        id: HANDOVER,
        key: APPLES,
    },
    Call::Read {
        id: HANDOVER,
        key: PEARS,
    },
    Call::Abandon { id: HANDOVER },
];
