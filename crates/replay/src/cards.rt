//! A run with price cards.
use manager::steps::STEP;
use model::{Call, PriceCard};

/// Fills the places that no value has.
pub const FILLER: PriceCard = PriceCard {
    cents: 0,
    tax_class: 0,
    first_day: 0,
};

const OLD: PriceCard = PriceCard {
    cents: 350,
    tax_class: 1,
    first_day: 20000,
};

const NEW: PriceCard = PriceCard {
    cents: 395,
    tax_class: 2,
    first_day: 20100,
};

/// The transactions' ids, in order of their beginnings. The second one's commit has a step of its own before the third begins.
const FIRST: u64 = STEP;

const SECOND: u64 = 2 * STEP;

const THIRD: u64 = 4 * STEP;

pub const CARDS: [Call<PriceCard>; 15] = [
    Call::Takeover { seat: 0 },
    Call::FastWrite { key: 7, value: OLD },
    Call::FastRead { key: 7 },
    Call::Begin { seat: 0 },
    Call::Begin { seat: 0 },
    Call::Read { id: FIRST, key: 7 },
    Call::Write {
        id: SECOND,
        key: 7,
        value: NEW,
    },
    Call::Read { id: SECOND, key: 7 },
    Call::Validate {
        id: SECOND,
        seat: 0,
    },
    Call::Settle { id: SECOND },
    Call::Read { id: FIRST, key: 7 },
    Call::Begin { seat: 0 },
    Call::Read { id: THIRD, key: 7 },
    Call::FastRead { key: 7 },
    Call::Stamp { id: SECOND },
];
