//! A row of the row table.
use model::{Keys, Phase};
use table::Tagged;

/// A transaction in the row table, under its id, which is its start. The first `stamped` of its keys are stamped.
#[derive(Clone, Copy, Drop)]
pub struct Row {
    pub id: u64,
    pub phase: Phase,
    pub keys: Keys,
    pub stamped: usize,
}

impl Tagged for Row {
    type Value = Row;

    ghost tag = { λ r. r.id };

    ghost value = { λ r. r };

    fn tag(&self) -> u64 {
        self.id
    }

    fn value(&self) -> Row {
        *self
    }
}

impl Row {
    ghost use Rattle.std.specs.Prelude.{◌≡◌, [], drop};
    ghost use Rattle.model.specs.declared.words.Phase.TheVariants.{Open};
    ghost use Rattle.model.specs.Transactions.{transaction};
    ghost use Rattle.engine.specs.Transactions.{transaction_of};

    /// An open transaction that has written nothing.
    pub fn open(id: u64) -> Row
        ensures id { result.id ≡ id }
        ensures open { transaction_of result ≡ transaction Open [] 0 }
    {
        Row {
            id,
            phase: Phase::Open,
            keys: Keys::new(),
            stamped: 0,
        }
    }

    /// The keys that are not stamped yet.
    pub fn keys_left(&self) -> &[u64]
        ensures { result.now ≡ drop self.now.stamped (transaction_of self.now).keys }
    {
        let keys = self.keys.as_slice();
        let stamped = self.stamped.min(keys.len());
        &keys[stamped..]
    }
}
