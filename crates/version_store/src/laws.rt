//! What holds of every set of records that a store can mean.
ghost use Rattle.version_store.specs.Laws.{LooksDecide, NewestIsGreatest};

/// Two sets with the same look-ups are equal in their canonical form.
pub fn looks_decide<V>()
    ensures { LooksDecide V }
{}

/// The newest record at or below a bound is the one of greatest version that a look-up finds there.
pub fn newest_is_greatest<V>()
    ensures { NewestIsGreatest V }
{}
