//! What every past of the reference database obeys.
#![tactic(auto)]

ghost use Rattle.history.specs.Consequences.{EntriesWithinRows, Lasting, NumbersOnce, Repeatable};
ghost use Rattle.history.specs.Honest.{Honest};
ghost use Rattle.history.specs.Law.{Holds};
ghost use Rattle.history.specs.Refused.{Refused};

/// The history law. For every kind of value, every opening and all calls: each read answers from its snapshot, commits of one key are in
/// order, and a new reader finds what all the commits left.
pub fn history_holds<V>()
    ensures { Holds V }
{}

/// Pasts that look like those of a snapshot database, and that the law refuses.
pub fn bad_pasts_refused()
    ensures { Refused }
{}

/// A past with every kind of call, with commits and reads, that is answered and obeys the law.
pub fn honest_past_obeys()
    ensures { Honest }
{}

/// Two answered reads of one key by one transaction, with no write of its own between, agree.
pub fn reads_repeatable<V>()
    ensures { Repeatable V }
{}

/// A commit number is never used twice on a key.
pub fn numbers_used_once<V>()
    ensures { NumbersOnce V }
{}

/// What a commit wrote is read by every transaction that the manager in charge begins later, until a higher commit on the key.
pub fn commits_lasting<V>()
    ensures { Lasting V }
{}

/// Commit entries never outnumber rows.
pub fn entries_within_rows<V>()
    ensures { EntriesWithinRows V }
{}
