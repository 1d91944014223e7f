//! Sweep: the versions of a key that nobody needs any more go. The contract is one equation: the answer, and the database that the engine means after it with all that it is lent, are
//! those of the reference step.
#![tactic(auto)]

ghost use Rattle.std.specs.Prelude.{◌≡◌};
ghost use Rattle.model.specs.declared.call.Call.TheVariants.{Sweep};
ghost use Rattle.model.specs.declared.call.Answer.TheVariants.{Number};
ghost use Rattle.model.specs.Step.{step};
ghost use Rattle.engine.specs.Meaning.{database};

use commit_table::CommitTable;
use engine::{Engine, Tables};
use version_store::VersionStore;
use walks::sweeping::sweep as sweep_versions;

/// Stamps or drops the key's pending records, then drops the stamped ones numbered below the floor except the greatest of these. It answers how many it dropped.
pub fn sweep<S: VersionStore, C: CommitTable>(
    engine: &mut Engine,
    tables: &Tables,
    store: &mut S,
    commits: &C,
    key: u64,
) -> u64
    ensures { (database engine.new tables.now S.VersionStore store.new C.CommitTable commits.now, Number result)
        ≡ step (database engine.old tables.now S.VersionStore store.old C.CommitTable commits.now) (Sweep key) }
{
    sweep_versions(engine.floor, &mut engine.classes, store, commits, key)
}
