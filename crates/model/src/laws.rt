//! Theorems about the reference database.
ghost use Rattle.model.specs.Bounds.{NeverFall, FloorUnderFence};
ghost use Rattle.model.specs.Denials.{Denials};
ghost use Rattle.model.specs.Runs.{Replay, runs};
ghost use Rattle.model.specs.Vectors.{Vectors};

/// The worked runs, computed on the reference database.
pub fn runs_hold()
    ensures { Replay runs }
{}

/// A denied call leaves the state as it was, but that a read denied for want of an entry leaves exactly the stamps and the aborted
/// entries that it made above that version.
pub fn denied_unchanged<V>()
    ensures { Denials V }
{}

/// Cell, fence, floor and class numbers never fall.
pub fn never_fall<V>()
    ensures { NeverFall V }
{}

/// From an opening on, the floor is at most the fence.
pub fn floor_under_fence<V>()
    ensures { FloorUnderFence V }
{}

/// Runs with answers from another model of the database, computed on this one.
pub fn vectors_agree()
    ensures { Vectors }
{}
