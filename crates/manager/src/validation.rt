//! A manager's part of a validation.
ghost use Rattle.std.specs.Prelude.{◌≡◌};
ghost use Rattle.manager.specs.Conflicts.{conflicts_of};
ghost use Rattle.manager.specs.Meaning.{numbers};
ghost use Rattle.manager.specs.Validation.{both, validate_both};

use crate::conflicts::{ConflictTables, first_conflict};
use crate::managers::Managers;
use crate::steps::STEP;
use model::Refusal;

impl Managers {
    /// The manager at the seat sees that nothing newer was validated at the keys, takes a step and enters them at its number, which it answers. A conflict table with no
    /// place is outside the limits.
    pub fn validate(
        &mut self,
        seat: u64,
        conflicts: &mut ConflictTables,
        id: u64,
        keys: &[u64],
    ) -> Result<u64, Refusal>
        ensures { both result (numbers self.new) (conflicts_of conflicts.new) ≡ validate_both seat id keys.now (numbers self.old) (conflicts_of conflicts.old) }
    {
        if conflicts.places(seat) == 0 {
            return Err(Refusal::OutsideLimits);
        }
        let manager = self.manager(seat);
        if manager.steps.map_or(0, |steps| steps.clock) <= id / STEP {
            return Err(Refusal::StepAhead { id });
        }
        if id < manager.low {
            return Err(Refusal::BelowLow { low: manager.low });
        }
        if let Some(key) = first_conflict(conflicts.table(seat), id, keys) {
            return Err(Refusal::ConflictAtManager { key });
        }
        let number = self.take_step(seat)?;
        let low = conflicts.enter(seat, manager.low, number, keys);
        self.set_low(seat, low);
        Ok(number)
    }
}
