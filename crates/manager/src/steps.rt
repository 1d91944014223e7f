//! Taking over, and taking steps.
ghost use Rattle.std.specs.Prelude.{◌≡◌, ◌≤◌, not};
ghost use Rattle.std.specs.Option.{ForSome};
ghost use Rattle.model.specs.Maps.{is_there};
ghost use Rattle.manager.specs.Meaning.{numbers, made, new_numbers, seat_index, seat_at, standing_at, clock_in_charge, next_cell, stepping, takeover_of, step_of, with_low};

use crate::managers::{Manager, Managers, Steps};
use model::Refusal;

/// How many numbers there are to a step.
pub const STEP: u64 = 1048576;

/// The last step.
pub const LAST_STEP: u64 = 8796093022208;

/// The greatest span.
pub const LONGEST_SPAN: u64 = 4096;

/// The steps that a vacant seat counts from.
const NO_STEPS: Steps = Steps { clock: 0, end: 0 };

/// The place of a seat among the two, 0 or else 1. The public functions answer every number as a seat; a narrower type would ask more of callers.
fn index(seat: u64) -> usize
    ensures { result ≡ seat_index seat }
{
    usize::from(seat != 0)
}

impl Managers {
    /// Two vacant seats; none where the first step or the span is outside its limits.
    pub fn new(first: u64, span: u64) -> Option<Managers>
        ensures { made result ≡ new_numbers first span }
    {
        if !(1..=LAST_STEP).contains(&first) || !(1..=LONGEST_SPAN).contains(&span) {
            return None;
        }
        Some(Managers {
            cell: first,
            span,
            seats: [Manager::default(); 2],
            charge: None,
        })
    }

    /// The clock of the seat in charge, or 0 where none is.
    pub fn clock_in_charge(&self) -> u64
        ensures is { result ≡ clock_in_charge (numbers self.now) }
        ensures low { result ≤ LAST_STEP }
    {
        self.charge
            .and_then(|seat| self.manager(seat).steps)
            .map_or(0, |steps| steps.clock)
    }

    /// The manager at the seat.
    pub fn manager(&self, seat: u64) -> Manager
        ensures is { result ≡ standing_at seat (numbers self.now) }
        ensures early { ForSome result.steps (λ s. s.clock ≤ s.end) }
        ensures within { ForSome result.steps (λ s. s.end ≤ (numbers self.now).cell) }
    {
        let place = index(seat);
        self.seats[place]
    }

    /// Whether that seat was never taken over.
    pub fn is_vacant(&self, seat: u64) -> bool
        ensures { not result ≡ is_there (seat_at seat (numbers self.now)) }
    {
        self.seats[index(seat)].steps.is_none()
    }

    /// Where the span after the next one begins; it must not be beyond the last step.
    fn next_cell(&self, seat: u64) -> Result<u64, Refusal>
        ensures { result ≡ next_cell seat (numbers self.now) }
    {
        let next = self.cell + self.span;
        if next > LAST_STEP {
            return Err(Refusal::StepsSpent { seat });
        }
        Ok(next)
    }

    /// The seat begins a new span at the cell, and is in charge; it answers the number of that step.
    pub fn takeover(&mut self, seat: u64) -> Result<u64, Refusal>
        ensures { stepping result (numbers self.new) ≡ takeover_of seat (numbers self.old) }
    {
        if seat > 1 {
            return Err(Refusal::OutsideLimits);
        }
        let clock = self.cell;
        let end = self.next_cell(seat)?;
        let low = clock * STEP;
        self.cell = end;
        self.seats[index(seat)] = Manager {
            steps: Some(Steps { clock, end }),
            low,
        };
        self.charge = Some(seat);
        Ok(low)
    }

    /// The seat takes its next step, in a new span where its own is used up; it answers the number of that step.
    pub fn take_step(&mut self, seat: u64) -> Result<u64, Refusal>
        ensures { stepping result (numbers self.new) ≡ step_of seat (numbers self.old) }
    {
        let Steps { clock, mut end } = self.manager(seat).steps.unwrap_or(NO_STEPS);
        if clock == end {
            if self.cell != end {
                return Err(Refusal::SpanLost { seat });
            }
            end = self.next_cell(seat)?;
            self.cell = end;
        }
        self.seats[index(seat)].steps = Some(Steps {
            clock: clock + 1,
            end,
        });
        Ok(clock * STEP)
    }

    /// The low of the seat's manager is now this, of a vacant seat too.
    pub fn set_low(&mut self, seat: u64, low: u64)
        ensures { numbers self.new ≡ with_low seat low (numbers self.old) }
    {
        self.seats[index(seat)].low = low;
    }
}
