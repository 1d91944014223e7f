//! What the two managers hold.
ghost use Rattle.std.specs.Prelude.{ℕ, ◌≤◌};
ghost use Rattle.std.specs.Option.{ForSome};
ghost use Rattle.std.specs.List.{All};
ghost use Rattle.manager.specs.declared.steps.TheConstants.{LAST_STEP, LONGEST_SPAN};

/// The steps of a seat that was taken over: its next step, and the end of its span.
#[derive(Clone, Copy, PartialEq, Eq, Debug)]
pub struct Steps {
    pub clock: u64,
    pub end: u64,
}

/// A seat: its steps, or none where it was never taken over, and the least id that it can still validate.
#[derive(Clone, Copy, Default, PartialEq, Eq, Debug)]
pub struct Manager {
    pub steps: Option<Steps>,
    pub low: u64,
}

/// The seats, each vacant until it is taken over; the cell, at which the next span begins; the span, how many steps a manager takes at a time; and the seat that was last
/// taken over.
#[derive(Drop)]
pub struct Managers {
    pub(crate) cell: u64,
    pub(crate) span: u64,
    pub(crate) seats: [Manager; 2],
    pub(crate) charge: Option<u64>,
    ghost begun: { 1 ≤ cell },
    ghost top: { cell ≤ LAST_STEP },
    ghost wide: { 1 ≤ span },
    ghost short: { span ≤ LONGEST_SPAN },
    ghost early: { All (λ m. ForSome m.steps (λ s. s.clock ≤ s.end)) seats },
    ghost within: { All (λ m. ForSome m.steps (λ s. s.end ≤ cell)) seats },
    ghost charged: { ForSome charge (λ q. q ≤ 1) },
}
