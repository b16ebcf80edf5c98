//! The states at which a forward movement stops before its bound.
ghost use Rattle.std.specs.Prelude.{◌≡◌};

/// The states that a forward movement looks for: it stops at one that is later than its start.
#[derive(Clone, Copy, Debug, PartialEq, Eq)]
pub enum Target {
    /// Nothing: it counts steps.
    Nothing,
    /// A state whose place is on a break line.
    BreakLine,
    /// A state to which an event start led.
    EventStart,
}

/// The states at which a forward movement may stop before its bound.
#[derive(Clone, Copy, Debug, PartialEq, Eq)]
pub struct StopCondition {
    /// A state whose clock is at or past this time, the first state included.
    pub time: Option<u64>,
    /// A state that it looks for.
    pub target: Target,
}

impl StopCondition {
    /// A time, if one is named, or a state that the movement looks for.
    pub fn new(time: Option<u64>, target: Target) -> StopCondition
        ensures { result ≡ record { time = time; target = target } }
    {
        StopCondition { time, target }
    }
}
