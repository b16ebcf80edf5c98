//! The reasons for which a call of the program makes no run.
use ss_host::Stop;
use std::alloc::AllocError;

/// Why no run is made.
#[derive(Drop)]
pub enum Cause<'a> {
    /// A stop that stops a program before its work.
    Stop(Stop<'a>),
    /// This text is no question, no expression and no condition.
    NoQuestion(&'a str),
    /// Some texts name nothing of the model, or break a rule; these lines say which.
    Unnamed(Vec<u8>),
}

impl<'a> From<AllocError> for Cause<'a> {
    ghost use Rattle.std.specs.Prelude.{◌≡◌};
    ghost use Rattle.ss_host.specs.declared.stop.Stop.TheVariants.{Memory};
    ghost use Rattle.ssrun.specs.declared.cause.Cause.TheVariants as causes;

    ghost from_gives = { λ _ cause. cause ≡ causes.Stop Memory };

    fn from(_error: AllocError) -> Cause<'a> {
        Cause::Stop(Stop::Memory)
    }
}
