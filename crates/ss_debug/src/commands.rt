//! The commands that command lines say.
use crate::name::Name;

/// A command (docs/DEBUGGER.md); limits.rt has the limits of the numbers.
#[derive(Drop)]
pub enum Command {
    /// A line without words: no answer.
    Blank,
    /// A line that is no command.
    Bad,
    /// A command that moves the debugger to another state.
    Move(Movement),
    /// BREAK: makes this line a break line.
    Break(u32),
    /// CLEAR: this line is no break line any more.
    Clear(u32),
    /// FORGET: all steps but this number of newest ones. The number is at most `GREATEST_KEPT` if
    /// a line was read.
    Forget(u64),
    /// SHOW: a question.
    Show(Question),
    /// QUIT: the session is over.
    Quit,
}

/// A movement. Bounds are numbers of steps, from 1 to `GREATEST_BOUND` if a line was read.
#[derive(Clone, Copy, Debug, PartialEq, Eq)]
pub enum Movement {
    /// STEP: this number of steps forward.
    Step(u64),
    /// RUN: forward to a break line, at most this number of steps.
    Run(u64),
    /// RUN TO: forward to this time or a break line.
    RunTo(u64),
    /// NEXT: forward to the state to which the next event start leads.
    Next,
    /// BACK: this number of steps back.
    Back(u64),
    /// BACK EVENT: back to a state whose next step is an event start.
    BackEvent,
    /// BACK BREAK: back to a break line.
    BackBreak,
}

/// A question about the state.
#[derive(Drop)]
pub enum Question {
    /// SHOW CLOCK: the time.
    Clock,
    /// SHOW WHERE: the state line.
    Where,
    /// SHOW VAR: the variable of this name, and its value.
    Variable(Name),
    /// SHOW c k: the entity of this class with this number, and its attributes.
    Entity(Name, i64),
    /// SHOW SET: the members of the set of this name, for the owner with this number or the owner
    /// that the variable of its class names.
    Set(Name, Option<i64>),
    /// SHOW EVENTS: the pending notices, the next first.
    Events,
    /// SHOW TAKEN: how many values of the data are taken.
    Taken,
    /// SHOW ENTRY: the entry of an external event, and whether it waits or runs.
    Entry,
    /// SHOW REPORT: the report so far.
    Report,
}
