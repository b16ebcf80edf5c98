//! What is kept of what is traced, from state to state.
ghost use Rattle.std.specs.Prelude.{◌≡◌, ◌++◌, ◌+◌, IfOk, OnOk};
ghost use Rattle.ss_machine.specs.Moment.{position};
ghost use Rattle.ss_trace.specs.Question.{changes_at};
ghost use Rattle.ss_readings.specs.Seen.{changes_in};
ghost use Rattle.ss_expressions.specs.Meanings.{IsSoundMeaning, subject_of};
ghost use Rattle.ss_run.specs.Kept.{kept_in, kept_at, kept_value, value_in, value_at};
ghost use Rattle.ss_run.specs.Tracing.{IsHere};
ghost use Rattle.ss_run.specs.Watched as spec;
ghost use Rattle.ss_run.specs.Watched.{watched_changes, IsSoundWatched};
ghost use Rattle.ss_run.specs.WatchedView.{watched_view};

use crate::followed::Followed;
use crate::here::Here;
use crate::watched::Watched;
use ss_debug::Debugger;
use ss_expressions::Meaning;
use ss_links::SetBoard;
use ss_readings::{Followed as FollowedValue, push_value};
use ss_trace::Question;
use std::alloc::{AllocError, Global};

/// What is kept of one thing that is traced.
#[derive(Drop)]
pub(crate) enum LastSeen {
    /// Of a question: its glance and its answer.
    Answer(Followed),
    /// Of a text with a meaning: its value.
    Value(FollowedValue),
    /// Of a text without a meaning.
    Nothing,
}

/// Keeps the value of a meaning at the debugger's position, after a step from `here`, and returns
/// whether it changed there.
fn follow_value<S: SetBoard>(
    followed: &mut FollowedValue,
    debugger: &Debugger<S>,
    meaning: &Meaning,
    here: Here,
) -> Result<bool, AllocError>
    requires sound { IsSoundMeaning debugger.now.machine.input.program meaning.now }
    requires step { position debugger.now.machine ≡ here.position + 1 }
    requires kept { value_in followed.old
        ≡ value_at debugger.now.machine.input meaning.now here.position }
    ensures kept { OnOk result (value_in followed.new
        ≡ value_at debugger.now.machine.input meaning.now (here.position + 1)) }
    ensures changed { IfOk result (λ changed. changed ≡ changes_in debugger.now.machine.input
        (subject_of meaning.now debugger.now.machine.input.program) 0 here.position) }
{
    followed.follow_on(debugger, meaning)
}

impl LastSeen {
    /// What is kept at the start of a run.
    pub(crate) fn new<S: SetBoard>(
        alloc: Global,
        debugger: &Debugger<S>,
        watched: &Watched<'_>,
    ) -> Result<Self, AllocError>
        requires start { position debugger.now.machine ≡ 0 }
        requires sound { IsSoundWatched debugger.now.machine.input.program
            (watched_view watched.now) }
        ensures { IfOk result (λ kept. kept_in kept
            ≡ kept_at debugger.now.machine.input (watched_view watched.now) 0) }
    {
        match watched {
            Watched::Question(question) => {
                Ok(LastSeen::Answer(Followed::new(alloc, debugger, question)?))
            }
            Watched::Formula(_, Some(meaning)) => {
                Ok(LastSeen::Value(FollowedValue::new(debugger, meaning)?))
            }
            Watched::Formula(_, None) => Ok(LastSeen::Nothing),
        }
    }

    /// Follows a question over the step from `here`.
    fn follow_question<S: SetBoard>(
        &mut self,
        alloc: Global,
        debugger: &Debugger<S>,
        question: &Question,
        here: Here,
    ) -> Result<bool, AllocError>
        requires here { IsHere debugger.now.machine.input here.position here }
        requires step { position debugger.now.machine ≡ here.position + 1 }
        requires kept { kept_in self.old
            ≡ kept_at debugger.now.machine.input (spec.question question.now) here.position }
        ensures kept { OnOk result (kept_in self.new
            ≡ kept_at debugger.now.machine.input (spec.question question.now) (here.position + 1)) }
        ensures changed { IfOk result (λ changed. changed
            ≡ changes_at debugger.now.machine.input question.now here.position) }
    {
        match self {
            LastSeen::Answer(followed) => followed.follow(alloc, debugger, question, here),
            _ => Ok(false),
        }
    }

    /// Follows the value of a meaning over the step from `here`.
    fn follow_meaning<S: SetBoard>(
        &mut self,
        debugger: &Debugger<S>,
        meaning: &Meaning,
        here: Here,
    ) -> Result<bool, AllocError>
        requires sound { IsSoundMeaning debugger.now.machine.input.program meaning.now }
        requires step { position debugger.now.machine ≡ here.position + 1 }
        requires kept { kept_in self.old
            ≡ value_at debugger.now.machine.input meaning.now here.position }
        ensures kept { OnOk result (kept_in self.new
            ≡ value_at debugger.now.machine.input meaning.now (here.position + 1)) }
        ensures changed { IfOk result (λ changed. changed ≡ changes_in debugger.now.machine.input
            (subject_of meaning.now debugger.now.machine.input.program) 0 here.position) }
    {
        match self {
            LastSeen::Value(followed) => follow_value(followed, debugger, meaning, here),
            _ => Ok(false),
        }
    }

    /// Keeps what is traced at the debugger's position, after a step from `here`, and returns
    /// whether it changed there. `AllocError` if memory was refused; then what is kept is of no
    /// state.
    pub(crate) fn follow<S: SetBoard>(
        &mut self,
        alloc: Global,
        debugger: &Debugger<S>,
        watched: &Watched<'_>,
        here: Here,
    ) -> Result<bool, AllocError>
        requires here { IsHere debugger.now.machine.input here.position here }
        requires step { position debugger.now.machine ≡ here.position + 1 }
        requires sound { IsSoundWatched debugger.now.machine.input.program
            (watched_view watched.now) }
        requires kept { kept_in self.old
            ≡ kept_at debugger.now.machine.input (watched_view watched.now) here.position }
        ensures kept { OnOk result (kept_in self.new
            ≡ kept_at debugger.now.machine.input (watched_view watched.now)
            (here.position + 1)) }
        ensures changed { IfOk result (λ changed. changed
            ≡ watched_changes debugger.now.machine.input (watched_view watched.now)
            here.position) }
    {
        match watched {
            Watched::Question(question) => self.follow_question(alloc, debugger, question, here),
            Watched::Formula(_, Some(meaning)) => self.follow_meaning(debugger, meaning, here),
            Watched::Formula(_, None) => Ok(false),
        }
    }

    /// Appends the value in the debugger's present state, in one line.
    pub(crate) fn push_value<S: SetBoard>(
        &self,
        debugger: &Debugger<S>,
        watched: &Watched<'_>,
        bytes: &mut Vec<u8>,
    ) -> Result<(), AllocError>
        ensures { OnOk result (bytes.new.items ≡ bytes.old.items
            ++ kept_value debugger.now.machine.input (position debugger.now.machine)
            (watched_view watched.now) (kept_in self.now)) }
    {
        match (watched, self) {
            (Watched::Question(question), _) => ss_trace::push_value(debugger, question, bytes),
            (_, LastSeen::Value(followed)) => push_value(bytes, &followed.value),
            _ => bytes.extend_from_slice(b"NONE"),
        }
    }
}
