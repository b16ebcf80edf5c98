//! Movements over a run: forward, step by step, until a condition is met, and back.
ghost use Rattle.std.specs.Prelude.{◌≡◌, ℕ, ◌+◌, ◌<◌, true, OnOk, OnErr, IfOk, IsTrue, MatchOption, ◌&&◌, nat_lt};
ghost use Rattle.ss_state.specs.declared.limits.TheConstants.{LAST_POSITION};
ghost use Rattle.ss_state.specs.Run.{Input};
ghost use Rattle.ss_state.specs.Well.{IsWellFrame};
ghost use Rattle.ss_timeline.specs.Moment.{position, state_of, with_kept, HasGoneBack};
ghost use Rattle.ss_debug.specs.BreakLines.{AreSoundBreaks};
ghost use Rattle.ss_debug.specs.Move.{step_condition, is_ready_at, line_at, is_on_break, has_come, is_stop};
ghost use Rattle.ss_debug.specs.Move.{is_behind_start, runs_event, starts_event, back_end};
ghost use Rattle.ss_debug.specs.Position.{IsAt, IsBetween, frames_before};
ghost use Rattle.ss_debug.specs.View.{condition_of, target_test, step_end, stop_end, search_end};

use crate::break_lines::BreakLines;
use crate::ready::StepReady;
use crate::stop_condition::{StopCondition, Target};
use ss_program::SectionKind;
use ss_state::{LAST_POSITION, Status};
use ss_timeline::Timeline;
use std::alloc::AllocError;

/// Whether the next step runs a place.
pub fn is_ready_now<T: Timeline>(timeline: &T) -> bool
    ensures { result
        ≡ is_ready_at (T.moment timeline.now).input (position (T.moment timeline.now)) }
{
    matches!(timeline.status(), Status::Ready)
}

/// The section of the last frame, and the number of the frame's place; the program has both.
#[inline(always)]
pub fn place<T: Timeline>(timeline: &T) -> (usize, usize)
    ensures place { result ≡ (
      (state_of (T.moment timeline.now)).frame.section,
      (state_of (T.moment timeline.now)).frame.place,
    ) }
    ensures well { IsWellFrame (T.moment timeline.now).input.program
        (state_of (T.moment timeline.now)).frame }
{
    let _ = timeline.position();
    timeline.place()
}

/// The line of the present place.
pub fn present_line<T: Timeline>(timeline: &T) -> usize
    ensures { result ≡ line_at (T.moment timeline.now).input (position (T.moment timeline.now)) }
{
    let (section, place) = place(timeline);
    timeline.program().spot(section, place).line
}

/// Whether a break line stops at the present place. Without break lines, no place is looked up.
#[inline]
pub fn stands_on_break<T: Timeline>(timeline: &T, breaks: &BreakLines) -> bool
    requires sound { AreSoundBreaks (T.moment timeline.now).input.program breaks.now }
    ensures { result ≡ is_on_break (T.moment timeline.now).input breaks.now
        (position (T.moment timeline.now)) }
{
    !breaks.is_empty() && breaks.stops(timeline, present_line(timeline))
}

/// Whether the clock is at or past a time, if one is named.
pub fn has_come<T: Timeline>(timeline: &T, time: Option<u64>) -> bool
    ensures { result
        ≡ has_come (T.moment timeline.now).input time (position (T.moment timeline.now)) }
{
    let Some(time) = time else {
        return false;
    };
    i128::from(time) <= i128::from(timeline.clock())
}

/// Whether the frame of an event is the last one.
fn runs_event<T: Timeline>(timeline: &T) -> bool
    ensures { result
        ≡ runs_event (T.moment timeline.now).input (state_of (T.moment timeline.now)) }
{
    let (section, _) = place(timeline);
    matches!(timeline.program().section(section).kind, SectionKind::Event)
}

/// Whether the last step was an event start, by the number of frames before it.
#[tactic(auto, using(crate::proofs::Starts::started_by))]
fn is_behind_start<T: Timeline>(timeline: &T, before: usize) -> bool
    requires some { 0 < position (T.moment timeline.now) }
    requires before { before ≡ frames_before (T.moment timeline.now) }
    ensures { result
        ≡ is_behind_start (T.moment timeline.now).input (position (T.moment timeline.now)) }
{
    runs_event(timeline) && before < timeline.frames()
}

/// Whether the position is later than `from`, and is one that the movement looks for: on a break
/// line, or after an event start. `before` is the number of frames before the last step, if there
/// was one.
pub fn has_met<T: Timeline>(
    timeline: &T,
    breaks: &BreakLines,
    target: Target,
    from: u64,
    before: usize,
) -> bool
    requires before { from < position (T.moment timeline.now)
        → before ≡ frames_before (T.moment timeline.now) }
    requires sound { AreSoundBreaks (T.moment timeline.now).input.program breaks.now }
    ensures { result ≡ (nat_lt from (position (T.moment timeline.now))
        && target_test (T.moment timeline.now).input breaks.now target
        (position (T.moment timeline.now))) }
{
    match target {
        Target::Nothing => false,
        Target::BreakLine => stands_on_break(timeline, breaks) && from < timeline.position(),
        Target::EventStart => from < timeline.position() && is_behind_start(timeline, before),
    }
}

/// Whether a movement from position `from` stops here; `before` as at [`has_met`].
fn is_at_stop<T: Timeline>(
    timeline: &T,
    breaks: &BreakLines,
    condition: StopCondition,
    from: u64,
    before: usize,
) -> bool
    requires before { from < position (T.moment timeline.now)
        → before ≡ frames_before (T.moment timeline.now) }
    requires sound { AreSoundBreaks (T.moment timeline.now).input.program breaks.now }
    ensures { result ≡ is_stop (T.moment timeline.now).input
        (condition_of (T.moment timeline.now).input breaks.now condition) from
        (position (T.moment timeline.now)) }
{
    !is_ready_now(timeline)
        || has_come(timeline, condition.time)
        || has_met(timeline, breaks, condition.target, from, before)
}

/// One step from a state that is ready and not the last. Gives the number of frames before it.
#[tactic(auto, using(crate::proofs::Starts::before_step))]
#[inline(always)]
fn step_once<T: StepReady>(timeline: &mut T) -> Result<usize, AllocError>
    requires ready { is_ready_at (T.moment timeline.old).input (position (T.moment timeline.old))
        ≡ true }
    requires before_last { position (T.moment timeline.old) < LAST_POSITION }
    ensures moved { OnOk result (T.moment timeline.new
        ≡ with_kept (T.moment timeline.old) ((T.moment timeline.old).kept + 1)) }
    ensures before { IfOk result (λ before. before ≡ frames_before (T.moment timeline.new)) }
    ensures err { OnErr result (T.moment timeline.new ≡ T.moment timeline.old) }
{
    let frames = timeline.frames();
    timeline.step_ready()?;
    Ok(frames)
}

/// Steps to the least later position at which the condition is met or the status isn't ready,
/// within the bound and not past the last position. Gives the number of frames before the last
/// step, if there was one.
///
/// `AllocError` if a step was refused memory: the position is that to which the steps before it
/// led.
#[tactic(auto, using(crate::proofs::Moves::end_of_step))]
pub fn forward<T: StepReady>(
    timeline: &mut T,
    breaks: &BreakLines,
    condition: StopCondition,
    bound: u64,
) -> Result<usize, AllocError>
    requires sound { AreSoundBreaks (T.moment timeline.old).input.program breaks.now }
    ensures ok { OnOk result (IsAt (T.moment timeline.old)
        (stop_end (T.moment timeline.old) breaks.now condition bound) (T.moment timeline.new)) }
    ensures before { IfOk result (λ before.
        position (T.moment timeline.old) < position (T.moment timeline.new)
        → before ≡ frames_before (T.moment timeline.new)) }
    ensures memory { OnErr result (IsBetween (T.moment timeline.old)
        (stop_end (T.moment timeline.old) breaks.now condition bound) (T.moment timeline.new)) }
{
    if stops_nowhere(breaks, condition) {
        return forward_on(timeline, bound);
    }
    forward_to_stop(timeline, breaks, condition, bound)
}

/// Whether only its bound and the status end a movement: it names no time, and looks for nothing,
/// or for break lines when there are none.
fn stops_nowhere(breaks: &BreakLines, condition: StopCondition) -> bool
    ensures { IsTrue result → (input : Input) → (p q : ℕ) →
        is_stop input (condition_of input breaks.now condition) p q
        ≡ is_stop input step_condition p q }
{
    let finds_nothing = match condition.target {
        Target::Nothing => true,
        Target::BreakLine => breaks.is_empty(),
        Target::EventStart => false,
    };
    condition.time.is_none() && finds_nothing
}

/// Steps until the status isn't ready, within the bound and not past the last position: as
/// [`forward`] with a condition that stops nowhere.
#[tactic(auto, using(crate::proofs::Moves::least_steps))]
fn forward_on<T: StepReady>(timeline: &mut T, bound: u64) -> Result<usize, AllocError>
    ensures ok { OnOk result (IsAt (T.moment timeline.old)
        (step_end (T.moment timeline.old) bound) (T.moment timeline.new)) }
    ensures before { IfOk result (λ before.
        position (T.moment timeline.old) < position (T.moment timeline.new)
        → before ≡ frames_before (T.moment timeline.new)) }
    ensures memory { OnErr result (IsBetween (T.moment timeline.old)
        (step_end (T.moment timeline.old) bound) (T.moment timeline.new)) }
{
    let most = bound.min(LAST_POSITION - timeline.position());
    let mut before = 0;
    for _k in 0..most {
        if !is_ready_now(timeline) {
            return Ok(before);
        }
        before = step_once(timeline)?;
    }
    Ok(before)
}

/// Steps as [`forward_on`] does, with a test of the condition before each step.
#[tactic(auto, using(crate::proofs::Moves::least_steps, crate::proofs::Timelines::sound_on))]
fn forward_to_stop<T: StepReady>(
    timeline: &mut T,
    breaks: &BreakLines,
    condition: StopCondition,
    bound: u64,
) -> Result<usize, AllocError>
    requires sound { AreSoundBreaks (T.moment timeline.old).input.program breaks.now }
    ensures ok { OnOk result (IsAt (T.moment timeline.old)
        (stop_end (T.moment timeline.old) breaks.now condition bound) (T.moment timeline.new)) }
    ensures before { IfOk result (λ before.
        position (T.moment timeline.old) < position (T.moment timeline.new)
        → before ≡ frames_before (T.moment timeline.new)) }
    ensures memory { OnErr result (IsBetween (T.moment timeline.old)
        (stop_end (T.moment timeline.old) breaks.now condition bound) (T.moment timeline.new)) }
{
    let from = timeline.position();
    let steps = bound.min(LAST_POSITION - from);
    let mut before = 0;
    for _k in 0..steps {
        if is_at_stop(timeline, breaks, condition, from, before) {
            return Ok(before);
        }
        before = step_once(timeline)?;
    }
    Ok(before)
}

/// BACK: steps back a number of times, or to the earliest kept position.
pub fn back<T: Timeline>(timeline: &mut T, count: u64)
    ensures { IsAt (T.moment timeline.old) (back_end (T.moment timeline.old).low
        (position (T.moment timeline.old)) count) (T.moment timeline.new) }
{
    for _k in 0..count {
        if !timeline.back() {
            return;
        }
    }
}

/// Whether BACK BREAK stops here, after k steps.
fn is_at_back_stop<T: Timeline>(timeline: &T, breaks: &BreakLines, k: u64) -> bool
    requires sound { AreSoundBreaks (T.moment timeline.now).input.program breaks.now }
    ensures { result ≡ (nat_lt 0 k && is_on_break (T.moment timeline.now).input breaks.now
        (position (T.moment timeline.now))) }
{
    0 < k && stands_on_break(timeline, breaks)
}

/// BACK BREAK: steps back to the greatest earlier position at a break line, or to the earliest kept
/// position, within the bound.
#[tactic(auto, using(crate::proofs::Moves::search_back_is, crate::proofs::Timelines::sound_on))]
pub fn back_break<T: Timeline>(timeline: &mut T, breaks: &BreakLines, bound: u64)
    requires sound { AreSoundBreaks (T.moment timeline.old).input.program breaks.now }
    ensures { IsAt (T.moment timeline.old)
        (search_end (is_on_break (T.moment timeline.old).input breaks.now)
        (T.moment timeline.old) bound) (T.moment timeline.new) }
{
    for k in 0..bound {
        if is_at_back_stop(timeline, breaks, k) {
            return;
        }
        if !timeline.back() {
            return;
        }
    }
}

/// One step back, if one is kept. Says whether the step that was taken back was an event start.
#[tactic(auto, using(crate::proofs::Starts::taken_back))]
fn back_once<T: Timeline>(timeline: &mut T) -> Option<bool>
    ensures { MatchOption result
        (((T.moment timeline.old).kept ≡ 0) × (T.moment timeline.new ≡ T.moment timeline.old))
        (λ started. HasGoneBack (T.moment timeline.old) (T.moment timeline.new)
        × (started ≡ starts_event (T.moment timeline.old).input
        (position (T.moment timeline.new)))) }
{
    let frames = timeline.frames();
    let is_event = runs_event(timeline);
    if !timeline.back() {
        return None;
    }
    Some(is_event && timeline.frames() < frames)
}

/// BACK EVENT: steps back to the greatest earlier position whose next step is an event start, or to
/// the earliest kept position, within the bound. Says whether the next step is an event start
/// there.
#[tactic(auto, using(crate::proofs::Moves::search_back_is))]
pub fn back_event<T: Timeline>(timeline: &mut T, bound: u64) -> bool
    ensures place { IsAt (T.moment timeline.old)
        (search_end (starts_event (T.moment timeline.old).input) (T.moment timeline.old) bound)
        (T.moment timeline.new) }
    ensures met { result
        ≡ (nat_lt (position (T.moment timeline.new)) (position (T.moment timeline.old))
        && starts_event (T.moment timeline.old).input (position (T.moment timeline.new))) }
{
    let mut started = false;
    for _k in 0..bound {
        if started {
            return true;
        }
        match back_once(timeline) {
            None => return false,
            Some(is_start) => started = is_start,
        }
    }
    started
}
