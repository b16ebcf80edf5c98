//! The answers of movements, and the state line, which describes the present state of a run.
ghost use Rattle.std.specs.Prelude.{◌≡◌, ◌++◌, ◌<◌, ◌≤◌, ◌&&◌, codes, nat_lt, nat_eq, if◌then◌else◌, OnOk, IfOk};
ghost use Rattle.ss_timeline.specs.Moment.{position};
ghost use Rattle.ss_debug.specs.Answer.{status_text, moment_text, place_text, state_line, movement_text};
ghost use Rattle.ss_debug.specs.Answer.{forward_word, back_word, search_back_word, earliest_word};
ghost use Rattle.ss_debug.specs.BreakLines.{AreSoundBreaks};
ghost use Rattle.ss_debug.specs.Move.{is_on_break, starts_event};
ghost use Rattle.ss_debug.specs.Position.{frames_before};
ghost use Rattle.ss_debug.specs.View.{condition_of, target_word, target_bound_word};

use crate::break_lines::BreakLines;
use crate::movement::{has_come, has_met, is_ready_now, place, present_line, stands_on_break};
use crate::stop_condition::{StopCondition, Target};
use crate::text::{push_integer, push_number};
use ss_state::Status;
use ss_timeline::Timeline;
use std::alloc::{AllocError, Global};

/// Appends the word of a status.
fn push_status(text: &mut Vec<u8>, status: Status) -> Result<(), AllocError>
    ensures ok { OnOk result (text.new.items ≡ text.old.items ++ status_text status) }
{
    match status {
        Status::Ready => text.extend_from_slice(b"READY"),
        Status::Stopped => text.extend_from_slice(b"STOPPED"),
        Status::Finished => text.extend_from_slice(b"FINISHED"),
        Status::Faulted(fault) => {
            text.extend_from_slice(b"FAULT F")?;
            push_number(text, u64::from(fault.number()))
        }
    }
}

/// Appends the position, the clock and the status.
#[tactic(auto, unfolding(crate::specs::Answer::moment_text))]
pub fn push_moment<T: Timeline>(text: &mut Vec<u8>, timeline: &T) -> Result<(), AllocError>
    ensures ok { OnOk result (text.new.items ≡ text.old.items
        ++ moment_text (T.moment timeline.now).input (position (T.moment timeline.now))) }
{
    text.extend_from_slice(b"STATE ")?;
    push_number(text, timeline.position())?;
    text.extend_from_slice(b" CLOCK ")?;
    push_integer(text, timeline.clock())?;
    text.extend_from_slice(b" ")?;
    push_status(text, timeline.status())
}

/// Appends the section and the line of the present place.
#[tactic(auto, unfolding(crate::specs::Answer::place_text))]
pub fn push_place<T: Timeline>(text: &mut Vec<u8>, timeline: &T) -> Result<(), AllocError>
    ensures ok { OnOk result (text.new.items ≡ text.old.items
        ++ place_text (T.moment timeline.now).input (position (T.moment timeline.now))) }
{
    let (section, _) = place(timeline);
    text.extend_from_slice(b" IN ")?;
    text.extend_from_slice(&timeline.program().section(section).name.bytes)?;
    text.extend_from_slice(b" LINE ")?;
    push_number(text, present_line(timeline) as u64)
}

/// Appends the state line of the present state.
#[tactic(auto, unfolding(crate::specs::Answer::state_line))]
pub fn push_state_line<T: Timeline>(text: &mut Vec<u8>, timeline: &T) -> Result<(), AllocError>
    ensures ok { OnOk result (text.new.items ≡ text.old.items
        ++ state_line (T.moment timeline.now).input (position (T.moment timeline.now))) }
{
    push_moment(text, timeline)?;
    push_place(text, timeline)?;
    text.extend_from_slice(b"\n")
}

/// The answer of a movement: its word, and the state line of the state that it reached.
#[tactic(auto, unfolding(crate::specs::Answer::movement_text))]
pub fn movement_text<T: Timeline>(
    alloc: Global,
    word: &[u8],
    timeline: &T,
) -> Result<Vec<u8>, AllocError>
    ensures { IfOk result (λ text. text.items ≡ movement_text word.now
        (T.moment timeline.now).input (position (T.moment timeline.now))) }
{
    let mut text = Vec::from_slice(alloc, word)?;
    text.extend_from_slice(b": ")?;
    push_state_line(&mut text, timeline)?;
    Ok(text)
}

/// The word if the state that a movement looks for is found.
fn target_word(target: Target) -> &'static [u8]
    ensures { result.now ≡ target_word target }
{
    match target {
        Target::Nothing => b"DONE",
        Target::BreakLine => b"BREAK",
        Target::EventStart => b"EVENT",
    }
}

/// The word if all steps were made.
fn target_bound_word(target: Target) -> &'static [u8]
    ensures { result.now ≡ target_bound_word target }
{
    match target {
        Target::Nothing => b"DONE",
        Target::BreakLine | Target::EventStart => b"BOUND",
    }
}

/// The word of a forward movement of at most `bound` steps that began at `from` and ended at the
/// present position; `before` is the number of frames before the last step, if there was one.
pub fn forward_word<T: Timeline>(
    timeline: &T,
    breaks: &BreakLines,
    condition: StopCondition,
    from: u64,
    bound: u64,
    before: usize,
) -> &'static [u8]
    requires from { from ≤ position (T.moment timeline.now) }
    requires before { from < position (T.moment timeline.now)
        → before ≡ frames_before (T.moment timeline.now) }
    requires sound { AreSoundBreaks (T.moment timeline.now).input.program breaks.now }
    ensures { result.now ≡ forward_word (T.moment timeline.now).input
        (condition_of (T.moment timeline.now).input breaks.now condition) from bound
        (position (T.moment timeline.now)) }
{
    if !is_ready_now(timeline) {
        return b"HALTED";
    }
    if has_come(timeline, condition.time) {
        return b"TIME";
    }
    if has_met(timeline, breaks, condition.target, from, before) {
        return target_word(condition.target);
    }
    if timeline.position() - from == bound {
        return target_bound_word(condition.target);
    }
    b"BOUND"
}

/// The word at the earliest kept position.
fn earliest_word<T: Timeline>(timeline: &T) -> &'static [u8]
    ensures { result.now ≡ earliest_word (T.moment timeline.now).low }
{
    if timeline.position() == timeline.kept() {
        b"START"
    } else {
        b"NOTHING KEPT"
    }
}

/// The word of BACK by `count` from the present position.
pub fn back_word<T: Timeline>(timeline: &T, count: u64) -> &'static [u8]
    ensures { result.now ≡ back_word (T.moment timeline.now).low
        (position (T.moment timeline.now)) count }
{
    if timeline.kept() < count {
        return earliest_word(timeline);
    }
    b"DONE"
}

/// The word of a search back that found nothing.
fn earliest_or_bound<T: Timeline>(timeline: &T) -> &'static [u8]
    ensures { result.now
        ≡ (if nat_eq (position (T.moment timeline.now)) (T.moment timeline.now).low
        then earliest_word (T.moment timeline.now).low else codes "BOUND") }
{
    if timeline.kept() == 0 {
        return earliest_word(timeline);
    }
    b"BOUND"
}

/// The word of BACK BREAK, which began at `from` and ended at the present position.
pub fn back_break_word<T: Timeline>(timeline: &T, breaks: &BreakLines, from: u64) -> &'static [u8]
    requires sound { AreSoundBreaks (T.moment timeline.now).input.program breaks.now }
    ensures { result.now
        ≡ search_back_word (is_on_break (T.moment timeline.now).input breaks.now)
        (codes "BREAK") (T.moment timeline.now).low from (position (T.moment timeline.now)) }
{
    if timeline.position() < from && stands_on_break(timeline, breaks) {
        return b"BREAK";
    }
    earliest_or_bound(timeline)
}

/// The word of BACK EVENT, which began at `from` and ended at the present position. `is_met` says
/// whether that is earlier and the next step is an event start.
pub fn back_event_word<T: Timeline>(timeline: &T, from: u64, is_met: bool) -> &'static [u8]
    requires { is_met ≡ (nat_lt (position (T.moment timeline.now)) from
        && starts_event (T.moment timeline.now).input (position (T.moment timeline.now))) }
    ensures { result.now ≡ search_back_word (starts_event (T.moment timeline.now).input)
        (codes "EVENT") (T.moment timeline.now).low from (position (T.moment timeline.now)) }
{
    if is_met {
        return b"EVENT";
    }
    earliest_or_bound(timeline)
}
