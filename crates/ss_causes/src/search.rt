//! The search for a cause, step by step back.
ghost use Rattle.std.specs.Prelude.{◌≡◌, ◌<◌, ◌&&◌, not, IfSome};
ghost use Rattle.std.specs.Option.{option_map};
ghost use Rattle.ss_events.specs.Agenda.{is_pending};
ghost use Rattle.ss_events.specs.Slots.{slot_of};
ghost use Rattle.ss_machine.specs.Moment.{position};
ghost use Rattle.ss_trace.specs.Movements.{is_outside};
ghost use Rattle.ss_trace.specs.View.{HasLookedBack};
ghost use Rattle.ss_causes.specs.Causes.{newest_where, notice_started, scheduling, cause_of_event, cause_at};
ghost use Rattle.ss_causes.specs.View.{IsAtCause};

use crate::cause::Cause;
use crate::walk::runs_event;
use ss_debug::Debugger;
use ss_events::Slot;
use ss_links::SetBoard;

/// Whether a notice is pending.
fn is_pending<S: SetBoard>(debugger: &Debugger<S>, notice: u32) -> bool
    requires { 0 < notice }
    ensures { result ≡ is_pending debugger.now.machine.state.agenda notice }
{
    debugger.machine().agenda().slot(notice).is_some()
}

/// Whether a step makes a notice pending, by whether it is pending before and after.
fn becomes_pending(before: bool, after: bool) -> bool
    ensures { result ≡ (not before && after) }
{
    !before && after
}

/// The notice whose event the next step starts, with its time and its class: the first of those that
/// are pending, if there is one.
fn notice_started<S: SetBoard>(debugger: &Debugger<S>) -> Option<(u32, Slot)>
    ensures notice { result ≡ option_map (λ e. (e.notice, slot_of e))
        (notice_started debugger.now.machine.input (position debugger.now.machine)) }
    ensures number { IfSome result (λ r. 0 < r.0) }
{
    let machine = debugger.machine();
    machine.known();
    let agenda = machine.agenda();
    agenda.known();
    let notice = agenda.next()?;
    let slot = agenda.slot(notice)?;
    Some((notice, slot))
}

/// Goes back to the newest earlier state with fewer frames than this number, if it is kept, and else
/// to the earliest kept one. Gives the position of the former. It takes no memory.
fn back_to_opening<S: SetBoard>(debugger: &mut Debugger<S>, frames: usize) -> Option<u64>
    ensures gone { HasLookedBack debugger.old debugger.new }
    ensures found { result ≡ newest_where (is_outside debugger.old.machine.input frames)
        debugger.old.machine.forgotten (position debugger.old.machine) }
    ensures place { IfSome result (λ q. position debugger.new.machine ≡ q) }
{
    while debugger.step_back() {
        let machine = debugger.machine();
        machine.known();
        if machine.frames() < frames {
            return Some(machine.position());
        }
    }
    None
}

/// Goes back to the newest earlier step that made a notice pending, if it is kept, and else to the
/// earliest kept state. Gives the position of the former. It takes no memory.
fn back_to_scheduling<S: SetBoard>(debugger: &mut Debugger<S>, notice: u32) -> Option<u64>
    requires { 0 < notice }
    ensures gone { HasLookedBack debugger.old debugger.new }
    ensures found { result ≡ scheduling debugger.old.machine.input notice
        debugger.old.machine.forgotten (position debugger.old.machine) }
    ensures place { IfSome result (λ q. position debugger.new.machine ≡ q) }
{
    debugger.machine().known();
    let mut after = is_pending(debugger, notice);
    while debugger.step_back() {
        debugger.machine().known();
        let before = is_pending(debugger, notice);
        if becomes_pending(before, after) {
            return Some(debugger.machine().position());
        }
        after = before;
    }
    None
}

/// Goes back to the cause of the event that the next step starts, if it is kept.
fn back_to_event_cause<S: SetBoard>(debugger: &mut Debugger<S>) -> Cause
    ensures gone { HasLookedBack debugger.old debugger.new }
    ensures cause { result ≡ cause_of_event debugger.old.machine.input
        debugger.old.machine.forgotten (position debugger.old.machine)
        (notice_started debugger.old.machine.input (position debugger.old.machine)) }
    ensures place { IsAtCause result debugger.new }
{
    let Some((notice, slot)) = notice_started(debugger) else {
        // Never met: an event that starts has a notice.
        return Cause::NotKept;
    };
    match back_to_scheduling(debugger, notice) {
        Some(step) => Cause::Scheduled { step, notice, slot },
        None => Cause::NotKept,
    }
}

/// Goes back to what brought the last frame about, and gives it. If it is the start of the run, the
/// debugger stays; if it is not kept, the debugger is at a kept state. It takes no memory.
pub(crate) fn back_to_cause<S: SetBoard>(debugger: &mut Debugger<S>) -> Cause
    ensures gone { HasLookedBack debugger.old debugger.new }
    ensures cause { result ≡ cause_at debugger.old.machine.input debugger.old.machine.forgotten
        (position debugger.old.machine) }
    ensures place { IsAtCause result debugger.new }
{
    debugger.machine().known();
    let frames = debugger.machine().frames();
    if frames == 1 {
        return Cause::Start;
    }
    let is_event = runs_event(debugger);
    match back_to_opening(debugger, frames) {
        None => Cause::NotKept,
        Some(_) if is_event => back_to_event_cause(debugger),
        Some(step) => Cause::Called(step),
    }
}
