//! The value of a reading, followed from state to state.
ghost use Rattle.std.specs.Prelude.{◌≡◌, ◌+◌, ◌-◌, ◌<◌, ◌≤◌, ◌&&◌, IfOk, OnOk, nat_le, not, true};
ghost use Rattle.ss_machine.specs.Moment.{position};
ghost use Rattle.ss_readings.specs.Value as values;
ghost use Rattle.ss_readings.specs.ValueView.{value_if};
ghost use Rattle.ss_readings.specs.Seen.{frame_count, value_in_frame, changes_in};
ghost use Rattle.ss_readings.specs.Followed.{IsFollowed};

use crate::reading::Reading;
use crate::value::{Value, is_same};
use ss_debug::Debugger;
use ss_links::SetBoard;
use ss_machine::Machine;
use std::alloc::AllocError;
use std::mem::replace;

/// The value of a reading that was asked at a position, in the present state.
#[derive(Drop)]
pub struct Followed {
    /// The position at which it was asked.
    pub asked: u64,
    /// How many frames there were.
    pub frames: usize,
    /// Whether the last of them is still open.
    pub is_open: bool,
    /// The value in the present state.
    pub value: Option<Value>,
    /// The value in the state before this one.
    pub passed: Option<Value>,
}

/// The value in a machine's present state of a reading that was asked in frame number `frames`,
/// which is open or not.
fn value_in_frame<S: SetBoard, R: Reading>(
    machine: &Machine<S>,
    reading: &R,
    frames: usize,
    is_open: bool,
) -> Result<Option<Value>, AllocError>
    requires suits { R.suits reading.now machine.now.input.program }
    requires opened { is_open ≡ true → frames ≤ frame_count machine.now.state }
    ensures { IfOk result (λ value. value_if value
        ≡ value_in_frame (R.subject reading.now machine.now.input.program) machine.now.state frames
        is_open) }
{
    if !reading.is_local() {
        return reading.value(machine, 0);
    }
    if !is_open {
        return Ok(None);
    }
    reading.value(machine, machine.frames() - frames)
}

impl Followed {
    /// The value of a reading that is asked in the debugger's present state. `AllocError` if memory
    /// was refused.
    #[tactic(auto, using(crate::proofs::Seeing::open_here, crate::proofs::Seeing::seen_there))]
    pub fn new<S: SetBoard, R: Reading>(
        debugger: &Debugger<S>,
        reading: &R,
    ) -> Result<Self, AllocError>
        requires { R.suits reading.now debugger.now.machine.input.program }
        ensures asked { IfOk result (λ f. f.asked ≡ position debugger.now.machine) }
        ensures followed { IfOk result (λ f. IsFollowed debugger.now.machine.input
            (R.subject reading.now debugger.now.machine.input.program)
            (position debugger.now.machine) f) }
    {
        let machine = debugger.machine();
        machine.known();
        let frames = machine.frames();
        let value = value_in_frame(machine, reading, frames, true)?;
        Ok(Followed {
            asked: machine.position(),
            frames,
            is_open: true,
            value,
            passed: None,
        })
    }

    /// Reads the value in a machine's present state, which is next to the one before, and says
    /// whether it is another one.
    fn read<S: SetBoard, R: Reading>(
        &mut self,
        machine: &Machine<S>,
        reading: &R,
    ) -> Result<bool, AllocError>
        requires { R.suits reading.now machine.now.input.program }
        ensures asked { self.new.asked ≡ self.old.asked }
        ensures frames { self.new.frames ≡ self.old.frames }
        ensures opened { self.new.is_open
            ≡ (self.old.is_open && nat_le self.old.frames (frame_count machine.now.state)) }
        ensures passed { OnOk result (self.new.passed ≡ self.old.value) }
        ensures value { OnOk result (value_if self.new.value
            ≡ value_in_frame (R.subject reading.now machine.now.input.program) machine.now.state
            self.old.frames self.new.is_open) }
        ensures changed { IfOk result (λ changed. changed
            ≡ not (values.is_same (value_if self.old.value) (value_if self.new.value))) }
    {
        self.is_open = self.is_open && self.frames <= machine.frames();
        let value = value_in_frame(machine, reading, self.frames, self.is_open)?;
        self.passed = replace(&mut self.value, value);
        Ok(!is_same(&self.passed, &self.value))
    }

    /// Follows a reading over the step forward that led to the debugger's present state, and says
    /// whether it changed there. `AllocError` if memory was refused; then nothing is said of its
    /// value.
    #[tactic(auto, using(crate::proofs::Seeing::open_on, crate::proofs::Seeing::seen_there, crate::proofs::Seeing::changed_between))]
    pub fn follow_on<S: SetBoard, R: Reading>(
        &mut self,
        debugger: &Debugger<S>,
        reading: &R,
    ) -> Result<bool, AllocError>
        requires suits { R.suits reading.now debugger.now.machine.input.program }
        requires later { self.old.asked < position debugger.now.machine }
        requires followed { IsFollowed debugger.now.machine.input
            (R.subject reading.now debugger.now.machine.input.program)
            (position debugger.now.machine - 1) self.old }
        ensures asked { self.new.asked ≡ self.old.asked }
        ensures followed { OnOk result (IsFollowed debugger.now.machine.input
            (R.subject reading.now debugger.now.machine.input.program)
            (position debugger.now.machine) self.new) }
        ensures changed { IfOk result (λ changed. changed ≡ changes_in debugger.now.machine.input
            (R.subject reading.now debugger.now.machine.input.program) self.old.asked
            (position debugger.now.machine - 1)) }
    {
        let machine = debugger.machine();
        machine.known();
        self.read(machine, reading)
    }

    /// Follows a reading over the step back that led to the debugger's present state, and says
    /// whether it changes in the step from there. `AllocError` if memory was refused; then nothing
    /// is said of its value.
    #[tactic(auto, using(crate::proofs::Seeing::open_back, crate::proofs::Seeing::seen_there, crate::proofs::Seeing::changed_back))]
    pub fn follow_back<S: SetBoard, R: Reading>(
        &mut self,
        debugger: &Debugger<S>,
        reading: &R,
    ) -> Result<bool, AllocError>
        requires suits { R.suits reading.now debugger.now.machine.input.program }
        requires earlier { position debugger.now.machine < self.old.asked }
        requires followed { IsFollowed debugger.now.machine.input
            (R.subject reading.now debugger.now.machine.input.program)
            (position debugger.now.machine + 1) self.old }
        ensures asked { self.new.asked ≡ self.old.asked }
        ensures followed { OnOk result (IsFollowed debugger.now.machine.input
            (R.subject reading.now debugger.now.machine.input.program)
            (position debugger.now.machine) self.new) }
        ensures passed { OnOk result (self.new.passed ≡ self.old.value) }
        ensures changed { IfOk result (λ changed. changed ≡ changes_in debugger.now.machine.input
            (R.subject reading.now debugger.now.machine.input.program) self.old.asked
            (position debugger.now.machine)) }
    {
        let machine = debugger.machine();
        machine.known();
        self.read(machine, reading)
    }
}
