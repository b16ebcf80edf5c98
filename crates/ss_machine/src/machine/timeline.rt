//! A machine is a run that is walked forwards and backwards.
use crate::machine::Machine;
use ss_links::SetBoard;
use ss_program::{Condition, Expr, Index, Program, Variable};
use ss_state::{Entry, Status, Stepped};
use ss_timeline::Timeline;
use ss_words::RunFault;
use std::alloc::AllocError;

impl<S: SetBoard> Timeline for Machine<S> {
    ghost use Rattle.ss_machine.specs.Moment.{moment_of};

    ghost moment = { moment_of };

    fn position(&self) -> u64 {
        self.known();
        Machine::position(self)
    }

    fn kept(&self) -> u64 {
        Machine::kept(self)
    }

    fn program(&self) -> &Program {
        Machine::program(self)
    }

    fn status(&self) -> Status {
        self.known();
        Machine::status(self)
    }

    fn clock(&self) -> i64 {
        self.known();
        Machine::clock(self)
    }

    fn entry(&self) -> Entry {
        self.known();
        Machine::entry(self)
    }

    fn taken(&self) -> usize {
        self.known();
        Machine::taken(self)
    }

    fn report(&self) -> &[u8] {
        self.known();
        Machine::report(self)
    }

    fn variable(&self, of: Variable) -> i64 {
        self.known();
        Machine::variable(self, of)
    }

    fn frames(&self) -> usize {
        self.known();
        Machine::frames(self)
    }

    fn place(&self) -> (usize, usize) {
        self.known();
        Machine::place(self)
    }

    fn frame_place(&self, depth: usize) -> Option<(usize, usize)> {
        self.known();
        Machine::frame_place(self, depth)
    }

    fn frame_local(&self, depth: usize, number: usize) -> Option<i64> {
        self.known();
        Machine::frame_local(self, depth, number)
    }

    fn value_in(&self, depth: usize, e: &Expr) -> Option<Result<i64, RunFault>> {
        self.known();
        Machine::value_in(self, depth, e)
    }

    fn truth_in(&self, depth: usize, c: &Condition) -> Option<Result<bool, RunFault>> {
        self.known();
        Machine::truth_in(self, depth, c)
    }

    fn subscript_in(&self, depth: usize, index: &Index) -> Option<Result<i64, RunFault>> {
        self.known();
        Machine::subscript_in(self, depth, index)
    }

    #[tactic(auto, using(crate::proofs::Timelines::steps_on, crate::proofs::Timelines::ends_on))]
    fn step(&mut self) -> Result<Stepped, AllocError> {
        self.known();
        Machine::step(self)
    }

    #[tactic(auto, using(crate::proofs::Timelines::goes_back))]
    fn back(&mut self) -> bool {
        self.known();
        let is_back = Machine::back(self);
        self.known();
        is_back
    }

    #[tactic(auto, using(crate::proofs::Timelines::forgets))]
    fn forget(&mut self, n: u64) {
        Machine::forget(self, n);
    }
}
