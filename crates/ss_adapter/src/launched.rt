//! A run that was launched.
ghost use Rattle.std.specs.Prelude.{◌≡◌, ◌+◌, ◌-◌, ◌^◌, ◌<◌, IfOk, OnOk};
ghost use Rattle.ss_check.specs.Asked.{IsSymbolsOf};
ghost use Rattle.ss_messages.specs.Messages.{posted_all};
ghost use Rattle.ss_adapter.specs.Turn.{adapter_state_of, answers, state_after, further_of};

use crate::desk::Desk;
use crate::turns::{Further, turn};
use ss_debug::Debugger;
use ss_links::LinkedSets;
use ss_messages::{Post, Request};
use ss_program::Program;
use std::alloc::AllocError;
use std::marker::Model;

/// A run that was launched: its debugger, and the desk of the adapter. The symbol table on the desk is
/// that of the run's program.
#[derive(Drop)]
pub struct Launched {
    debugger: Debugger<LinkedSets>,
    desk: Desk,
}

impl Model for Launched {
    ghost use Rattle.std.specs.Coded.{codes};
    ghost use Rattle.ss_check.specs.Asked.{IsSymbolsOf};
    ghost use Rattle.ss_debug.specs.contracts.break_condition.BreakCondition as one;
    ghost use Rattle.ss_program.specs.contracts.program.Program as checked;
    ghost use Rattle.ss_adapter.specs.Turn.{AdapterState, adapter_state_of};

    ghost Value = { AdapterState };

    ghost coded = { Prim.hlevel (codes, checked.the_row.coded, one.the_row.coded) };

    ghost view = { λ r. adapter_state_of r.debugger r.desk };

    ghost invariant = { λ r. IsSymbolsOf r.debugger.machine.input.program r.desk.symbols };
}

impl Launched {
    /// A run with this debugger and this desk.
    pub(crate) fn new(debugger: Debugger<LinkedSets>, desk: Desk) -> Self
        requires { IsSymbolsOf debugger.machine.input.program desk.symbols }
        ensures { result ≡ adapter_state_of debugger desk }
    {
        Launched { debugger, desk }
    }

    /// The path of its model.
    pub fn path(&self) -> &[u8]
        ensures { result.now ≡ self.now.desk.path }
    {
        self.desk.path()
    }

    /// The program of its model.
    pub(crate) fn program(&self) -> &Program
        ensures { result.now ≡ self.now.input.program }
    {
        self.debugger.machine().program()
    }

    /// One turn: obeys a request, and posts its reply and the events that follow it.
    ///
    /// `AllocError` if memory was refused: the run is the same one, and the posted messages are not
    /// known.
    pub fn turn(&mut self, request: &Request, post: &mut Post) -> Result<Further, AllocError>
        requires { post.old.sent + 3 < 2 ^ 64 - 1 }
        ensures input { self.new.input ≡ self.old.input }
        ensures sent { OnOk result (post.new ≡ posted_all request.now post.old
            (answers self.old request.now.command)) }
        ensures state { OnOk result (self.new ≡ state_after self.old request.now.command) }
        ensures further { IfOk result (λ further. further ≡ further_of request.now.command) }
    {
        turn(&mut self.debugger, &mut self.desk, request, post)
    }

    /// Lets the run go.
    pub fn end(self) {
        let Launched { debugger, desk } = self;
        drop(desk);
        debugger.end();
    }
}
