//! What a question reads in a state.
use crate::value::Value;
use ss_links::SetBoard;
use ss_machine::Machine;
use std::alloc::AllocError;

/// What a question reads in a state of a run: it has a value there, or none. The value may want
/// memory.
pub trait Reading {
    ghost use Rattle.std.specs.Prelude.{◌≡◌, IfOk};
    ghost use Rattle.ss_program.specs.Program.{ProgramTable};
    ghost use Rattle.ss_readings.specs.Subject.{Subject};
    ghost use Rattle.ss_readings.specs.ValueView.{value_if};

    // whether it is one for the runs of a program: what it names is the program's
    ghost suits: { Self → ProgramTable → Type 0 };

    // what it is about in the runs of a program
    ghost subject: { Self → ProgramTable → Subject };

    /// Whether it names a local variable of its section.
    fn is_local(&self) -> bool
        ensures { (program : ProgramTable) → result ≡ (subject self.now program).local };

    /// Its value in the machine's present state, read in the frame with `depth` others above it.
    /// `AllocError` if memory was refused.
    fn value<S: SetBoard>(
        &self,
        machine: &Machine<S>,
        depth: usize,
    ) -> Result<Option<Value>, AllocError>
        requires { suits self.now machine.now.input.program }
        ensures { IfOk result (λ value. value_if value
            ≡ (subject self.now machine.now.input.program).value machine.now.state depth) };
}
