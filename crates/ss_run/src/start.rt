//! The start of a whole run.
ghost use Rattle.std.specs.Prelude.{◌≡◌, [], IfOk};
ghost use Rattle.ss_state.specs.Run.{input_with, run};

use ss_links::LinkedSets;
use ss_machine::Machine;
use ss_program::Program;
use ss_session::machine;
use std::alloc::{AllocError, Global};

/// The machine at the start of a program's run over its data, on boards of linked nodes.
pub(crate) fn linked_machine(
    alloc: Global,
    program: Program,
    data_text: &[u8],
) -> Result<Machine<LinkedSets>, AllocError>
    ensures input { IfOk result (λ machine. machine.input ≡ input_with program data_text.now) }
    ensures state { IfOk result (λ machine. machine.state ≡ run machine.input 0) }
    ensures steps { IfOk result (λ machine. machine.steps ≡ []) }
    ensures forgotten { IfOk result (λ machine. machine.forgotten ≡ 0) }
{
    let (sets, pending) = (LinkedSets::new(alloc), LinkedSets::new(alloc));
    machine(alloc, program, data_text, sets, pending)
}
