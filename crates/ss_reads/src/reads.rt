//! What the statement that runs next looks at.
ghost use Rattle.std.specs.Prelude.{◌≡◌, IfOk};
ghost use Rattle.ss_reads.specs.Reads.{written_reads};

use crate::places::see_place;
use crate::read::Read;
use crate::scene::Scene;
use ss_links::SetBoard;
use ss_machine::Machine;
use std::alloc::{AllocError, Global};

/// What the text of the statement that runs next, or that faulted, names as values, as it is
/// written. `AllocError` if memory was refused.
#[tactic(auto, using(crate::proofs::Statements::place_here))]
pub fn written_reads<S: SetBoard>(
    alloc: Global,
    machine: &Machine<S>,
) -> Result<Vec<Read>, AllocError>
    ensures { IfOk result (λ reads. reads.items
        ≡ written_reads machine.now.input.program machine.now.state) }
{
    machine.known();
    let program = machine.program();
    program.known();
    let (section, place) = machine.place();
    let mut reads = Vec::new(alloc);
    let scene = Scene {
        machine,
        given: None,
    };
    see_place(&scene, &mut reads, &program.spot(section, place).place)?;
    Ok(reads)
}
