//! The answer to SHOW ENTRY.
ghost use Rattle.std.specs.Prelude.{◌≡◌, ◌++◌, codes, decimal, OnOk, IfOk};
ghost use Rattle.ss_program.specs.Program.{class_of};
ghost use Rattle.ss_machine.specs.Moment.{position};
ghost use Rattle.ss_debug.specs.Answer.{entry_value, entry_text};

use crate::text::push_number;
use ss_links::SetBoard;
use ss_machine::Machine;
use ss_program::Program;
use ss_state::Entry;
use std::alloc::{AllocError, Global};

/// Appends an entry of this class with this notice, and the text that says its state.
fn push_entered(
    text: &mut Vec<u8>,
    program: &Program,
    class: usize,
    notice: u32,
    what: &[u8],
) -> Result<(), AllocError>
    ensures { OnOk result (text.new.items ≡ text.old.items ++ (class_of program.now class).name
        ++ codes " " ++ decimal notice ++ what.now) }
{
    text.extend_from_slice(program.class_name(class))?;
    text.extend_from_slice(b" ")?;
    push_number(text, u64::from(notice))?;
    text.extend_from_slice(what)
}

/// Appends the class of an entry, the reference of its notice, and whether it waits or its event
/// runs; `NONE` if there is no entry.
///
/// `AllocError` if a growth was refused; then the appended bytes do not count.
pub fn push_entry(text: &mut Vec<u8>, program: &Program, entry: Entry) -> Result<(), AllocError>
    ensures { OnOk result (text.new.items ≡ text.old.items ++ entry_value program.now entry) }
{
    match entry {
        Entry::Absent => text.extend_from_slice(b"NONE"),
        Entry::Waiting { class, notice } => push_entered(text, program, class, notice, b" WAITING"),
        Entry::Running { class, notice } => push_entered(text, program, class, notice, b" RUNNING"),
    }
}

/// The entry of an external event, and whether it waits or runs, or `ENTRY NONE`.
#[tactic(auto, unfolding(crate::specs::Answer::entry_text))]
pub fn entry_text<S: SetBoard>(alloc: Global, machine: &Machine<S>) -> Result<Vec<u8>, AllocError>
    ensures { IfOk result (λ text. text.items
        ≡ entry_text machine.now.input (position machine.now)) }
{
    machine.known();
    let mut text = Vec::from_slice(alloc, b"ENTRY ")?;
    push_entry(&mut text, machine.program(), machine.entry())?;
    text.extend_from_slice(b"\n")?;
    Ok(text)
}
