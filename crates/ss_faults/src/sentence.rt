//! The lines that explain a fault.
ghost use Rattle.std.specs.Prelude.{◌≡◌, ◌++◌, IfOk, OnOk, codes};
ghost use Rattle.std.specs.Option.{option_copied};
ghost use Rattle.ss_program.specs.Program.{spot_at};
ghost use Rattle.ss_faults.specs.Sentence as spec;

use crate::about::push_about;
use crate::data_sentence::push_data_sentence;
use crate::texts::push_number;
use ss_columns::first_bytes;
use ss_links::SetBoard;
use ss_machine::Machine;
use ss_sentences::fault_sentence;
use ss_state::Status;
use ss_words::RunFault;
use std::alloc::{AllocError, Global};

/// The greatest number of bytes of the line that explains a fault. The definitions read it too.
pub const LONGEST_LINE: usize = 120;

/// The mark at the end of a line that is cut. The definitions read it too.
pub const CUT_MARK: &[u8] = b" ..";

/// Appends the parts that a fault names at the place of the machine's last frame.
fn push_about_here<S: SetBoard>(
    text: &mut Vec<u8>,
    machine: &Machine<S>,
    fault: RunFault,
) -> Result<(), AllocError>
    ensures { OnOk result (text.new.items ≡ text.old.items
        ++ spec.about_here machine.now.input.program machine.now.state fault
        (spot_at machine.now.input.program machine.now.state.frame.section
        machine.now.state.frame.place)) }
{
    let (section, place) = machine.place();
    match machine.program().spot_at(section, place) {
        None => Ok(()),
        Some(spot) => push_about(text, machine, fault, &spot.place),
    }
}

/// The number of a fault, its sentence, and the parts that it names.
fn whole_line<S: SetBoard>(
    alloc: Global,
    machine: &Machine<S>,
    fault: RunFault,
) -> Result<Vec<u8>, AllocError>
    ensures { IfOk result (λ line. line.items
        ≡ spec.whole_line machine.now.input.program machine.now.state fault) }
{
    let mut line = Vec::new(alloc);
    line.extend_from_slice(b"F")?;
    push_number(&mut line, u64::from(fault.number()))?;
    line.extend_from_slice(b": ")?;
    line.extend_from_slice(fault_sentence(fault))?;
    push_about_here(&mut line, machine, fault)?;
    Ok(line)
}

/// Appends a line, cut if it is too long.
fn push_cut(text: &mut Vec<u8>, line: &[u8]) -> Result<(), AllocError>
    ensures { OnOk result (text.new.items ≡ text.old.items ++ spec.cut_line line.now) }
{
    if line.len() > LONGEST_LINE {
        text.extend_from_slice(first_bytes(line, LONGEST_LINE - CUT_MARK.len()))?;
        return text.extend_from_slice(CUT_MARK);
    }
    text.extend_from_slice(line)
}

/// Appends a line, cut if it is too long.
fn push_cut_line(text: &mut Vec<u8>, line: &[u8]) -> Result<(), AllocError>
    ensures { OnOk result (text.new.items
        ≡ text.old.items ++ (spec.cut_line line.now ++ codes "\n")) }
{
    push_cut(text, line)?;
    text.extend_from_slice(b"\n")
}

/// Appends a sentence as a line, if there is one.
fn push_line_if_any(text: &mut Vec<u8>, sentence: &[u8]) -> Result<(), AllocError>
    ensures { OnOk result (text.new.items ≡ text.old.items ++ spec.line_if_any sentence.now) }
{
    match sentence {
        [] => Ok(()),
        [_, ..] => push_cut_line(text, sentence),
    }
}

/// Appends the sentence on the piece of the data, at the place of the machine's last frame.
fn push_data_sentence_here<S: SetBoard>(
    text: &mut Vec<u8>,
    machine: &Machine<S>,
    data_text: &[u8],
    fault: RunFault,
) -> Result<(), AllocError>
    ensures { OnOk result (text.new.items ≡ text.old.items
        ++ spec.data_sentence_here machine.now.input.program machine.now.state data_text.now fault
        (spot_at machine.now.input.program machine.now.state.frame.section
        machine.now.state.frame.place)) }
{
    let (section, place) = machine.place();
    match machine.program().spot_at(section, place) {
        None => Ok(()),
        Some(spot) => push_data_sentence(text, machine, data_text, fault, &spot.place),
    }
}

/// Appends the line on the piece of the data at which the statement failed, if there is one.
fn push_data_line<S: SetBoard>(
    alloc: Global,
    text: &mut Vec<u8>,
    machine: &Machine<S>,
    data_text: Option<&[u8]>,
    fault: RunFault,
) -> Result<(), AllocError>
    ensures { OnOk result (text.new.items ≡ text.old.items
        ++ spec.data_line machine.now.input.program machine.now.state
        (option_copied data_text.entry) fault) }
{
    let Some(data_text) = data_text else {
        return Ok(());
    };
    let mut sentence = Vec::new(alloc);
    push_data_sentence_here(&mut sentence, machine, data_text, fault)?;
    push_line_if_any(text, &sentence)
}

/// Appends the lines that explain a fault.
fn push_fault_lines<S: SetBoard>(
    alloc: Global,
    machine: &Machine<S>,
    data_text: Option<&[u8]>,
    fault: RunFault,
    text: &mut Vec<u8>,
) -> Result<(), AllocError>
    ensures { OnOk result (text.new.items ≡ text.old.items
        ++ spec.fault_lines machine.now.input.program machine.now.state
        (option_copied data_text.entry) fault) }
{
    let line = whole_line(alloc, machine, fault)?;
    push_cut_line(text, &line)?;
    push_data_line(alloc, text, machine, data_text, fault)
}

/// Appends the lines that explain the fault of the machine's state (docs/SENTENCES.md): its number,
/// its sentence, and the parts that it is about; then, for F16, F17 and F21, a line on the piece of
/// the data at which the statement failed, if the text of the run's data is given. Nothing if the
/// state is not faulted. A line has at most 120 columns: a longer one is cut by ` ..`. The only
/// error is that memory was refused.
#[tactic(auto, unfolding(crate::specs::Sentence::fault_text))]
pub fn push_fault_sentence<S: SetBoard>(
    alloc: Global,
    machine: &Machine<S>,
    data_text: Option<&[u8]>,
    text: &mut Vec<u8>,
) -> Result<(), AllocError>
    ensures { OnOk result (text.new.items ≡ text.old.items
        ++ spec.fault_text machine.now.input.program machine.now.state
        (option_copied data_text.entry) machine.now.state.status) }
{
    match machine.status() {
        Status::Faulted(fault) => push_fault_lines(alloc, machine, data_text, fault, text),
        Status::Ready | Status::Stopped | Status::Finished => Ok(()),
    }
}
