//! The sentence on the piece of the data at which a statement failed.
ghost use Rattle.std.specs.Prelude.{◌≡◌, ◌++◌, OnOk};
ghost use Rattle.ss_faults.specs.DataSentence as spec;

use crate::data_pieces::PiecesLeft;
use crate::data_texts::{push_entry_sentence, push_name_sentence, push_read_sentence};
use ss_links::SetBoard;
use ss_machine::Machine;
use ss_program::Place;
use ss_words::RunFault;
use std::alloc::AllocError;

/// The pieces of the data that are not taken before the statement.
fn pieces_left<'a, S: SetBoard>(machine: &Machine<S>, data_text: &'a [u8]) -> PiecesLeft<'a>
    ensures { result ≡ spec.pieces_left machine.now.state data_text.now }
{
    let mut pieces = PiecesLeft::new(data_text);
    pieces.pass_some(machine.taken());
    pieces
}

/// F16, F17: appends the sentence on the piece that gives no value.
fn push_no_value<S: SetBoard>(
    text: &mut Vec<u8>,
    machine: &Machine<S>,
    data_text: &[u8],
    place: &Place,
) -> Result<(), AllocError>
    ensures { OnOk result (text.new.items ≡ text.old.items
        ++ spec.no_value_sentence machine.now.input.program machine.now.state data_text.now
        place.now) }
{
    let pieces = pieces_left(machine, data_text);
    match place {
        Place::Read(targets) => push_read_sentence(text, machine, targets, pieces),
        _ => push_entry_sentence(text, machine.taken(), pieces),
    }
}

/// Appends the sentence on the piece of the data at which a statement failed; nothing if the fault
/// is not about the data.
#[tactic(auto, unfolding(crate::specs::DataSentence::data_sentence))]
pub fn push_data_sentence<S: SetBoard>(
    text: &mut Vec<u8>,
    machine: &Machine<S>,
    data_text: &[u8],
    fault: RunFault,
    place: &Place,
) -> Result<(), AllocError>
    ensures { OnOk result (text.new.items ≡ text.old.items
        ++ spec.data_sentence machine.now.input.program machine.now.state data_text.now fault
        place.now) }
{
    match fault {
        RunFault::NoMoreData | RunFault::NotANumber => {
            push_no_value(text, machine, data_text, place)
        }
        RunFault::NotExternal => {
            push_name_sentence(text, machine.taken(), pieces_left(machine, data_text))
        }
        _ => Ok(()),
    }
}
