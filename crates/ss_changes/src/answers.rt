//! The answers about the changes of the last step, and of the next one.
ghost use Rattle.std.specs.Prelude.{◌≡◌, ◌++◌, ◌∷◌, [], OnOk, OnErr};
ghost use Rattle.ss_machine.specs.Moment.{position};
ghost use Rattle.ss_debug.specs.Answer.{earliest_word};
ghost use Rattle.ss_debug.specs.View.{debugger_state_of};
ghost use Rattle.ss_changes.specs.Texts.{changed_text, stop_changes, stop_changes_ahead};
ghost use Rattle.ss_changes.specs.View.{IsBehind, IsAhead};

use crate::changes::last_changes;
use crate::stepping::go_back;
use crate::texts::{push_all_changes, push_first_changes};
use ss_debug::Debugger;
use ss_links::SetBoard;
use ss_state::Stepped;
use std::alloc::{AllocError, Global};

/// The word at an earliest kept position: `START` if that is 0, else `NOTHING KEPT`.
fn earliest_word(position: u64) -> &'static [u8]
    ensures { result.now ≡ earliest_word position }
{
    if position == 0 {
        b"START"
    } else {
        b"NOTHING KEPT"
    }
}

/// Appends that word, and ends the line.
fn push_earliest(text: &mut Vec<u8>, position: u64) -> Result<(), AllocError>
    ensures { OnOk result (text.new.items ≡ text.old.items ++ earliest_word position ++ 10 ∷ []) }
{
    text.extend_from_slice(earliest_word(position))?;
    text.extend_from_slice(b"\n")
}

/// Appends the answer to SHOW CHANGED: a line `CHANGED part: before -> after` for each part that
/// the last step changed, or `NOTHING CHANGED`. If no step is kept, the answer is `START` at
/// position 0 and else `NOTHING KEPT`. The parts come in this order: global variables, locals,
/// attributes, entities, lists, notices, the data taken, the entry, the clock, the report.
/// Position, break lines and earliest kept position stay as they are: the debugger goes back one
/// step and forward again.
///
/// `AllocError` if memory was refused to a text, a list or the step. Then the debugger is where it
/// was or one step before, and the appended text does not count.
pub fn push_changed<S: SetBoard>(
    alloc: Global,
    debugger: &mut Debugger<S>,
    bytes: &mut Vec<u8>,
) -> Result<(), AllocError>
    ensures input { debugger.new.machine.input ≡ debugger.old.machine.input }
    ensures place { OnOk result (debugger_state_of debugger.new ≡ debugger_state_of debugger.old) }
    ensures said { OnOk result (bytes.new.items ≡ bytes.old.items
        ++ changed_text debugger.old.machine.input debugger.old.machine.forgotten
        (position debugger.old.machine)) }
    ensures memory { OnErr result (IsBehind debugger.old debugger.new) }
{
    if debugger.machine().kept() == 0 {
        return push_earliest(bytes, debugger.machine().position());
    }
    let changes = last_changes(alloc, debugger)?;
    debugger.machine().known();
    push_all_changes(bytes, b"CHANGED", debugger.machine(), &changes)
}

/// Appends the text at a stop that was reached going forward, also if no step was made: a line
/// `CHANGED part: before -> after` for each of the first five parts that the last step changed, and
/// `AND n MORE`. A list of more than twenty members is shown by their number, and a line of more
/// than 120 columns is cut. Appends nothing if nothing changed, or no step is kept. Position, break
/// lines and earliest kept position stay as they are.
///
/// `AllocError` as for [`push_changed`].
pub fn push_stop_changes<S: SetBoard>(
    alloc: Global,
    debugger: &mut Debugger<S>,
    bytes: &mut Vec<u8>,
) -> Result<(), AllocError>
    ensures input { debugger.new.machine.input ≡ debugger.old.machine.input }
    ensures place { OnOk result (debugger_state_of debugger.new ≡ debugger_state_of debugger.old) }
    ensures said { OnOk result (bytes.new.items ≡ bytes.old.items
        ++ stop_changes debugger.old.machine.input debugger.old.machine.forgotten
        (position debugger.old.machine)) }
    ensures memory { OnErr result (IsBehind debugger.old debugger.new) }
{
    if debugger.machine().kept() == 0 {
        return Ok(());
    }
    let changes = last_changes(alloc, debugger)?;
    debugger.machine().known();
    push_first_changes(alloc, bytes, b"CHANGED", debugger.machine(), &changes)
}

/// Appends the text at a stop that was reached going back: the text of [`push_stop_changes`] for
/// the next step, as `WILL CHANGE part: before -> after`; nothing if the state is not ready.
/// Position, break lines and earliest kept position stay as they are: the debugger makes the step
/// and goes back again.
///
/// `AllocError` if memory was refused to a text, a list or the step. Then the debugger is where it
/// was or one step further, and the appended text does not count.
pub fn push_stop_changes_ahead<S: SetBoard>(
    alloc: Global,
    debugger: &mut Debugger<S>,
    bytes: &mut Vec<u8>,
) -> Result<(), AllocError>
    ensures input { debugger.new.machine.input ≡ debugger.old.machine.input }
    ensures place { OnOk result (debugger_state_of debugger.new ≡ debugger_state_of debugger.old) }
    ensures said { OnOk result (bytes.new.items ≡ bytes.old.items
        ++ stop_changes_ahead debugger.old.machine.input (position debugger.old.machine)) }
    ensures memory { OnErr result (IsAhead debugger.old debugger.new) }
{
    debugger.machine().known();
    match debugger.step_forward()? {
        Stepped::AtEnd => return Ok(()),
        Stepped::Moved => {}
    }
    let changes = last_changes(alloc, debugger)?;
    debugger.machine().known();
    push_first_changes(alloc, bytes, b"WILL CHANGE", debugger.machine(), &changes)?;
    go_back(debugger);
    Ok(())
}
