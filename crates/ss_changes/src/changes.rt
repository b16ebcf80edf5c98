//! The changes of the last step, by one step back and forward again.
ghost use Rattle.std.specs.Prelude.{◌≡◌, ◌++◌, ◌<◌, length, OnOk, OnErr, IfOk};
ghost use Rattle.ss_machine.specs.Moment.{position};
ghost use Rattle.ss_changes.specs.Values.{value_in};
ghost use Rattle.ss_changes.specs.Changes.{changes_between};
ghost use Rattle.ss_changes.specs.View.{HasReturned, IsBehind, program_of, state_before, state_of};
ghost use Rattle.ss_changes.specs.View.{told_if, told_against};

use crate::change::Change;
use crate::compared::compared_parts;
use crate::listing::{living, local_counts, notices_now};
use crate::part::Part;
use crate::reading::{value_of, values_of};
use crate::stepping::{go_back, go_on};
use crate::value::{PartValue, copy_of, is_told};
use ss_debug::Debugger;
use ss_links::SetBoard;
use ss_machine::Machine;
use std::alloc::{AllocError, Global};

/// Appends a part with its values before and after, if it is shown.
fn push_if_told<S: SetBoard>(
    alloc: Global,
    machine: &Machine<S>,
    part: Part,
    before: &PartValue,
    changes: &mut Vec<Change>,
) -> Result<(), AllocError>
    ensures { OnOk result (changes.new.items ≡ changes.old.items
        ++ told_if part before.now (value_in machine.now.input.program machine.now.state part)) }
{
    let after = value_of(alloc, machine, part)?;
    if !is_told(part, before, &after) {
        return Ok(());
    }
    let before = copy_of(alloc, before)?;
    changes.push(Change {
        part,
        before,
        after,
    })?;
    Ok(())
}

/// Appends those of some parts that are shown, with these values before and their values now.
pub fn push_told<S: SetBoard>(
    alloc: Global,
    machine: &Machine<S>,
    parts: &[Part],
    before: &[PartValue],
    changes: &mut Vec<Change>,
) -> Result<(), AllocError>
    requires { length before.now ≡ length parts.now }
    ensures { OnOk result (changes.new.items ≡ changes.old.items
        ++ told_against machine.now.input.program machine.now.state parts.now before.now) }
{
    for place in 0..parts.len() {
        push_if_told(alloc, machine, parts[place], &before[place], changes)?;
    }
    Ok(())
}

/// The changes of the last step. The state after it says which parts are compared, those that both
/// states have or only it has, and the state before it adds its own; then both give their values.
pub fn last_changes<S: SetBoard>(
    alloc: Global,
    debugger: &mut Debugger<S>,
) -> Result<Vec<Change>, AllocError>
    requires { debugger.old.machine.forgotten < position debugger.old.machine }
    ensures stays { OnOk result (HasReturned debugger.old debugger.new) }
    ensures changes { IfOk result (λ changes. changes.items ≡ changes_between
        (program_of debugger.old) (state_before debugger.old) (state_of debugger.old)) }
    ensures memory { OnErr result (IsBehind debugger.old debugger.new) }
{
    debugger.machine().known();
    let counts = local_counts(alloc, debugger.machine())?;
    let later = living(alloc, debugger.machine())?;
    let notices = notices_now(alloc, debugger.machine())?;
    go_back(debugger);
    debugger.machine().known();
    let parts = compared_parts(alloc, debugger.machine(), &counts, &later, &notices)?;
    let values = values_of(alloc, debugger.machine(), &parts)?;
    go_on(debugger)?;
    debugger.machine().known();
    let mut changes = Vec::new(alloc);
    push_told(alloc, debugger.machine(), &parts, &values, &mut changes)?;
    Ok(changes)
}
