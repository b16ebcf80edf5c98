//! The answers about the changes of a movement, since the state that it left.
ghost use Rattle.std.specs.Prelude.{◌≡◌, ◌++◌, OnOk, IfOk};
ghost use Rattle.ss_machine.specs.Moment.{position};
ghost use Rattle.ss_changes.specs.Changes.{movement_changes};
ghost use Rattle.ss_changes.specs.Snapshots.{IsTakenIn};
ghost use Rattle.ss_changes.specs.Texts.{movement_word, stop_changes_since, all_changes_since};

use crate::change::Change;
use crate::since::{changes_since, turned};
use crate::snapshot::Snapshot;
use crate::texts::{push_all_changes, push_first_changes};
use ss_debug::Debugger;
use ss_links::SetBoard;
use ss_machine::Machine;
use std::alloc::{AllocError, Global};

/// The word before the changes of a movement between two positions.
fn movement_word(left: u64, reached: u64) -> &'static [u8]
    ensures { result.now ≡ movement_word left reached }
{
    if reached < left {
        b"WILL CHANGE"
    } else {
        b"CHANGED"
    }
}

/// The changes of a movement from the state that a snapshot was taken in to this one. If it went
/// back, the values in this state come first.
fn movement_changes<S: SetBoard>(
    alloc: Global,
    machine: &Machine<S>,
    left: &Snapshot,
) -> Result<Vec<Change>, AllocError>
    requires { IsTakenIn machine.now.input left.now }
    ensures { IfOk result (λ changes. changes.items
        ≡ movement_changes machine.now.input left.now.position (position machine.now)) }
{
    machine.known();
    if left.position == machine.position() {
        return Ok(Vec::new(alloc));
    }
    let changes = changes_since(alloc, machine, left)?;
    if left.position < machine.position() {
        return Ok(changes);
    }
    turned(alloc, changes)
}

/// Appends the text at the stop of a movement from the state that a snapshot was taken in: a line
/// `CHANGED part: before -> after` for each of the first five parts that differ in the two states,
/// and `AND n MORE`, as [`push_stop_changes`](crate::push_stop_changes) does. If the movement went
/// back, the lines are `WILL CHANGE part: before -> after`, with the values in this state first. A
/// local is shown only if its frame runs the same section in both states. Appends nothing if the
/// position is the same.
///
/// `AllocError` if memory was refused; then the appended text does not count.
pub fn push_stop_changes_since<S: SetBoard>(
    alloc: Global,
    debugger: &Debugger<S>,
    left: &Snapshot,
    bytes: &mut Vec<u8>,
) -> Result<(), AllocError>
    requires { IsTakenIn debugger.now.machine.input left.now }
    ensures { OnOk result (bytes.new.items ≡ bytes.old.items
        ++ stop_changes_since debugger.now.machine.input left.now.position
        (position debugger.now.machine)) }
{
    let machine = debugger.machine();
    machine.known();
    let changes = movement_changes(alloc, machine, left)?;
    let word = movement_word(left.position, machine.position());
    push_first_changes(alloc, bytes, word, machine, &changes)
}

/// Appends the answer to SHOW CHANGED after such a movement: the same lines for all parts that
/// differ, with whole values, or `NOTHING CHANGED`.
///
/// `AllocError` if memory was refused; then the appended text does not count.
pub fn push_all_changes_since<S: SetBoard>(
    alloc: Global,
    debugger: &Debugger<S>,
    left: &Snapshot,
    bytes: &mut Vec<u8>,
) -> Result<(), AllocError>
    requires { IsTakenIn debugger.now.machine.input left.now }
    ensures { OnOk result (bytes.new.items ≡ bytes.old.items
        ++ all_changes_since debugger.now.machine.input left.now.position
        (position debugger.now.machine)) }
{
    let machine = debugger.machine();
    machine.known();
    let changes = movement_changes(alloc, machine, left)?;
    let word = movement_word(left.position, machine.position());
    push_all_changes(bytes, word, machine, &changes)
}
