//! The scopes of a frame.
ghost use Rattle.std.specs.Prelude.{◌≡◌, ◌++◌, OnOk};
ghost use Rattle.ss_machine.specs.Moment.{position};
ghost use Rattle.ss_scopes.specs.Variables.{locals_scope, scopes_text};

use crate::group::FIRST_LOCALS;
use ss_links::SetBoard;
use ss_machine::Machine;
use ss_messages::scope_item;
use std::alloc::AllocError;

/// The locals of a frame with this number of frames above it, or more, have no scope.
pub const MOST_FRAMES: u64 = 1_000;

/// The scopes that all frames have, each after a comma.
pub const OTHER_SCOPES: &[u8] =
    b",{\"name\":\"Globals\",\"variablesReference\":1,\"expensive\":false},\
    {\"name\":\"Classes\",\"variablesReference\":2,\"expensive\":false},\
    {\"name\":\"Sets\",\"variablesReference\":3,\"expensive\":false},\
    {\"name\":\"Event list\",\"variablesReference\":4,\"expensive\":false},\
    {\"name\":\"Data\",\"variablesReference\":5,\"expensive\":false},\
    {\"name\":\"Run\",\"variablesReference\":6,\"expensive\":false}";

/// Appends the locals of the frame with `depth` frames above it, if there is one.
fn push_locals_scope<S: SetBoard>(
    out: &mut Vec<u8>,
    machine: &Machine<S>,
    depth: u64,
) -> Result<(), AllocError>
    ensures { OnOk result (out.new.items
        ≡ out.old.items ++ locals_scope machine.now.state depth) }
{
    if depth >= MOST_FRAMES || depth >= machine.frames() as u64 {
        return Ok(());
    }
    let item = scope_item(*out.allocator(), b"Locals", u64::from(FIRST_LOCALS) + depth)?;
    out.extend_from_slice(&item)
}

/// Appends the scopes of the frame with this number, each after a comma.
pub fn push_scopes<S: SetBoard>(
    out: &mut Vec<u8>,
    machine: &Machine<S>,
    frame: u64,
) -> Result<(), AllocError>
    ensures { OnOk result (out.new.items
        ≡ out.old.items ++ scopes_text machine.now.input (position machine.now) frame) }
{
    machine.known();
    push_locals_scope(out, machine, frame.saturating_sub(1))?;
    out.extend_from_slice(OTHER_SCOPES)
}
