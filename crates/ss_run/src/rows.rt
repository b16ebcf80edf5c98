//! The rows of a trace.
ghost use Rattle.std.specs.Prelude.{◌≡◌, ◌++◌, ◌+◌, ◌<◌, length, map, IfOk, OnOk};
ghost use Rattle.ss_machine.specs.Moment.{position};
ghost use Rattle.ss_run.specs.Rows.{csv_row};
ghost use Rattle.ss_run.specs.Trace.{column_names, change_row, step_rows};
ghost use Rattle.ss_run.specs.Kept.{kept_in, kept_at};
ghost use Rattle.ss_run.specs.Tracing.{IsHere, AreKept, row_of};
ghost use Rattle.ss_run.specs.Watched.{IsSoundWatched};
ghost use Rattle.ss_run.specs.WatchedView.{watched_view, AreSound};

use crate::here::Here;
use crate::last_seen::LastSeen;
use crate::watched::{Watched, push_watched};
use csv::WriterBuilder;
use itoa::Buffer;
use ss_debug::Debugger;
use ss_links::SetBoard;
use ss_program::Program;
use std::alloc::{AllocError, Global};

/// The names of the columns of a trace.
pub const COLUMN_NAMES: [&[u8]; 6] = [
    b"state",
    b"clock",
    b"section",
    b"line",
    b"question",
    b"answer",
];

/// The bytes of a row of these fields.
fn csv_row(alloc: Global, fields: &[&[u8]]) -> Result<Vec<u8>, AllocError>
    ensures { IfOk result (λ row. row.items ≡ csv_row (map (λ f. f.now) fields.now)) }
{
    let mut writer = WriterBuilder::new().from_writer(Vec::new(alloc));
    if writer.write_fields(fields).is_err() {
        return Err(AllocError);
    }
    match writer.into_inner() {
        Ok(row) => Ok(row),
        Err(_) => Err(AllocError),
    }
}

/// The row of the names of the columns.
pub fn head_row(alloc: Global) -> Result<Vec<u8>, AllocError>
    ensures { IfOk result (λ row. row.items ≡ csv_row column_names) }
{
    csv_row(alloc, &COLUMN_NAMES)
}

/// The row of what has this value after a step from `here`.
fn row_of(
    alloc: Global,
    program: &Program,
    here: Here,
    watched: &Watched<'_>,
    value: &[u8],
) -> Result<Vec<u8>, AllocError>
    requires { here.section < length program.now.sections }
    ensures { IfOk result (λ row. row.items
        ≡ row_of program.now here (watched_view watched.now) value.now) }
{
    let mut asked = Vec::new(alloc);
    push_watched(watched, &mut asked)?;
    let (mut state, mut clock, mut line) = (Buffer::new(), Buffer::new(), Buffer::new());
    csv_row(
        alloc,
        &[
            state.format(here.position).as_bytes(),
            clock.format(here.clock).as_bytes(),
            program.section(here.section).name.bytes.as_slice(),
            line.format(here.line).as_bytes(),
            asked.as_slice(),
            value,
        ],
    )
}

/// Follows what is traced over the step that led to a debugger's position, and appends its row if
/// it changed there.
fn push_change<S: SetBoard>(
    rows: &mut Vec<u8>,
    debugger: &Debugger<S>,
    here: Here,
    watched: &Watched<'_>,
    kept: &mut LastSeen,
) -> Result<(), AllocError>
    requires here { IsHere debugger.now.machine.input here.position here }
    requires step { position debugger.now.machine ≡ here.position + 1 }
    requires sound { IsSoundWatched debugger.now.machine.input.program
        (watched_view watched.now) }
    requires kept { kept_in kept.old
        ≡ kept_at debugger.now.machine.input (watched_view watched.now) here.position }
    ensures kept { OnOk result (kept_in kept.new
        ≡ kept_at debugger.now.machine.input (watched_view watched.now) (here.position + 1)) }
    ensures row { OnOk result (rows.new.items ≡ rows.old.items
        ++ change_row debugger.now.machine.input here.position (watched_view watched.now)) }
{
    let alloc = *rows.allocator();
    if !kept.follow(alloc, debugger, watched, here)? {
        return Ok(());
    }
    let mut value = Vec::new(alloc);
    kept.push_value(debugger, watched, &mut value)?;
    let row = row_of(alloc, debugger.machine().program(), here, watched, &value)?;
    rows.extend_from_slice(&row)
}

/// Follows all that is traced over the step that led to a debugger's position, and appends the rows
/// of that step.
pub(crate) fn push_changes<S: SetBoard>(
    rows: &mut Vec<u8>,
    debugger: &Debugger<S>,
    here: Here,
    watched: &[Watched<'_>],
    kept: &mut [LastSeen],
) -> Result<(), AllocError>
    requires here { IsHere debugger.now.machine.input here.position here }
    requires step { position debugger.now.machine ≡ here.position + 1 }
    requires kept { AreKept debugger.now.machine.input watched.now here.position kept.old }
    ensures kept { OnOk result (AreKept debugger.now.machine.input watched.now
        (here.position + 1) kept.new) }
    ensures rows { OnOk result (rows.new.items ≡ rows.old.items
        ++ step_rows debugger.now.machine.input (map watched_view watched.now) here.position) }
{
    for k in 0..watched.len() {
        push_change(rows, debugger, here, &watched[k], &mut kept[k])?;
    }
    Ok(())
}

/// What is kept at the start of a run of all that is traced.
#[tactic(auto, using(crate::proofs::Keeping::sound_at))]
pub(crate) fn keep_all<S: SetBoard>(
    alloc: Global,
    debugger: &Debugger<S>,
    watched: &[Watched<'_>],
) -> Result<Vec<LastSeen>, AllocError>
    requires start { position debugger.now.machine ≡ 0 }
    requires sound { AreSound debugger.now.machine.input.program watched.now }
    ensures { IfOk result (λ kept. AreKept debugger.now.machine.input watched.now 0 kept.items) }
{
    let mut kept = Vec::new(alloc);
    for one in watched {
        kept.push(LastSeen::new(alloc, debugger, one)?)?;
    }
    Ok(kept)
}
