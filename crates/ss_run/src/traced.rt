//! A whole run that is traced.
ghost use Rattle.std.specs.Prelude.{◌≡◌, ◌+◌, ◌-◌, ◌<◌, ◌^◌, map, IfOk, OnOk, IfErr};
ghost use Rattle.std.specs.Io.KnownBytes.{Appends};
ghost use Rattle.ss_check.specs.Asked.{IsSymbolsOf};
ghost use Rattle.ss_machine.specs.Moment.{position};
ghost use Rattle.ss_state.specs.Run.{input_with};
ghost use Rattle.ss_run.specs.Report.{IsRunEnd};
ghost use Rattle.ss_run.specs.Advance.{HasAdvanced};
ghost use Rattle.ss_run.specs.Trace.{step_rows, IsTraced, IsTracedInPart, TraceSays};
ghost use Rattle.ss_run.specs.Tracing.{IsHere, AreKept, HasTraced, CutsText, CutsStep};
ghost use Rattle.ss_run.specs.Tracing.{CutsRows, MakesTrace};
ghost use Rattle.ss_run.specs.WatchedView.{watched_view, AreSound};

use crate::here::{Here, read_here};
use crate::last_seen::LastSeen;
use crate::results::{Asked, Wanted, with_symbols};
use crate::rows::{head_row, keep_all, push_changes};
use crate::start::linked_machine;
use crate::watched::{Watched, watched_all};
use crate::whole_run::{
    MOST_KEPT, Progress, RunCut, STEPS_BETWEEN, WholeRun, refusal, write_report,
};
use ss_debug::{Command, Debugger, obey};
use ss_links::SetBoard;
use ss_machine::Machine;
use ss_program::Program;
use ss_session::{Loaded, Outlet, load_with_symbols, put_all};
use ss_state::Stepped;
use std::alloc::{AllocError, Global};

/// The outlets of a run that is traced.
#[derive(Drop)]
pub struct Outlets<T, W> {
    /// That of the trace.
    pub trace: T,
    /// That of the report.
    pub report: W,
}

/// Forgets the steps back if they have become many.
fn forget_many<S: SetBoard>(alloc: Global, debugger: &mut Debugger<S>) -> Result<(), AllocError>
    ensures input { debugger.new.machine.input ≡ debugger.old.machine.input }
    ensures position { position debugger.new.machine ≡ position debugger.old.machine }
{
    if debugger.machine().kept() < MOST_KEPT {
        return Ok(());
    }
    let mut said = Vec::new(alloc);
    obey(debugger, Command::Forget(0), &mut said)?;
    Ok(())
}

/// Writes a text to the trace.
fn put_text<T: Outlet>(trace: &mut T, text: &[u8]) -> Result<(), RunCut>
    requires { T.failures trace.old < 2 ^ 64 - 1 }
    ensures ok { OnOk result (Appends (T.taken trace.old) (T.taken trace.new) text.now
        × (T.failures trace.new ≡ T.failures trace.old)) }
    ensures err { IfErr result (λ cut. CutsText cut text.now
        (record { taken = T.taken trace.old; failures = T.failures trace.old })
        (record { taken = T.taken trace.new; failures = T.failures trace.new })) }
{
    match put_all(trace, text) {
        Ok(()) => Ok(()),
        Err(_) => Err(RunCut::Write),
    }
}

/// Follows all that is traced over the step that led to a debugger's position, and writes its rows.
fn trace_change<S: SetBoard, T: Outlet>(
    debugger: &Debugger<S>,
    here: Here,
    watched: &[Watched<'_>],
    kept: &mut Vec<LastSeen>,
    trace: &mut T,
) -> Result<(), RunCut>
    requires here { IsHere debugger.now.machine.input here.position here }
    requires step { position debugger.now.machine ≡ here.position + 1 }
    requires kept { AreKept debugger.now.machine.input watched.now here.position
        kept.old.items }
    requires room { T.failures trace.old < 2 ^ 64 - 1 }
    ensures kept { OnOk result (AreKept debugger.now.machine.input watched.now
        (here.position + 1) kept.new.items) }
    ensures rows { OnOk result (Appends (T.taken trace.old) (T.taken trace.new)
        (step_rows debugger.now.machine.input (map watched_view watched.now) here.position)
        × (T.failures trace.new ≡ T.failures trace.old)) }
    ensures cut { IfErr result (λ cut. CutsText cut
        (step_rows debugger.now.machine.input (map watched_view watched.now) here.position)
        (record { taken = T.taken trace.old; failures = T.failures trace.old })
        (record { taken = T.taken trace.new; failures = T.failures trace.new })) }
{
    let mut rows = Vec::new(*kept.allocator());
    push_changes(&mut rows, debugger, here, watched, kept)?;
    put_text(trace, &rows)
}

/// One step and its rows, or none if the run has ended.
fn trace_step<S: SetBoard, T: Outlet>(
    alloc: Global,
    debugger: &mut Debugger<S>,
    watched: &[Watched<'_>],
    kept: &mut Vec<LastSeen>,
    trace: &mut T,
) -> Result<Stepped, RunCut>
    requires kept { AreKept debugger.old.machine.input watched.now
        (position debugger.old.machine) kept.old.items }
    requires room { T.failures trace.old < 2 ^ 64 - 1 }
    ensures step { IfOk result (λ stepped. HasAdvanced stepped 1 debugger.old.machine
        debugger.new.machine) }
    ensures kept { OnOk result (AreKept debugger.old.machine.input watched.now
        (position debugger.new.machine) kept.new.items) }
    ensures rows { OnOk result (HasTraced debugger.old.machine.input
        (map watched_view watched.now)
        (position debugger.old.machine) (position debugger.new.machine)
        (record { taken = T.taken trace.old; failures = T.failures trace.old })
        (record { taken = T.taken trace.new; failures = T.failures trace.new })) }
    ensures cut { IfErr result (λ cut. CutsStep cut debugger.old.machine.input
        (map watched_view watched.now) (position debugger.old.machine)
        (record { taken = T.taken trace.old; failures = T.failures trace.old })
        (record { taken = T.taken trace.new; failures = T.failures trace.new })) }
{
    debugger.machine().known();
    let here = read_here(debugger);
    let stepped = debugger.step_forward()?;
    debugger.machine().known();
    if let Stepped::Moved = stepped {
        trace_change(debugger, here, watched, kept, trace)?;
    }
    Ok(stepped)
}

/// Reports after each `STEPS_BETWEEN` steps how far a run is.
fn tell_progress<S: SetBoard, P: Progress>(debugger: &Debugger<S>, progress: &mut P) {
    let machine = debugger.machine();
    if machine.position() % STEPS_BETWEEN == 0 {
        progress.reached(machine.position(), machine.clock());
    }
}

/// Makes steps to the end of the run, and writes their rows; few steps are kept.
fn trace_to_end<S: SetBoard, P: Progress, T: Outlet>(
    alloc: Global,
    debugger: &mut Debugger<S>,
    watched: &[Watched<'_>],
    progress: &mut P,
    trace: &mut T,
) -> Result<(), RunCut>
    requires start { position debugger.old.machine ≡ 0 }
    requires sound { AreSound debugger.old.machine.input.program watched.now }
    requires room { T.failures trace.old < 2 ^ 64 - 1 }
    ensures input { OnOk result (debugger.new.machine.input ≡ debugger.old.machine.input) }
    ensures end { OnOk result (IsRunEnd debugger.old.machine.input
        (position debugger.new.machine)) }
    ensures rows { OnOk result (HasTraced debugger.old.machine.input
        (map watched_view watched.now) 0
        (position debugger.new.machine)
        (record { taken = T.taken trace.old; failures = T.failures trace.old })
        (record { taken = T.taken trace.new; failures = T.failures trace.new })) }
    ensures cut { IfErr result (λ cut. CutsRows cut debugger.old.machine.input
        (map watched_view watched.now)
        (record { taken = T.taken trace.old; failures = T.failures trace.old })
        (record { taken = T.taken trace.new; failures = T.failures trace.new })) }
{
    debugger.machine().known();
    let mut kept = keep_all(alloc, debugger, watched)?;
    loop {
        forget_many(alloc, debugger)?;
        match trace_step(alloc, debugger, watched, &mut kept, trace)? {
            Stepped::Moved => tell_progress(debugger, progress),
            Stepped::AtEnd => return Ok(()),
        }
    }
}

/// Writes the names of the columns, and makes steps to the end of the run.
fn trace_all<S: SetBoard, P: Progress, T: Outlet>(
    alloc: Global,
    debugger: &mut Debugger<S>,
    watched: &[Watched<'_>],
    progress: &mut P,
    trace: &mut T,
) -> Result<(), RunCut>
    requires start { position debugger.old.machine ≡ 0 }
    requires sound { AreSound debugger.old.machine.input.program watched.now }
    requires room { T.failures trace.old < 2 ^ 64 - 1 }
    ensures input { OnOk result (debugger.new.machine.input ≡ debugger.old.machine.input) }
    ensures end { OnOk result (IsRunEnd debugger.old.machine.input
        (position debugger.new.machine)) }
    ensures ok { OnOk result (IsTraced debugger.old.machine.input
        (map watched_view watched.now)
        (record { taken = T.taken trace.old; failures = T.failures trace.old })
        (record { taken = T.taken trace.new; failures = T.failures trace.new })) }
    ensures cut { IfErr result (λ cut. IsTracedInPart cut debugger.old.machine.input
        (map watched_view watched.now)
        (record { taken = T.taken trace.old; failures = T.failures trace.old })
        (record { taken = T.taken trace.new; failures = T.failures trace.new })) }
{
    let head = head_row(alloc)?;
    put_text(trace, &head)?;
    trace_to_end(alloc, debugger, watched, progress, trace)
}

/// Makes the run of a debugger's machine over its data and its trace, and writes its report.
fn trace_report<S: SetBoard, P: Progress, T: Outlet, W: Outlet>(
    alloc: Global,
    debugger: &mut Debugger<S>,
    asked: Wanted<'_>,
    progress: &mut P,
    outlets: &mut Outlets<T, W>,
) -> Result<WholeRun, RunCut>
    requires symbols { IsSymbolsOf debugger.old.machine.input.program
        asked.symbols.now }
    requires start { position debugger.old.machine ≡ 0 }
    requires trace_room { T.failures outlets.old.trace < 2 ^ 64 - 1 }
    requires room { W.failures outlets.old.report < 2 ^ 64 - 1 }
    ensures { MakesTrace result asked.entry.data_text.now debugger.old.machine.input
        asked.entry.watched.now
        (record {
          name = asked.entry.name.now;
          results = asked.entry.results.now;
          symbols = asked.entry.symbols.now;
        })
        (record { taken = W.taken outlets.old.report; failures = W.failures outlets.old.report })
        (record { taken = W.taken outlets.new.report; failures = W.failures outlets.new.report })
        (record { taken = T.taken outlets.old.trace; failures = T.failures outlets.old.trace })
        (record { taken = T.taken outlets.new.trace; failures = T.failures outlets.new.trace }) }
{
    let watched = watched_all(alloc, debugger, asked.symbols, asked.watched)?;
    trace_all(alloc, debugger, &watched, progress, &mut outlets.trace)?;
    write_report(alloc, debugger, asked, &mut outlets.report)
}

/// Makes the run of a machine over its data and its trace, and writes its report.
fn trace_run<S: SetBoard, P: Progress, T: Outlet, W: Outlet>(
    alloc: Global,
    machine: Machine<S>,
    asked: Wanted<'_>,
    progress: &mut P,
    outlets: &mut Outlets<T, W>,
) -> Result<WholeRun, RunCut>
    requires symbols { IsSymbolsOf machine.input.program asked.symbols.now }
    requires start { position machine ≡ 0 }
    requires trace_room { T.failures outlets.old.trace < 2 ^ 64 - 1 }
    requires room { W.failures outlets.old.report < 2 ^ 64 - 1 }
    ensures { MakesTrace result asked.entry.data_text.now machine.input asked.entry.watched.now
        (record {
          name = asked.entry.name.now;
          results = asked.entry.results.now;
          symbols = asked.entry.symbols.now;
        })
        (record { taken = W.taken outlets.old.report; failures = W.failures outlets.old.report })
        (record { taken = W.taken outlets.new.report; failures = W.failures outlets.new.report })
        (record { taken = T.taken outlets.old.trace; failures = T.failures outlets.old.trace })
        (record { taken = T.taken outlets.new.trace; failures = T.failures outlets.new.trace }) }
{
    let mut debugger = Debugger::new(alloc, machine);
    let written = trace_report(alloc, &mut debugger, asked, progress, outlets);
    debugger.end();
    written
}

/// Makes the run of a program over some data and its trace, and writes its report.
fn trace_program<P: Progress, T: Outlet, W: Outlet>(
    alloc: Global,
    program: Program,
    asked: Wanted<'_>,
    progress: &mut P,
    outlets: &mut Outlets<T, W>,
) -> Result<WholeRun, RunCut>
    requires symbols { IsSymbolsOf program asked.symbols.now }
    requires trace_room { T.failures outlets.old.trace < 2 ^ 64 - 1 }
    requires room { W.failures outlets.old.report < 2 ^ 64 - 1 }
    ensures { MakesTrace result asked.entry.data_text.now
        (input_with program asked.entry.data_text.now) asked.entry.watched.now
        (record {
          name = asked.entry.name.now;
          results = asked.entry.results.now;
          symbols = asked.entry.symbols.now;
        })
        (record { taken = W.taken outlets.old.report; failures = W.failures outlets.old.report })
        (record { taken = W.taken outlets.new.report; failures = W.failures outlets.new.report })
        (record { taken = T.taken outlets.old.trace; failures = T.failures outlets.old.trace })
        (record { taken = T.taken outlets.new.trace; failures = T.failures outlets.new.trace }) }
{
    match linked_machine(alloc, program, asked.data_text) {
        Ok(machine) => trace_run(alloc, machine, asked, progress, outlets),
        Err(_) => Err(RunCut::Memory),
    }
}

/// Makes the run of a program that was read and its trace, and writes its report.
fn trace_loaded<P: Progress, T: Outlet, W: Outlet>(
    alloc: Global,
    loaded: Loaded,
    asked: Asked<'_>,
    progress: &mut P,
    outlets: &mut Outlets<T, W>,
) -> Result<WholeRun, RunCut>
    requires symbols { IsSymbolsOf loaded.program loaded.symbols }
    requires trace_room { T.failures outlets.old.trace < 2 ^ 64 - 1 }
    requires room { W.failures outlets.old.report < 2 ^ 64 - 1 }
    ensures { MakesTrace result asked.entry.data_text.now
        (input_with loaded.program asked.entry.data_text.now) asked.entry.watched.now
        (record {
          name = asked.entry.name.now;
          results = asked.entry.results.now;
          symbols = loaded.symbols;
        })
        (record { taken = W.taken outlets.old.report; failures = W.failures outlets.old.report })
        (record { taken = W.taken outlets.new.report; failures = W.failures outlets.new.report })
        (record { taken = T.taken outlets.old.trace; failures = T.failures outlets.old.trace })
        (record { taken = T.taken outlets.new.trace; failures = T.failures outlets.new.trace }) }
{
    let Loaded { program, symbols } = loaded;
    trace_program(
        alloc,
        program,
        with_symbols(asked, &symbols),
        progress,
        outlets,
    )
}

/// As `run_model`, and writes a trace of what is watched as the run goes.
///
/// The trace has comma-separated values: a row of the names of the columns, and then a row for each
/// step at which the answer to a question, or the value of an expression, changes. That row has the
/// state before the step, its clock, section and line, the question or the text and its value after
/// the step (docs/RUNS.md). An expression is read by the names of MAIN; one that has no meaning there
/// has no row. Only the last answer or value is kept. For the report only its length is kept, so that
/// a trace of it takes no longer than the run.
///
/// `Ok` if all of report and trace was written; nothing is written for a refused model. `Write` if
/// the outlet of the report counted a failure, and then the trace is whole; or if that of the trace
/// counted one, and then a part of the trace is written, and nothing of the report. `Memory` if a
/// growth was refused: nothing of the report is written, and a part of the trace.
pub fn trace_model<P: Progress, T: Outlet, W: Outlet>(
    alloc: Global,
    model: &[u8],
    asked: Asked<'_>,
    progress: &mut P,
    outlets: &mut Outlets<T, W>,
) -> Result<WholeRun, RunCut>
    requires trace_room { T.failures outlets.old.trace < 2 ^ 64 - 1 }
    requires room { W.failures outlets.old.report < 2 ^ 64 - 1 }
    ensures { TraceSays result model.now asked.entry.data_text.now asked.entry.watched.now
        (record { name = asked.entry.name.now; results = asked.entry.results.now })
        (record { taken = W.taken outlets.old.report; failures = W.failures outlets.old.report })
        (record { taken = W.taken outlets.new.report; failures = W.failures outlets.new.report })
        (record { taken = T.taken outlets.old.trace; failures = T.failures outlets.old.trace })
        (record { taken = T.taken outlets.new.trace; failures = T.failures outlets.new.trace }) }
{
    match load_with_symbols(alloc, model) {
        Ok(loaded) => trace_loaded(alloc, loaded, asked, progress, outlets),
        Err(fault) => refusal(alloc, model, &fault),
    }
}
