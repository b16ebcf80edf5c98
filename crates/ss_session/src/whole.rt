//! Whole sessions, for callers: from a model, its data and the commands to the transcript.
ghost use Rattle.std.specs.Prelude.{◌≡◌, ◌-◌, ◌^◌, ◌<◌, [], IfOk, IfErr};
ghost use Rattle.ss_links.specs.Board.{empty_board};
ghost use Rattle.ss_state.specs.Run.{input_with, run};
ghost use Rattle.ss_debug.specs.Turn.{initial_debugger_state};
ghost use Rattle.ss_debug.specs.View.{debugger_state_of};
ghost use Rattle.ss_check.specs.Asked.{IsSymbolsOf};
ghost use Rattle.ss_session.specs.Model.{accepted, IsOfModel, IsOutcome};
ghost use Rattle.ss_session.specs.Load.{IsLoadFault, refused_by};
ghost use Rattle.ss_session.specs.Transcript.{refusal_line};
ghost use Rattle.ss_session.specs.Session.{SessionSays};
ghost use Rattle.ss_session.specs.Private.{LineEnds, SessionEnds};

use crate::answers::write_transcript;
use crate::ending::{Cut, End, SessionFault};
use crate::load::{LoadFault, load_program, load_with_symbols};
use crate::outlet::{Outlet, put_all};
use crate::refusal::refusal_text;
use ss_check::{CheckRule, SymbolTable};
use ss_data::Feed;
use ss_debug::Debugger;
use ss_links::{LinkedSets, SetBoard};
use ss_machine::Machine;
use ss_program::Program;
use ss_words::TextRule;
use std::alloc::{AllocError, Global};

/// Writes the line of a refused model.
#[tactic(auto, using(crate::proofs::Pieces::appends_none), unfolding(crate::specs::Private::LineEnds))]
fn refuse<W: Outlet>(alloc: Global, code: &str, line: usize, out: &mut W) -> Result<(), Cut>
    requires { W.failures out.old < 2 ^ 64 - 1 }
    ensures { LineEnds result (refusal_line code.now line) (W.taken out.old) (W.taken out.new)
        (W.failures out.old) (W.failures out.new) }
{
    let text = refusal_text(alloc, code, line)?;
    put_all(out, &text)?;
    Ok(())
}

/// The machine at the start of a program's run over its data (docs/LANGUAGE.md). Its sets are kept
/// on `sets` and its pending notices on `pending`, boards without heads and seats.
pub fn machine<S: SetBoard>(
    alloc: Global,
    program: Program,
    data_text: &[u8],
    sets: S,
    pending: S,
) -> Result<Machine<S>, AllocError>
    requires sets { S.board sets ≡ empty_board }
    requires pending { S.board pending ≡ empty_board }
    ensures input { IfOk result (λ machine. machine.input ≡ input_with program data_text.now) }
    ensures state { IfOk result (λ machine. machine.state ≡ run machine.input 0) }
    ensures steps { IfOk result (λ machine. machine.steps ≡ []) }
    ensures forgotten { IfOk result (λ machine. machine.forgotten ≡ 0) }
{
    match Feed::new(alloc, data_text) {
        Ok(feed) => Machine::new(alloc, program, feed, sets, pending),
        Err(error) => {
            program.end();
            Err(error)
        }
    }
}

/// The debugger at the start of the run of a model over its data, on boards of linked nodes; or why
/// the model is no program, or `Memory`.
pub fn open_debugger(
    alloc: Global,
    model: &[u8],
    data_text: &[u8],
) -> Result<Debugger<LinkedSets>, LoadFault>
    ensures program { IfOk result (λ d. IsOutcome model.now (accepted d.machine.input.program)) }
    ensures input { IfOk result (λ d. d.machine.input
        ≡ input_with d.machine.input.program data_text.now) }
    ensures start { IfOk result (λ d. debugger_state_of d ≡ initial_debugger_state) }
    ensures err { IfErr result (λ fault. IsLoadFault fault model.now) }
{
    let program = load_program(alloc, model)?;
    let sets = LinkedSets::new(alloc);
    let pending = LinkedSets::new(alloc);
    match machine(alloc, program, data_text, sets, pending) {
        Ok(machine) => Ok(Debugger::new(alloc, machine)),
        Err(_) => Err(LoadFault::Memory),
    }
}

/// A debugger over a model, and the symbol table of the model's text.
#[derive(Drop)]
pub struct Opened {
    pub debugger: Debugger<LinkedSets>,
    pub symbols: SymbolTable,
}

/// The debugger at the start of the run of a model over its data, as `open_debugger` gives it, with
/// the symbol table by which expressions and conditions are asked for in the model's sections; or
/// why the model is no program, or `Memory`.
pub fn open_debugger_with_symbols(
    alloc: Global,
    model: &[u8],
    data_text: &[u8],
) -> Result<Opened, LoadFault>
    ensures program { IfOk result
        (λ o. IsOutcome model.now (accepted o.debugger.machine.input.program)) }
    ensures symbols { IfOk result
        (λ o. IsOfModel model.now o.debugger.machine.input.program o.symbols) }
    ensures sound { IfOk result (λ o. IsSymbolsOf o.debugger.machine.input.program o.symbols) }
    ensures input { IfOk result (λ o. o.debugger.machine.input
        ≡ input_with o.debugger.machine.input.program data_text.now) }
    ensures start { IfOk result (λ o. debugger_state_of o.debugger ≡ initial_debugger_state) }
    ensures err { IfErr result (λ fault. IsLoadFault fault model.now) }
{
    let loaded = load_with_symbols(alloc, model)?;
    let sets = LinkedSets::new(alloc);
    let pending = LinkedSets::new(alloc);
    match machine(alloc, loaded.program, data_text, sets, pending) {
        Ok(machine) => Ok(Opened {
            debugger: Debugger::new(alloc, machine),
            symbols: loaded.symbols,
        }),
        Err(_) => Err(LoadFault::Memory),
    }
}

/// A fault of the reading of a model, without what is wrong with the program.
#[derive(Clone, Copy)]
enum Refusal {
    Text { rule: TextRule, line: usize },
    Check { rule: CheckRule, line: usize },
    Memory,
}

/// The rule and the line of a fault of the reading.
fn refused_by(fault: LoadFault) -> Refusal
    ensures { result ≡ refused_by fault }
{
    match fault {
        LoadFault::Text { rule, line } => Refusal::Text { rule, line },
        LoadFault::Check { rule, line, .. } => Refusal::Check { rule, line },
        LoadFault::Memory => Refusal::Memory,
    }
}

/// The whole session, by one fact on how it ends.
fn session_by_cases<S: SetBoard, W: Outlet>(
    alloc: Global,
    sets: S,
    pending: S,
    model: &[u8],
    data_text: &[u8],
    commands: &[u8],
    out: &mut W,
) -> Result<End, SessionFault>
    requires sets { S.board sets ≡ empty_board }
    requires pending { S.board pending ≡ empty_board }
    requires room { W.failures out.old < 2 ^ 64 - 1 }
    ensures { SessionEnds result
        (record { model = model.now; data_text = data_text.now; commands = commands.now })
        (W.taken out.old) (W.taken out.new) (W.failures out.old) (W.failures out.new) }
{
    match load_program(alloc, model) {
        Err(fault) => {
            drop(pending);
            drop(sets);
            match refused_by(fault) {
                Refusal::Memory => Err(SessionFault::Memory),
                Refusal::Text { rule, line } => {
                    refuse(alloc, rule.code(), line, out)?;
                    Err(SessionFault::Text)
                }
                Refusal::Check { rule, line } => {
                    refuse(alloc, rule.code(), line, out)?;
                    Err(SessionFault::Check)
                }
            }
        }
        Ok(program) => {
            let machine = machine(alloc, program, data_text, sets, pending)?;
            Ok(write_transcript(alloc, machine, commands, out)?)
        }
    }
}

/// Runs a model over its data under the debugger's commands (docs/DEBUGGER.md), and writes their
/// answers, each before the next command is obeyed, and the report last. The run keeps its sets on
/// `sets` and its pending notices on `pending`, boards without heads and seats.
///
/// The result is `Ok` if the model is a program and all was written: `RunFault` if its last state
/// is faulted, else `Done`. It is `Text` or `Check` if the model is refused, once its line is
/// written. It is `Write` if `out` counted a failure; nothing more is put then. It is `Memory` if a
/// growth was refused; the written text is then the whole answers of the first lines.
///
/// The memory of the run is not given back: it is for a program that then ends.
pub fn session_over<S: SetBoard, W: Outlet>(
    alloc: Global,
    sets: S,
    pending: S,
    model: &[u8],
    data_text: &[u8],
    commands: &[u8],
    out: &mut W,
) -> Result<End, SessionFault>
    requires sets { S.board sets ≡ empty_board }
    requires pending { S.board pending ≡ empty_board }
    requires room { W.failures out.old < 2 ^ 64 - 1 }
    ensures { SessionSays result
        (record { model = model.now; data_text = data_text.now; commands = commands.now })
        (record { taken = W.taken out.old; failures = W.failures out.old })
        (record { taken = W.taken out.new; failures = W.failures out.new }) }
{
    session_by_cases(alloc, sets, pending, model, data_text, commands, out)
}

/// Runs a model over its data under the debugger's commands (docs/DEBUGGER.md), and writes their
/// answers, each before the next command is obeyed, and the report last. Its sets and its pending
/// notices are kept on boards of linked nodes.
///
/// The result is `Ok` if the model is a program and all was written: `RunFault` if its last state
/// is faulted, else `Done`. It is `Text` or `Check` if the model is refused, once its line is
/// written. It is `Write` if `out` counted a failure; nothing more is put then. It is `Memory` if a
/// growth was refused; the written text is then the whole answers of the first lines.
///
/// The memory of the run is not given back: it is for a program that then ends.
pub fn session<W: Outlet>(
    alloc: Global,
    model: &[u8],
    data_text: &[u8],
    commands: &[u8],
    out: &mut W,
) -> Result<End, SessionFault>
    requires { W.failures out.old < 2 ^ 64 - 1 }
    ensures { SessionSays result
        (record { model = model.now; data_text = data_text.now; commands = commands.now })
        (record { taken = W.taken out.old; failures = W.failures out.old })
        (record { taken = W.taken out.new; failures = W.failures out.new }) }
{
    session_over(
        alloc,
        LinkedSets::new(alloc),
        LinkedSets::new(alloc),
        model,
        data_text,
        commands,
        out,
    )
}
