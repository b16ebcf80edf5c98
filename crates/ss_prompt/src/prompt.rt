//! The debugger answers the lines of a dialogue.
ghost use Rattle.std.specs.Prelude.{◌≡◌, ◌++◌, [], map, OnOk, IfOk, Some};
ghost use Rattle.ss_check.specs.Asked.{IsSymbolsOf};
ghost use Rattle.ss_state.specs.Run.{run};
ghost use Rattle.ss_debug.specs.View.{debugger_state_of};
ghost use Rattle.ss_console.specs.Going.{go_of};
ghost use Rattle.ss_debug.specs.Turn.{is_quit as is_plain_quit};
ghost use Rattle.ss_prompt.specs.Reading.{plain_command_of};
ghost use Rattle.ss_prompt.specs.PromptState.{prompt_state_of, greeting};
ghost use Rattle.ss_prompt.specs.Prompting.{prompt_meaning};
ghost use Rattle.ss_prompt.specs.Resume.{resume_lines};

use crate::desk::PromptDesk;
use crate::misread::line_misread;
use crate::read::{plain_command, prompt_command};
use crate::refusal::put_refusal_at;
use ss_check::SymbolTable;
use ss_console::{Answerer, Console, Go, PutFault};
use ss_debug::{Command, Debugger};
use ss_links::SetBoard;
use ss_state::Status;
use std::alloc::{AllocError, Global};
use std::marker::Model;

/// What a prompt has of a run beside its debugger.
#[derive(Drop)]
pub struct Sources<'a> {
    /// The model.
    pub model: &'a [u8],
    /// The lines of the model.
    pub lines: Vec<&'a [u8]>,
    /// The text of the data.
    pub data_text: &'a [u8],
    /// The symbol table of the debugger's program.
    pub symbols: &'a SymbolTable,
}

/// A debugger that answers the lines of a dialogue, with its model, the lines of that, the text of
/// its data, its symbol table, and the questions that are answered at each stop. The symbol table is
/// that of the debugger's program.
#[derive(Drop)]
pub struct Prompt<'a, S: SetBoard> {
    debugger: Debugger<S>,
    desk: PromptDesk<'a>,
}

impl<'a, S: SetBoard> Model for Prompt<'a, S> {
    ghost use Rattle.std.specs.Coded.{codes};
    ghost use Rattle.ss_debug.specs.contracts.break_condition.BreakCondition as one;
    ghost use Rattle.ss_program.specs.contracts.program.Program as checked;
    ghost use Rattle.ss_prompt.specs.PromptState.{PromptState, state_at};
    ghost use Rattle.ss_prompt.specs.Valued.{Suits};

    ghost Value = { PromptState };

    ghost coded = { Prim.hlevel (codes, checked.the_row.coded, one.the_row.coded) };

    ghost view = { λ p. state_at p.debugger p.desk };

    ghost invariant = { λ p. Suits p.debugger.machine.input.program p.desk.symbols };
}

impl<'a, S: SetBoard> Prompt<'a, S> {
    /// A prompt over a debugger, with its model and the lines of that, and the text of its data; no
    /// question is answered at stops.
    pub fn new(alloc: Global, debugger: Debugger<S>, sources: Sources<'a>) -> Self
        requires { IsSymbolsOf debugger.machine.input.program sources.symbols.now }
        ensures { result ≡ prompt_state_of debugger sources.entry.model.now
            (map (λ l. l.now) sources.entry.lines.items) []
            (Some sources.entry.data_text.now) (Some sources.entry.symbols.now) }
    {
        let Sources {
            model,
            lines,
            data_text,
            symbols,
        } = sources;
        let desk = PromptDesk::new(alloc, model, lines, Some(data_text), Some(symbols));
        Prompt { debugger, desk }
    }

    /// Gives the debugger away, and lets go of the other parts of the prompt.
    pub fn into_debugger(self) -> Debugger<S>
        ensures input { result.machine.input ≡ self.entry.input }
        ensures state { debugger_state_of result ≡ self.entry.debugger }
    {
        let Prompt { debugger, desk } = self;
        drop(desk);
        debugger
    }

    /// The status of the state to which the lines so far have led.
    pub fn status(&self) -> Status
        ensures { result ≡ (run self.now.input self.now.debugger.position).status }
    {
        self.debugger.machine().known();
        self.debugger.machine().status()
    }

    /// Appends the text at a terminal before the first line is read: that HELP lists the commands,
    /// the warnings on the model, and the state of the debugger. After `AllocError` a part of it
    /// may be there.
    pub fn push_greeting(&self, text: &mut Vec<u8>) -> Result<(), AllocError>
        ensures { OnOk result (text.new.items ≡ text.old.items ++ greeting self.now) }
    {
        self.desk.push_greeting(&self.debugger, text)
    }

    /// The lines that lead a new dialogue to where this one is: BREAK for each break line, with its
    /// condition, GO to the position, and DISPLAY for what is printed at each stop.
    pub fn resume_lines(&self) -> Result<Vec<u8>, AllocError>
        ensures { IfOk result (λ text. text.items ≡ resume_lines self.now) }
    {
        let mut text = Vec::new(self.desk.alloc());
        self.desk.push_resume_lines(&self.debugger, &mut text)?;
        Ok(text)
    }
}

/// Whether the dialogue goes on after a line: only QUIT ends it.
fn going(line: &[u8]) -> Go
    ensures { result ≡ go_of (is_plain_quit (plain_command_of line.now)) }
{
    match plain_command(line) {
        Command::Quit => Go::Quit,
        _ => Go::On,
    }
}

impl<'a, S: SetBoard> Answerer for Prompt<'a, S> {
    ghost meaning = { prompt_meaning };

    ghost state = { λ p. p };

    fn position(&self) -> u64 {
        self.debugger.machine().position()
    }

    #[tactic(auto, using(crate::proofs::Quits::quit_is_obeyed, crate::proofs::Misreads::lines))]
    fn answer(&mut self, line: &[u8], answer: &mut Vec<u8>) -> Result<Go, AllocError> {
        let command = prompt_command(self.debugger.machine().program(), line);
        if let Some(misread) = line_misread(self.desk.alloc(), &command, line)? {
            answer.extend_from_slice(&misread)?;
            return Ok(going(line));
        }
        self.desk.obey(&mut self.debugger, command, answer)?;
        Ok(going(line))
    }

    fn put_refusal<C: Console>(&self, console: &mut C) -> Result<(), PutFault> {
        put_refusal_at(console, self.debugger.machine())
    }
}
