//! The parts of the prompt that are not the debugger's: with a lent debugger they obey commands.
ghost use Rattle.std.specs.Prelude.{◌≡◌, ◌++◌, [], map, None, OnOk, OnErr, IfOk, IsOk, true, option_map};
ghost use Rattle.std.specs.Option.{option_copied};
ghost use Rattle.ss_console.specs.Going.{go_of};
ghost use Rattle.ss_machine.specs.Moment.{position};
ghost use Rattle.ss_debug.specs.Answer.{state_line};
ghost use Rattle.ss_debug.specs.Turn.{is_quit as is_plain_quit};
ghost use Rattle.ss_prompt.specs.PromptState.{state_at, with_questions, fault_told, source_line};
ghost use Rattle.ss_prompt.specs.PromptState.{place_text, greeting};
ghost use Rattle.ss_prompt.specs.Plain.{plain_next, plain_said, IsPlainRefused};
ghost use Rattle.ss_prompt.specs.Valued.{Suits};
ghost use Rattle.ss_prompt.specs.Prompting.{prompt_answer, state_led, prompt_state_after, IsRefused, is_quit};

mod break_when;
mod causes;
mod changes;
mod cleared;
mod displays;
mod left;
mod listed;
mod meant;
mod model;
mod movements;
mod names;
mod once;
mod past;
mod resume;
mod stops;
mod taken;
mod until;
mod valued;

use crate::advice::push_unread;
use crate::asked_text::AskedText;
use crate::commands::PromptCommand;
use crate::displays::push_answers;
use crate::help::push_help;
use crate::missing::push_missing;
use crate::places::push_no_place;
use crate::sections::present_line;
use crate::seeing::push_sight;
use crate::shown::Shown;
use crate::source::push_marked_line;
use ss_check::SymbolTable;
use ss_console::Go;
use ss_debug::{Command, Debugger, Question as PlainQuestion, obey};
use ss_faults::push_fault_sentence;
use ss_links::SetBoard;
use ss_trace::{Question, push_answer};
use std::alloc::{AllocError, Global};
use std::marker::Model;
use std::mem::swap;

/// The parts of the prompt that are not the debugger's: the model, its lines, the questions that
/// are answered at each stop, the last line that LIST printed, if no movement came after it, the
/// position that the last movement left, if all that it changed is shown, the text of the data, if
/// it is known, and the symbol table of the model, if it is kept.
#[derive(Drop)]
pub(crate) struct PromptDesk<'a> {
    model: &'a [u8],
    lines: Vec<&'a [u8]>,
    displays: Vec<Shown>,
    listed: Option<usize>,
    left: Option<u64>,
    data_text: Option<&'a [u8]>,
    symbols: Option<&'a SymbolTable>,
    alloc: Global,
}

impl<'a> Model for PromptDesk<'a> {
    ghost use Rattle.std.specs.Prelude.{map, option_map};
    ghost use Rattle.std.specs.Option.{option_copied};
    ghost use Rattle.ss_prompt.specs.PromptState.{PromptDeskView};

    ghost Value = { PromptDeskView };

    ghost view = { λ k. record {
      model = k.model.now;
      lines = map (λ l. l.now) k.lines.items;
      displays = k.displays.items;
      listed = k.listed;
      left = k.left;
      data_text = option_copied k.data_text;
      symbols = option_map (λ s. s.now) k.symbols;
    } };
}

/// Appends the state line.
fn push_place<S: SetBoard>(debugger: &Debugger<S>, text: &mut Vec<u8>) -> Result<(), AllocError>
    ensures { OnOk result (text.new.items ≡ text.old.items
        ++ state_line debugger.now.machine.input (position debugger.now.machine)) }
{
    let place = debugger.answer_to(&PlainQuestion::Where)?;
    text.extend_from_slice(&place)
}

impl<'a> PromptDesk<'a> {
    /// The desk for a model with these lines and, if it is known, this text of its data; no
    /// question is answered at stops, no line is listed, and no position was left. The symbol table,
    /// if one is kept, is that of the model.
    pub fn new(
        alloc: Global,
        model: &'a [u8],
        lines: Vec<&'a [u8]>,
        data_text: Option<&'a [u8]>,
        symbols: Option<&'a SymbolTable>,
    ) -> Self
        ensures { result ≡ record {
          model = model.now;
          lines = map (λ l. l.now) lines.entry.items;
          displays = [];
          listed = None;
          left = None;
          data_text = option_copied data_text.entry;
          symbols = option_map (λ s. s.now) symbols.entry;
        } }
    {
        PromptDesk {
            model,
            lines,
            displays: Vec::new(alloc),
            listed: None,
            left: None,
            data_text,
            symbols,
            alloc,
        }
    }

    /// The allocator of what the prompt makes.
    pub fn alloc(&self) -> Global {
        self.alloc
    }

    /// Takes other questions that are answered at each stop, and gives its own for them.
    pub fn swap_displays(&mut self, displays: &mut Vec<Shown>)
        ensures taken { self.new ≡ with_questions self.old displays.old.items }
        ensures given { displays.new.items ≡ self.old.displays }
    {
        swap(&mut self.displays, displays);
    }

    /// Appends the meaning of the fault, if the state is faulted.
    fn push_fault<S: SetBoard>(
        &self,
        debugger: &Debugger<S>,
        answer: &mut Vec<u8>,
    ) -> Result<(), AllocError>
        ensures { OnOk result (answer.new.items ≡ answer.old.items ++ fault_told self.now.data_text
            debugger.now.machine.input (position debugger.now.machine)) }
    {
        let machine = debugger.machine();
        machine.known();
        push_fault_sentence(self.alloc, machine, self.data_text, answer)
    }

    /// Appends the line of the model.
    fn push_source<S: SetBoard>(
        &self,
        debugger: &Debugger<S>,
        answer: &mut Vec<u8>,
    ) -> Result<(), AllocError>
        ensures { OnOk result (answer.new.items
            ≡ answer.old.items ++ source_line (state_at debugger.now self.now)) }
    {
        let machine = debugger.machine();
        machine.known();
        push_marked_line(answer, &self.lines, b"> ", present_line(machine))
    }

    /// Appends the text on the debugger's state.
    fn push_place_text<S: SetBoard>(
        &self,
        debugger: &Debugger<S>,
        text: &mut Vec<u8>,
    ) -> Result<(), AllocError>
        requires { Suits debugger.now.machine.input.program self.now.symbols }
        ensures { OnOk result (text.new.items
            ≡ text.old.items ++ place_text (state_at debugger.now self.now)) }
    {
        self.push_fault(debugger, text)?;
        self.push_source(debugger, text)?;
        push_answers(debugger, self.symbols, &self.displays, text)
    }

    /// Appends the text at a terminal before the first line is read: that HELP lists the commands,
    /// the warnings on the model, and the state of the debugger. After `AllocError` a part of it
    /// may be there.
    pub fn push_greeting<S: SetBoard>(
        &self,
        debugger: &Debugger<S>,
        text: &mut Vec<u8>,
    ) -> Result<(), AllocError>
        requires { Suits debugger.now.machine.input.program self.now.symbols }
        ensures { OnOk result (text.new.items
            ≡ text.old.items ++ greeting (state_at debugger.now self.now)) }
    {
        text.extend_from_slice(b"HELP SHOWS THE COMMANDS.\n")?;
        self.push_warnings(debugger, text)?;
        push_place(debugger, text)?;
        self.push_place_text(debugger, text)
    }

    /// A command of docs/DEBUGGER.md.
    #[tactic(auto, using(crate::proofs::StopRefusals::movements))]
    fn obey_plain<S: SetBoard>(
        &self,
        debugger: &mut Debugger<S>,
        command: Command,
        answer: &mut Vec<u8>,
    ) -> Result<Go, AllocError>
        requires { Suits debugger.old.machine.input.program self.now.symbols }
        ensures place { OnOk result (state_at debugger.new self.now
            ≡ plain_next (state_at debugger.old self.now) command) }
        ensures said { OnOk result (answer.new.items
            ≡ answer.old.items ++ plain_said (state_at debugger.old self.now) command) }
        ensures go { IfOk result (λ go. go ≡ go_of (is_plain_quit command)) }
        ensures quit { is_plain_quit command ≡ true → IsOk result }
        ensures memory { OnErr result (IsPlainRefused (state_at debugger.old self.now) command
            (state_at debugger.new self.now)) }
    {
        match command {
            Command::Move(movement) => {
                self.make_move(debugger, movement, answer)?;
                Ok(Go::On)
            }
            Command::Show(PlainQuestion::Taken) => {
                self.show_taken(debugger, answer)?;
                Ok(Go::On)
            }
            Command::Show(PlainQuestion::Events) => {
                self.show_events(debugger, answer)?;
                Ok(Go::On)
            }
            other => match obey(debugger, other, answer)? {
                ss_debug::Go::On => Ok(Go::On),
                ss_debug::Go::Quit => Ok(Go::Quit),
            },
        }
    }

    /// Does the work of a command, and appends its whole answer. Where LIST goes on and the position
    /// that was left stay as they are.
    #[tactic(auto, unfolding(crate::proofs::Unfoldings::commands))]
    fn follow<S: SetBoard>(
        &mut self,
        debugger: &mut Debugger<S>,
        command: PromptCommand,
        answer: &mut Vec<u8>,
    ) -> Result<Go, AllocError>
        requires { Suits debugger.old.machine.input.program self.old.symbols }
        ensures place { OnOk result (state_at debugger.new self.new
            ≡ state_led (state_at debugger.old self.old) command) }
        ensures said { OnOk result (answer.new.items
            ≡ answer.old.items ++ prompt_answer (state_at debugger.old self.old) command) }
        ensures go { IfOk result (λ go. go ≡ go_of (is_quit command)) }
        ensures quit { is_quit command ≡ true → IsOk result }
        ensures memory { OnErr result (IsRefused (state_at debugger.old self.old) command
            (state_at debugger.new self.new)) }
    {
        let done = match command {
            PromptCommand::Plain(command) => return self.obey_plain(debugger, command, answer),
            PromptCommand::Value(text, is_numbered) => {
                self.show_value(debugger, &AskedText { text, is_numbered }, answer)
            }
            PromptCommand::Until(way, text, is_numbered) => {
                self.go_until(debugger, way, &AskedText { text, is_numbered }, answer)
            }
            PromptCommand::Meant(manner, text, is_numbered) => {
                self.follow_text(debugger, manner, AskedText { text, is_numbered }, answer)
            }
            PromptCommand::BreakWhen(place, text, is_numbered) => {
                self.break_when(debugger, &place, &AskedText { text, is_numbered }, answer)
            }
            PromptCommand::Cause(command) => self.cause(debugger, command, answer),
            PromptCommand::Reads => self.reads(debugger, answer),
            PromptCommand::Travel(movement) => self.travel(debugger, movement, answer),
            PromptCommand::Once(line) => self.run_once(debugger, line, answer),
            PromptCommand::Lines(line) => self.list(debugger, line, answer),
            PromptCommand::LinesBetween(from, to) => self.list_between(debugger, from, to, answer),
            PromptCommand::SectionLines(name) => self.list_section(debugger, &name, answer),
            PromptCommand::BreakSection(name) => {
                self.obey_on_section(debugger, true, &name, answer)
            }
            PromptCommand::NoPlace(line, next) => push_no_place(answer, line, next),
            PromptCommand::ClearSection(name) => {
                self.obey_on_section(debugger, false, &name, answer)
            }
            PromptCommand::ClearAll => self.clear_all(debugger, answer),
            PromptCommand::Breaks => self.breaks(debugger, answer),
            PromptCommand::Ask(question) => push_answer(debugger, &question, answer),
            PromptCommand::See(sight) => push_sight(self.alloc, answer, debugger, sight),
            PromptCommand::Changed => self.changed(debugger, answer),
            PromptCommand::Why(question) => self.why(debugger, &question, answer),
            PromptCommand::History(question, rows) => {
                self.history(debugger, &question, rows, answer)
            }
            PromptCommand::Display(question) => self.display(Shown::Asked(question), answer),
            PromptCommand::Undisplay => self.undisplay(answer),
            PromptCommand::UndisplayOne(question) => self.undisplay_one(question, answer),
            PromptCommand::Missing(missing) => push_missing(answer, &missing),
            PromptCommand::Unread(word, is_numbered) => push_unread(answer, word, is_numbered),
            PromptCommand::Names(name) => self.names(name, answer),
            PromptCommand::Warnings => self.warnings(debugger, answer),
            PromptCommand::Help(word) => push_help(answer, word),
        };
        done?;
        Ok(Go::On)
    }

    /// Does the work of a command, appends its whole answer, and notes the line after which LIST
    /// goes on and the position that was left.
    #[tactic(auto, unfolding(crate::specs::Prompting::prompt_state_after), using(crate::proofs::Listed::noted))]
    fn advance<S: SetBoard>(
        &mut self,
        debugger: &mut Debugger<S>,
        command: PromptCommand,
        answer: &mut Vec<u8>,
    ) -> Result<Go, AllocError>
        requires { Suits debugger.old.machine.input.program self.old.symbols }
        ensures place { OnOk result (state_at debugger.new self.new
            ≡ prompt_state_after (state_at debugger.old self.old) command) }
        ensures said { OnOk result (answer.new.items
            ≡ answer.old.items ++ prompt_answer (state_at debugger.old self.old) command) }
        ensures go { IfOk result (λ go. go ≡ go_of (is_quit command)) }
        ensures quit { is_quit command ≡ true → IsOk result }
        ensures memory { OnErr result (IsRefused (state_at debugger.old self.old) command
            (state_at debugger.new self.new)) }
    {
        let listed = self.listed_after(debugger, &command);
        let left = self.left_after(debugger, &command);
        let go = self.follow(debugger, command, answer)?;
        self.note_listed(listed);
        self.note_left(left);
        Ok(go)
    }

    /// Does the work of a command of docs/PROMPT.md with a debugger that is lent, and appends its
    /// whole answer. `AllocError` if memory was refused: then nothing of the answer counts, and the
    /// debugger may be at another state of the same run. QUIT needs no memory.
    pub fn obey<S: SetBoard>(
        &mut self,
        debugger: &mut Debugger<S>,
        command: PromptCommand,
        answer: &mut Vec<u8>,
    ) -> Result<Go, AllocError>
        requires { Suits debugger.old.machine.input.program self.old.symbols }
        ensures input { debugger.new.machine.input ≡ debugger.old.machine.input }
        ensures model { self.new.model ≡ self.old.model }
        ensures lines { self.new.lines ≡ self.old.lines }
        ensures data_text { self.new.data_text ≡ self.old.data_text }
        ensures symbols { self.new.symbols ≡ self.old.symbols }
        ensures place { OnOk result (state_at debugger.new self.new
            ≡ prompt_state_after (state_at debugger.old self.old) command) }
        ensures said { OnOk result (answer.new.items
            ≡ answer.old.items ++ prompt_answer (state_at debugger.old self.old) command) }
        ensures go { IfOk result (λ go. go ≡ go_of (is_quit command)) }
        ensures quit { is_quit command ≡ true → IsOk result }
        ensures memory { OnErr result (IsRefused (state_at debugger.old self.old) command
            (state_at debugger.new self.new)) }
        ensures listed { OnErr result (self.new.listed ≡ self.old.listed) }
        ensures left { OnErr result (self.new.left ≡ self.old.left) }
    {
        self.advance(debugger, command, answer)
    }
}
