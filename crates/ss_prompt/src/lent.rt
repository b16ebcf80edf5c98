//! A command is obeyed with a debugger that is lent.
ghost use Rattle.std.specs.Prelude.{◌≡◌, ◌⊎◌, ◌++◌, OnOk, OnErr, IfOk};
ghost use Rattle.ss_check.specs.Asked.{IsSymbolsOf};
ghost use Rattle.ss_console.specs.Going.{go_of};
ghost use Rattle.ss_prompt.specs.PromptState.{lent_state, as_lent};
ghost use Rattle.ss_prompt.specs.Prompting.{prompt_answer, prompt_state_after, IsRefused, is_quit};

use crate::commands::PromptCommand;
use crate::desk::PromptDesk;
use crate::shown::Shown;
use crate::source::source_lines;
use ss_check::SymbolTable;
use ss_console::Go;
use ss_debug::Debugger;
use ss_links::SetBoard;
use std::alloc::AllocError;

/// The model in whose run a debugger is lent.
#[derive(Clone, Copy)]
pub struct LentModel<'a> {
    /// Its bytes.
    pub text: &'a [u8],
    /// Its symbol table.
    pub symbols: &'a SymbolTable,
}

/// Does the work of a command of docs/PROMPT.md with a debugger that is lent, in the run of a
/// model, and appends its whole answer. The questions are those that are answered at each stop.
/// LIST does not go on after it, and SHOW CHANGED after it is about one step. The text of the data is
/// not known here, so no piece of it is shown.
///
/// `AllocError` if memory was refused: then nothing of the answer counts, and the debugger is in a
/// state in which a prompt leaves it, in the same run.
pub fn answer_command<S: SetBoard>(
    debugger: &mut Debugger<S>,
    model: LentModel<'_>,
    displays: &mut Vec<Shown>,
    command: PromptCommand,
    answer: &mut Vec<u8>,
) -> Result<Go, AllocError>
    requires { IsSymbolsOf debugger.old.machine.input.program model.symbols.now }
    ensures input { debugger.new.machine.input ≡ debugger.old.machine.input }
    ensures place { OnOk result (lent_state debugger.new model.entry.text.now
        model.entry.symbols.now displays.new.items
        ≡ as_lent (prompt_state_after (lent_state debugger.old model.entry.text.now
        model.entry.symbols.now displays.old.items) command)) }
    ensures said { OnOk result (answer.new.items ≡ answer.old.items
        ++ prompt_answer (lent_state debugger.old model.entry.text.now
        model.entry.symbols.now displays.old.items) command) }
    ensures go { IfOk result (λ go. go ≡ go_of (is_quit command)) }
    ensures memory { OnErr result ((lent_state debugger.new model.entry.text.now
        model.entry.symbols.now displays.new.items
        ≡ lent_state debugger.old model.entry.text.now
        model.entry.symbols.now displays.old.items)
        ⊎ IsRefused (lent_state debugger.old model.entry.text.now
        model.entry.symbols.now displays.old.items) command
        (lent_state debugger.new model.entry.text.now
        model.entry.symbols.now displays.new.items)) }
{
    let alloc = *answer.allocator();
    let lines = source_lines(alloc, model.text)?;
    let mut desk = PromptDesk::new(alloc, model.text, lines, None, Some(model.symbols));
    desk.swap_displays(displays);
    let obeyed = desk.obey(debugger, command, answer);
    desk.swap_displays(displays);
    obeyed
}
