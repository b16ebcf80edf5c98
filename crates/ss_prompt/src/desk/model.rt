//! The commands on the text of the model, and break lines at its sections.
ghost use Rattle.std.specs.Prelude.{◌≡◌, ◌++◌, OnOk, OnErr};
ghost use Rattle.ss_debug.specs.Turn.{answer as plain_answer, debugger_state_after};
ghost use Rattle.ss_debug.specs.View.{debugger_state_of};
ghost use Rattle.ss_prompt.specs.Breaks.{breaks_said};
ghost use Rattle.ss_prompt.specs.Listing.{lines_said, lines_between_said, section_lines_said};
ghost use Rattle.ss_prompt.specs.PromptState.{state_at};
ghost use Rattle.ss_prompt.specs.Sections.{break_or_clear, command_on, on_section_said, on_section_next};

use crate::break_list::push_break_lines;
use crate::desk::PromptDesk;
use crate::listing::{push_lines_about, push_lines_between, push_lines_on, push_lines_to};
use crate::sections::{last_line, line_of_section, present_line, push_no_section};
use ss_debug::{Command, Debugger, GREATEST_LINE, Name, obey};
use ss_links::SetBoard;
use std::alloc::AllocError;

/// BREAK of a line, or else CLEAR of it, if they take the line.
#[tactic(auto, unfolding(ss_debug::specs::AfterRefusal::IsStateAfterRefusal))]
pub(super) fn obey_on_line<S: SetBoard>(
    debugger: &mut Debugger<S>,
    is_set: bool,
    line: usize,
    answer: &mut Vec<u8>,
) -> Result<(), AllocError>
    ensures input { debugger.new.machine.input ≡ debugger.old.machine.input }
    ensures place { OnOk result (debugger_state_of debugger.new
        ≡ debugger_state_after debugger.old.machine.input (debugger_state_of debugger.old)
        (command_on (break_or_clear is_set) line)) }
    ensures said { OnOk result (answer.new.items
        ≡ answer.old.items ++ plain_answer debugger.old.machine.input
        (debugger_state_of debugger.old) (command_on (break_or_clear is_set) line)) }
    ensures memory { OnErr result (debugger_state_of debugger.new
        ≡ debugger_state_of debugger.old) }
{
    if line > GREATEST_LINE as usize {
        obey(debugger, Command::Bad, answer)?;
    } else if is_set {
        obey(debugger, Command::Break(line as u32), answer)?;
    } else {
        obey(debugger, Command::Clear(line as u32), answer)?;
    }
    Ok(())
}

impl<'a> PromptDesk<'a> {
    /// LIST, with a line or without. Without one it goes on after the last line that was printed.
    pub(super) fn list<S: SetBoard>(
        &self,
        debugger: &Debugger<S>,
        line: Option<u32>,
        answer: &mut Vec<u8>,
    ) -> Result<(), AllocError>
        ensures { OnOk result (answer.new.items
            ≡ answer.old.items ++ lines_said (state_at debugger.now self.now) line) }
    {
        let present = present_line(debugger.machine());
        match line {
            Some(line) => push_lines_about(answer, &self.lines, present, line as usize),
            None => push_lines_on(answer, &self.lines, present, self.listed),
        }
    }

    /// LIST, from one line to another.
    pub(super) fn list_between<S: SetBoard>(
        &self,
        debugger: &Debugger<S>,
        from: u32,
        to: u32,
        answer: &mut Vec<u8>,
    ) -> Result<(), AllocError>
        ensures { OnOk result (answer.new.items
            ≡ answer.old.items ++ lines_between_said (state_at debugger.now self.now) from to) }
    {
        let present = present_line(debugger.machine());
        push_lines_between(answer, &self.lines, present, from as usize, to as usize)
    }

    /// LIST of the section of this name.
    pub(super) fn list_section<S: SetBoard>(
        &self,
        debugger: &Debugger<S>,
        name: &Name,
        answer: &mut Vec<u8>,
    ) -> Result<(), AllocError>
        ensures { OnOk result (answer.new.items ≡ answer.old.items
            ++ section_lines_said (state_at debugger.now self.now) name.now) }
    {
        let machine = debugger.machine();
        let program = machine.program();
        let Some(section) = program.find_section(name.as_slice()) else {
            return push_no_section(answer, name.as_slice());
        };
        let from = program.section(section).line;
        let to = last_line(program, section);
        push_lines_to(answer, &self.lines, present_line(machine), from, to)
    }

    /// BREAK of the section of this name, or else CLEAR of it.
    pub(super) fn obey_on_section<S: SetBoard>(
        &self,
        debugger: &mut Debugger<S>,
        is_set: bool,
        name: &Name,
        answer: &mut Vec<u8>,
    ) -> Result<(), AllocError>
        ensures place { OnOk result (state_at debugger.new self.now
            ≡ on_section_next (state_at debugger.old self.now) (break_or_clear is_set) name.now) }
        ensures said { OnOk result (answer.new.items ≡ answer.old.items
            ++ on_section_said (state_at debugger.old self.now) (break_or_clear is_set) name.now) }
        ensures memory { OnErr result (state_at debugger.new self.now
            ≡ state_at debugger.old self.now) }
    {
        match line_of_section(debugger.machine().program(), name.as_slice()) {
            Some(line) => obey_on_line(debugger, is_set, line, answer),
            None => push_no_section(answer, name.as_slice()),
        }
    }

    /// BREAKS.
    pub(super) fn breaks<S: SetBoard>(
        &self,
        debugger: &Debugger<S>,
        answer: &mut Vec<u8>,
    ) -> Result<(), AllocError>
        ensures { OnOk result (answer.new.items
            ≡ answer.old.items ++ breaks_said (state_at debugger.now self.now)) }
    {
        let breaks = debugger.shown_breaks(self.alloc)?;
        push_break_lines(self.alloc, answer, &self.lines, &breaks)
    }
}
