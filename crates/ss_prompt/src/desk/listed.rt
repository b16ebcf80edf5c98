//! The line after which LIST goes on.
ghost use Rattle.std.specs.Prelude.{◌≡◌};
ghost use Rattle.ss_prompt.specs.Listed.{section_end, lines_end, listed_after};
ghost use Rattle.ss_prompt.specs.PromptState.{state_at, noting};
ghost use Rattle.ss_prompt.specs.Sections.{section_named};

use crate::commands::PromptCommand;
use crate::desk::PromptDesk;
use crate::listing::{about_end, alone_end, between_end};
use crate::sections::{last_line, present_line};
use ss_debug::{Debugger, Name};
use ss_links::SetBoard;

impl<'a> PromptDesk<'a> {
    /// The last line of the section of this name.
    fn section_end<S: SetBoard>(&self, debugger: &Debugger<S>, name: &Name) -> Option<usize>
        ensures { result ≡ section_end (state_at debugger.now self.now)
            (section_named debugger.now.machine.input.program name.now) }
    {
        let program = debugger.machine().program();
        let section = program.find_section(name.as_slice())?;
        Some(self.lines.len().min(last_line(program, section)))
    }

    /// The last line that a command prints, if it is a LIST that prints one.
    fn lines_end<S: SetBoard>(
        &self,
        debugger: &Debugger<S>,
        command: &PromptCommand,
    ) -> Option<usize>
        ensures { result ≡ lines_end (state_at debugger.now self.now) command.now }
    {
        match command {
            PromptCommand::Lines(Some(line)) => about_end(&self.lines, *line as usize),
            PromptCommand::Lines(None) => {
                alone_end(&self.lines, present_line(debugger.machine()), self.listed)
            }
            PromptCommand::LinesBetween(from, to) => {
                between_end(&self.lines, *from as usize, *to as usize)
            }
            PromptCommand::SectionLines(name) => self.section_end(debugger, name),
            _ => None,
        }
    }

    /// The line after which LIST goes on after a command; after a movement it does not go on.
    pub(super) fn listed_after<S: SetBoard>(
        &self,
        debugger: &Debugger<S>,
        command: &PromptCommand,
    ) -> Option<usize>
        ensures { result ≡ listed_after (state_at debugger.now self.now) command.now }
    {
        if command.is_movement() {
            return None;
        }
        match self.lines_end(debugger, command) {
            Some(line) => Some(line),
            None => self.listed,
        }
    }

    /// Notes the line after which LIST goes on.
    pub(super) fn note_listed(&mut self, listed: Option<usize>)
        ensures { self.new ≡ noting self.old listed }
    {
        self.listed = listed;
    }
}
