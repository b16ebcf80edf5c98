//! The lines that lead a new dialogue to where another is.
ghost use Rattle.std.specs.Prelude.{◌≡◌, ◌++◌, OnOk};
ghost use Rattle.std.specs.Option.{option_copied};
ghost use Rattle.ss_prompt.specs.PromptState.{state_at};
ghost use Rattle.ss_prompt.specs.Resume.{when_words, break_command, break_commands, go_command};
ghost use Rattle.ss_prompt.specs.Resume.{display_command, display_commands, resume_lines};

use crate::desk::PromptDesk;
use crate::displays::asked_text;
use crate::shown::Shown;
use itoa::Buffer;
use ss_debug::{Debugger, ShownBreak};
use ss_links::SetBoard;
use std::alloc::{AllocError, Global};

/// Appends a condition after the number of its break line, if there is one.
fn push_when(text: &mut Vec<u8>, condition: Option<&[u8]>) -> Result<(), AllocError>
    ensures { OnOk result (text.new.items
        ≡ text.old.items ++ when_words (option_copied condition.entry)) }
{
    let Some(condition) = condition else {
        return Ok(());
    };
    text.extend_from_slice(b" WHEN ")?;
    text.extend_from_slice(condition)
}

/// Appends the line that sets a break line, with its condition.
fn push_break(text: &mut Vec<u8>, it: &ShownBreak) -> Result<(), AllocError>
    ensures { OnOk result (text.new.items ≡ text.old.items ++ break_command it.now) }
{
    let mut buffer = Buffer::new();
    text.extend_from_slice(b"BREAK ")?;
    text.extend_from_slice(buffer.format(it.line()).as_bytes())?;
    push_when(text, it.text())?;
    text.extend_from_slice(b"\n")
}

/// Appends the lines that set some break lines.
fn push_breaks(text: &mut Vec<u8>, mut breaks: &[ShownBreak]) -> Result<(), AllocError>
    ensures { OnOk result (text.new.items ≡ text.old.items ++ break_commands breaks.entry.now) }
{
    while let [first, rest @ ..] = breaks {
        push_break(text, first)?;
        breaks = rest;
    }
    Ok(())
}

/// Appends the line that goes to a position.
fn push_go(text: &mut Vec<u8>, position: u64) -> Result<(), AllocError>
    ensures { OnOk result (text.new.items ≡ text.old.items ++ go_command position) }
{
    let mut buffer = Buffer::new();
    text.extend_from_slice(b"GO ")?;
    text.extend_from_slice(buffer.format(position).as_bytes())?;
    text.extend_from_slice(b"\n")
}

/// Appends the line that has something printed at each stop.
fn push_display(alloc: Global, text: &mut Vec<u8>, shown: &Shown) -> Result<(), AllocError>
    ensures { OnOk result (text.new.items ≡ text.old.items ++ display_command shown.now) }
{
    let asked = asked_text(alloc, shown)?;
    text.extend_from_slice(b"DISPLAY ")?;
    text.extend_from_slice(&asked)?;
    text.extend_from_slice(b"\n")
}

/// Appends the lines that have all of these printed at each stop.
fn push_displays(alloc: Global, text: &mut Vec<u8>, displays: &[Shown]) -> Result<(), AllocError>
    ensures { OnOk result (text.new.items ≡ text.old.items ++ display_commands displays.now) }
{
    let Some((first, behind)) = displays.split_first() else {
        return Ok(());
    };
    push_display(alloc, text, first)?;
    push_displays(alloc, text, behind)
}

impl<'a> PromptDesk<'a> {
    /// Appends the lines that lead a new dialogue to where this one is.
    pub(crate) fn push_resume_lines<S: SetBoard>(
        &self,
        debugger: &Debugger<S>,
        text: &mut Vec<u8>,
    ) -> Result<(), AllocError>
        ensures { OnOk result (text.new.items
            ≡ text.old.items ++ resume_lines (state_at debugger.now self.now)) }
    {
        let breaks = debugger.shown_breaks(self.alloc)?;
        push_breaks(text, &breaks)?;
        push_go(text, debugger.machine().position())?;
        push_displays(self.alloc, text, &self.displays)
    }
}
