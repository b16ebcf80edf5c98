//! BREAK with a condition.
ghost use Rattle.std.specs.Prelude.{◌≡◌, ◌++◌, OnOk, OnErr, IfOk, Some};
ghost use Rattle.ss_words.specs.Reading.{option_view};
ghost use Rattle.ss_expressions.specs.Aims.{IsSoundAim, IsAimOf};
ghost use Rattle.ss_expressions.specs.AimsView.{aimed_view};
ghost use Rattle.ss_debug.specs.View.{debugger_state_of};
ghost use Rattle.ss_prompt.specs.BreakWhen.{aim_on, when_set, when_set_said, when_led, when_answered};
ghost use Rattle.ss_prompt.specs.BreakWhen.{when_next, when_said};
ghost use Rattle.ss_prompt.specs.PromptState.{state_at};
ghost use Rattle.ss_prompt.specs.Valued.{Suits};

use crate::advice::push_unread;
use crate::asked_text::AskedText;
use crate::break_place::{BreakPlace, BreakSpot, break_word};
use crate::desk::PromptDesk;
use crate::sections::push_no_section;
use ss_debug::{Debugger, GREATEST_LINE};
use ss_expressions::{Aimed, ConditionAim, aim_in};
use ss_links::SetBoard;
use std::alloc::AllocError;

/// Makes a line a break line with an aim of a text, if BREAK takes the line.
fn set_when<S: SetBoard>(
    debugger: &mut Debugger<S>,
    line: usize,
    aim: ConditionAim,
    text: &[u8],
    answer: &mut Vec<u8>,
) -> Result<(), AllocError>
    requires { IsSoundAim debugger.old.machine.input.program aim }
    ensures input { debugger.new.machine.input ≡ debugger.old.machine.input }
    ensures place { OnOk result (debugger_state_of debugger.new
        ≡ when_set (debugger_state_of debugger.old) line aim text.now) }
    ensures said { OnOk result (answer.new.items
        ≡ answer.old.items ++ when_set_said debugger.old.breaks line text.now) }
    ensures memory { OnErr result (debugger_state_of debugger.new
        ≡ debugger_state_of debugger.old) }
{
    if line > GREATEST_LINE as usize {
        return answer.extend_from_slice(b"BAD COMMAND\n");
    }
    let text = Vec::from_slice(*answer.allocator(), text)?;
    debugger.set_break_when(line as u32, aim.into_break(text), answer)
}

impl<'a> PromptDesk<'a> {
    /// What a text is as an aim in a section, if a symbol table is kept and the text is a
    /// condition.
    fn aim_on<S: SetBoard>(
        &self,
        debugger: &Debugger<S>,
        section: usize,
        text: &[u8],
    ) -> Result<Option<Aimed>, AllocError>
        requires { Suits debugger.now.machine.input.program self.now.symbols }
        ensures aim { IfOk result (λ o. option_view aimed_view o
            ≡ aim_on section text.now self.now.symbols) }
        ensures sound { IfOk result (λ o.
            IsAimOf debugger.now.machine.input.program (option_view aimed_view o)) }
    {
        let Some(symbols) = self.symbols else {
            return Ok(None);
        };
        aim_in(
            self.alloc,
            debugger.machine().program(),
            symbols,
            section,
            text,
        )
    }

    /// BREAK at a point, with the condition that a text is.
    fn break_at<S: SetBoard>(
        &self,
        debugger: &mut Debugger<S>,
        point: BreakSpot,
        asked: &AskedText,
        answer: &mut Vec<u8>,
    ) -> Result<(), AllocError>
        requires { Suits debugger.old.machine.input.program self.now.symbols }
        ensures input { debugger.new.machine.input ≡ debugger.old.machine.input }
        ensures place { OnOk result (debugger_state_of debugger.new
            ≡ when_led (debugger_state_of debugger.old) point.line asked.now.text
            (aim_on point.section asked.now.text self.now.symbols)) }
        ensures said { OnOk result (answer.new.items ≡ answer.old.items
            ++ when_answered debugger.old.breaks point.line asked.now.text asked.now.is_numbered
            (aim_on point.section asked.now.text self.now.symbols)) }
        ensures memory { OnErr result (debugger_state_of debugger.new
            ≡ debugger_state_of debugger.old) }
    {
        let text = asked.text.as_slice();
        match self.aim_on(debugger, point.section, text)? {
            None => push_unread(answer, break_word(), asked.is_numbered),
            Some(Aimed::Refused(refusal)) => answer.extend_from_slice(&refusal),
            Some(Aimed::At(aim)) => set_when(debugger, point.line, aim, text, answer),
        }
    }

    /// BREAK of a line or a section, with the condition that a text is.
    pub(crate) fn break_when<S: SetBoard>(
        &self,
        debugger: &mut Debugger<S>,
        place: &BreakPlace,
        asked: &AskedText,
        answer: &mut Vec<u8>,
    ) -> Result<(), AllocError>
        requires { Suits debugger.old.machine.input.program self.now.symbols }
        ensures place { OnOk result (state_at debugger.new self.now
            ≡ when_next (state_at debugger.old self.now) place.now asked.now.text) }
        ensures said { OnOk result (answer.new.items ≡ answer.old.items
            ++ when_said (state_at debugger.old self.now) place.now asked.now.text
            asked.now.is_numbered) }
        ensures memory { OnErr result (state_at debugger.new self.now
            ≡ state_at debugger.old self.now) }
    {
        let point = place.point(debugger.machine().program());
        match (point, place) {
            (Some(point), _) => self.break_at(debugger, point, asked, answer),
            (None, BreakPlace::Section(name)) => push_no_section(answer, name.as_slice()),
            (None, BreakPlace::Line(_)) => answer.extend_from_slice(b"BAD COMMAND\n"),
        }
    }
}
