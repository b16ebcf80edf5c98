//! WHY, HISTORY, RUN CHANGE, BACK CHANGE, DISPLAY and UNDISPLAY of a text.
ghost use Rattle.std.specs.Prelude.{◌≡◌, ◌++◌, ◌⊎◌, OnOk, OnErr, IfOk, None};
ghost use Rattle.ss_words.specs.Reading.{option_view};
ghost use Rattle.ss_expressions.specs.Meanings.{IsSoundMeaning, IsMeaningOf, IsSoundMeant};
ghost use Rattle.ss_expressions.specs.MeaningsView.{meant_view};
ghost use Rattle.ss_prompt.specs.Advice.{unread_text};
ghost use Rattle.ss_prompt.specs.Histories.{HasLookedBack};
ghost use Rattle.ss_prompt.specs.Manners.{manner_word};
ghost use Rattle.ss_prompt.specs.Meant as spec;
ghost use Rattle.ss_prompt.specs.PromptState.{state_at};
ghost use Rattle.ss_prompt.specs.Valued.{Suits};
ghost use Rattle.ss_prompt.specs.declared.manner.Manner.TheVariants.{History};

use crate::advice::push_unread;
use crate::asked_text::AskedText;
use crate::desk::PromptDesk;
use crate::histories::{ROWS_UNLESS_SAID, text_with_rows};
use crate::manner::Manner;
use crate::sections::present_section;
use crate::shown::Shown;
use crate::source::push_marked_line;
use ss_debug::Debugger;
use ss_expressions::{Meaning, Meant, meaning_of};
use ss_links::SetBoard;
use ss_readings::{back_change, push_history, push_why, run_change};
use std::alloc::AllocError;

impl<'a> PromptDesk<'a> {
    /// What a text means, if a symbol table is kept and the text asks anything.
    fn meaning_in<S: SetBoard>(
        &self,
        debugger: &Debugger<S>,
        text: &[u8],
    ) -> Result<Option<Meant>, AllocError>
        requires { Suits debugger.now.machine.input.program self.now.symbols }
        ensures meaning { IfOk result (λ o. option_view meant_view o
            ≡ spec.meaning_in (state_at debugger.now self.now) text.now) }
        ensures sound { IfOk result (λ o.
            IsMeaningOf debugger.now.machine.input.program (option_view meant_view o)) }
    {
        let Some(symbols) = self.symbols else {
            return Ok(None);
        };
        let machine = debugger.machine();
        machine.known();
        meaning_of(self.alloc, machine, symbols, present_section(machine), text)
    }

    /// WHY of a meaning.
    #[tactic(auto, unfolding(crate::specs::Histories::HasLookedBack))]
    fn why_meant<S: SetBoard>(
        &self,
        debugger: &mut Debugger<S>,
        text: &[u8],
        meaning: &Meaning,
        answer: &mut Vec<u8>,
    ) -> Result<(), AllocError>
        requires { IsSoundMeaning debugger.old.machine.input.program meaning.now }
        ensures place { OnOk result (state_at debugger.new self.now
            ≡ state_at debugger.old self.now) }
        ensures said { OnOk result (answer.new.items ≡ answer.old.items
            ++ spec.why_told (state_at debugger.old self.now) text.now meaning.now) }
        ensures memory { OnErr result
            (HasLookedBack (state_at debugger.old self.now) (state_at debugger.new self.now)) }
    {
        debugger.machine().known();
        let mut change = Vec::new(self.alloc);
        if let Some(line) = push_why(debugger, meaning, text, answer, &mut change)? {
            push_marked_line(answer, &self.lines, b"> ", line)?;
        }
        answer.extend_from_slice(&change)
    }

    /// RUN CHANGE or BACK CHANGE of a meaning.
    #[tactic(auto, using(crate::proofs::MeantChanges::changing))]
    fn change_meant<S: SetBoard>(
        &self,
        debugger: &mut Debugger<S>,
        is_back: bool,
        meaning: &Meaning,
        answer: &mut Vec<u8>,
    ) -> Result<(), AllocError>
        requires sound { IsSoundMeaning debugger.old.machine.input.program meaning.now }
        requires suits { Suits debugger.old.machine.input.program self.now.symbols }
        ensures place { OnOk result (state_at debugger.new self.now
            ≡ spec.change_next (state_at debugger.old self.now) is_back meaning.now) }
        ensures said { OnOk result (answer.new.items ≡ answer.old.items
            ++ spec.change_said (state_at debugger.old self.now) is_back meaning.now) }
        ensures memory { OnErr result (spec.IsChangeRefused (state_at debugger.old self.now) is_back
            meaning.now (state_at debugger.new self.now)) }
    {
        if is_back {
            back_change(debugger, meaning, answer)?;
            return self.push_stop(debugger, true, answer);
        }
        run_change(debugger, meaning, answer)?;
        self.push_stop(debugger, false, answer)
    }

    /// HISTORY of a text that means nothing as a whole: perhaps it ends with a number of rows.
    #[tactic(auto, unfolding(crate::specs::Histories::HasLookedBack))]
    fn history_with_rows<S: SetBoard>(
        &self,
        debugger: &mut Debugger<S>,
        text: &[u8],
        is_numbered: bool,
        answer: &mut Vec<u8>,
    ) -> Result<(), AllocError>
        requires { Suits debugger.old.machine.input.program self.now.symbols }
        ensures place { OnOk result (state_at debugger.new self.now
            ≡ state_at debugger.old self.now) }
        ensures said { OnOk result (answer.new.items ≡ answer.old.items ++ spec.told_or None
            (spec.history_with_rows (state_at debugger.old self.now)
            (spec.text_with_rows text.now))
            (unread_text (manner_word History) is_numbered)) }
        ensures memory { OnErr result ((state_at debugger.new self.now
            ≡ state_at debugger.old self.now) ⊎
            HasLookedBack (state_at debugger.old self.now) (state_at debugger.new self.now)) }
    {
        if let Some((front, rows)) = text_with_rows(text) {
            let text = front.as_slice();
            match self.meaning_in(debugger, text)? {
                Some(Meant::As(it)) => return push_history(debugger, &it, text, rows, answer),
                Some(Meant::Refused(said)) => return answer.extend_from_slice(&said),
                None => {}
            }
        }
        push_unread(answer, Manner::History.word(), is_numbered)
    }

    /// WHY, HISTORY, RUN CHANGE, BACK CHANGE, DISPLAY or UNDISPLAY of a text.
    #[tactic(auto, unfolding(crate::proofs::Unfoldings::meant))]
    pub(super) fn follow_text<S: SetBoard>(
        &mut self,
        debugger: &mut Debugger<S>,
        manner: Manner,
        asked: AskedText,
        answer: &mut Vec<u8>,
    ) -> Result<(), AllocError>
        requires { Suits debugger.old.machine.input.program self.old.symbols }
        ensures place { OnOk result (state_at debugger.new self.new
            ≡ spec.meant_next (state_at debugger.old self.old) manner asked.text) }
        ensures said { OnOk result (answer.new.items ≡ answer.old.items
            ++ spec.meant_said (state_at debugger.old self.old) manner asked.text
            asked.is_numbered) }
        ensures memory { OnErr result (spec.IsMeantRefused (state_at debugger.old self.old) manner
            asked.text (state_at debugger.new self.new)) }
    {
        let AskedText { text, is_numbered } = asked;
        match (self.meaning_in(debugger, text.as_slice())?, manner) {
            (None, Manner::History) => {
                self.history_with_rows(debugger, text.as_slice(), is_numbered, answer)
            }
            (None, _) => push_unread(answer, manner.word(), is_numbered),
            (Some(Meant::Refused(said)), _) => answer.extend_from_slice(&said),
            (Some(Meant::As(it)), Manner::Why) => {
                self.why_meant(debugger, text.as_slice(), &it, answer)
            }
            (Some(Meant::As(it)), Manner::History) => {
                push_history(debugger, &it, text.as_slice(), ROWS_UNLESS_SAID, answer)
            }
            (Some(Meant::As(it)), Manner::RunChange) => {
                self.change_meant(debugger, false, &it, answer)
            }
            (Some(Meant::As(it)), Manner::BackChange) => {
                self.change_meant(debugger, true, &it, answer)
            }
            (Some(Meant::As(_)), Manner::Display) => {
                let machine = debugger.machine();
                machine.known();
                let section = present_section(machine);
                self.display(Shown::Text(text, section), answer)
            }
            (Some(Meant::As(_)), Manner::Undisplay) => {
                self.undisplay_text(text.as_slice(), answer)
            }
        }
    }
}
