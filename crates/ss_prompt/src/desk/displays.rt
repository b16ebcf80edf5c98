//! The commands that change the questions of each stop.
ghost use Rattle.std.specs.Prelude.{◌≡◌, ◌++◌, [], OnOk, OnErr};
ghost use Rattle.ss_trace.specs.Question.{question_text};
ghost use Rattle.ss_prompt.specs.Displays.{displays_with, display_text, display_set, cleared_text};
ghost use Rattle.ss_prompt.specs.Displays.{displays_without, undisplay_text, shown_text};
ghost use Rattle.ss_prompt.specs.PromptState.{with_questions};

use crate::desk::PromptDesk;
use crate::displays::{asked_text, place_among};
use crate::shown::Shown;
use itoa::Buffer;
use ss_trace::Question;
use std::alloc::AllocError;

/// The most questions that are answered at each stop.
pub const MOST_DISPLAYS: usize = 20;

/// Appends that a question is answered at each stop.
fn push_set(answer: &mut Vec<u8>, text: &[u8]) -> Result<(), AllocError>
    ensures { OnOk result (answer.new.items ≡ answer.old.items ++ display_set text.now) }
{
    answer.extend_from_slice(b"DISPLAY ")?;
    answer.extend_from_slice(text)?;
    answer.extend_from_slice(b" SET\n")
}

impl<'a> PromptDesk<'a> {
    /// DISPLAY: what is asked is printed at each stop, unless there are too many.
    pub(super) fn display(
        &mut self,
        question: Shown,
        answer: &mut Vec<u8>,
    ) -> Result<(), AllocError>
        ensures place { OnOk result (self.new
            ≡ with_questions self.old (displays_with self.old.displays question)) }
        ensures said { OnOk result (answer.new.items
            ≡ answer.old.items ++ display_text self.old.displays (shown_text question)) }
        ensures memory { OnErr result (self.new ≡ self.old) }
    {
        let text = asked_text(self.alloc, &question)?;
        if place_among(self.alloc, &self.displays, &text)?.is_some() {
            return push_set(answer, &text);
        }
        if self.displays.len() >= MOST_DISPLAYS {
            return answer.extend_from_slice(b"TOO MANY DISPLAYS\n");
        }
        push_set(answer, &text)?;
        self.displays.push(question)?;
        Ok(())
    }

    /// UNDISPLAY: nothing is printed at stops any more.
    pub(super) fn undisplay(&mut self, answer: &mut Vec<u8>) -> Result<(), AllocError>
        ensures place { OnOk result (self.new ≡ with_questions self.old []) }
        ensures said { OnOk result (answer.new.items
            ≡ answer.old.items ++ cleared_text self.old.displays) }
        ensures memory { OnErr result (self.new ≡ self.old) }
    {
        let mut buffer = Buffer::new();
        answer.extend_from_slice(b"DISPLAYS CLEARED: ")?;
        answer.extend_from_slice(buffer.format(self.displays.len()).as_bytes())?;
        answer.extend_from_slice(b"\n")?;
        self.displays.clear();
        Ok(())
    }

    /// UNDISPLAY of a text: what is asked so is printed at stops no more.
    pub(super) fn undisplay_text(
        &mut self,
        text: &[u8],
        answer: &mut Vec<u8>,
    ) -> Result<(), AllocError>
        ensures place { OnOk result (self.new
            ≡ with_questions self.old (displays_without self.old.displays text.now)) }
        ensures said { OnOk result (answer.new.items
            ≡ answer.old.items ++ undisplay_text self.old.displays text.now) }
        ensures memory { OnErr result (self.new ≡ self.old) }
    {
        let Some(place) = place_among(self.alloc, &self.displays, text)? else {
            answer.extend_from_slice(b"NO DISPLAY ")?;
            answer.extend_from_slice(text)?;
            return answer.extend_from_slice(b"\n");
        };
        answer.extend_from_slice(b"DISPLAY ")?;
        answer.extend_from_slice(text)?;
        answer.extend_from_slice(b" CLEARED\n")?;
        self.displays.remove(place);
        Ok(())
    }

    /// UNDISPLAY of a question.
    pub(super) fn undisplay_one(
        &mut self,
        question: Question,
        answer: &mut Vec<u8>,
    ) -> Result<(), AllocError>
        ensures place { OnOk result (self.new
            ≡ with_questions self.old
            (displays_without self.old.displays (question_text question))) }
        ensures said { OnOk result (answer.new.items
            ≡ answer.old.items ++ undisplay_text self.old.displays (question_text question)) }
        ensures memory { OnErr result (self.new ≡ self.old) }
    {
        let text = asked_text(self.alloc, &Shown::Asked(question))?;
        self.undisplay_text(&text, answer)
    }
}
