//! The text of the history on a fault at which a movement stops.
ghost use Rattle.std.specs.Prelude.{◌≡◌, ◌⊎◌, ◌++◌, IfOk, OnErr, OnOk, is_some};
ghost use Rattle.ss_machine.specs.Moment.{position};
ghost use Rattle.ss_state.specs.Run.{run};
ghost use Rattle.ss_trace.specs.History.{newest_change, why_head};
ghost use Rattle.ss_faults.specs.Asked.{state_asked};
ghost use Rattle.ss_prompt.specs.Histories.{HasLookedBack};
ghost use Rattle.ss_prompt.specs.Past as spec;
ghost use Rattle.ss_prompt.specs.PromptState.{state_at};

use crate::asked::asked;
use crate::desk::PromptDesk;
use ss_debug::{Debugger, Question as PlainQuestion, push_number};
use ss_faults::push_asked_of_fault;
use ss_links::SetBoard;
use ss_trace::{Question, push_why};
use std::alloc::AllocError;

/// The earliest kept position.
fn earliest<S: SetBoard>(debugger: &Debugger<S>) -> u64
    ensures { result ≡ debugger.now.machine.forgotten }
{
    let machine = debugger.machine();
    machine.position() - machine.kept()
}

/// Appends a number between two texts.
#[tactic(auto, unfolding(crate::specs::Past::number_phrase))]
fn push_phrase(text: &mut Vec<u8>, head: &[u8], n: u64, tail: &[u8]) -> Result<(), AllocError>
    ensures { OnOk result (text.new.items ≡ text.old.items ++ spec.number_phrase head.now n tail.now) }
{
    text.extend_from_slice(head)?;
    push_number(text, n)?;
    text.extend_from_slice(tail)
}

/// Whether a question is on a list; `None` if it is neither on one nor on an entity.
fn asks_list(question: &Question) -> Option<bool>
    ensures { result ≡ spec.asks_list question.now }
{
    match question {
        Question::Shown(PlainQuestion::Entity(..)) => Some(false),
        Question::Shown(PlainQuestion::Set(..)) => Some(true),
        _ => None,
    }
}

/// What is told of the last change: of a list, or of an entity that is missing.
fn change_words(is_list: bool) -> &'static [u8]
    ensures { result.now ≡ spec.change_words is_list }
{
    if is_list {
        b" changed last in "
    } else {
        b" ended in "
    }
}

/// Appends that no step that is kept changed a list, or that an entity was in no state that is kept;
/// if all steps are kept, that it never was.
#[tactic(auto, unfolding(crate::specs::Past::no_change_text))]
fn push_no_change(text: &mut Vec<u8>, is_list: bool, earliest: u64) -> Result<(), AllocError>
    ensures { OnOk result (text.new.items
        ≡ text.old.items ++ spec.no_change_text is_list earliest) }
{
    if is_list {
        return push_phrase(text, b" has not changed since STATE ", earliest, b".\n");
    }
    if earliest > 0 {
        return push_phrase(text, b" has not lived since STATE ", earliest, b".\n");
    }
    text.extend_from_slice(b" was never made.\n")
}

impl<'a> PromptDesk<'a> {
    /// Looks for the last step at which a question changed. Appends its state line, and says
    /// whether there is one.
    #[tactic(auto, using(crate::proofs::Searches::found), unfolding(crate::specs::Histories::HasLookedBack))]
    fn search<S: SetBoard>(
        &self,
        debugger: &mut Debugger<S>,
        question: &Question,
        head: &mut Vec<u8>,
    ) -> Result<bool, AllocError>
        ensures place { OnOk result (state_at debugger.new self.now ≡ state_at debugger.old self.now) }
        ensures head { OnOk result (head.new.items ≡ head.old.items
            ++ why_head debugger.old.machine.input debugger.old.machine.forgotten
            (newest_change debugger.old.machine.input question.now
            debugger.old.machine.forgotten (position debugger.old.machine))) }
        ensures found { IfOk result (λ found. found ≡ is_some
            (newest_change debugger.old.machine.input question.now
            debugger.old.machine.forgotten (position debugger.old.machine))) }
        ensures memory { OnErr result
            (HasLookedBack (state_at debugger.old self.now) (state_at debugger.new self.now)) }
    {
        debugger.machine().known();
        let mut change = Vec::new(self.alloc);
        let line = push_why(debugger, question, head, &mut change)?;
        Ok(line.is_some())
    }

    /// Appends the text of the history on a question that is asked with these words: the state in
    /// which a missing entity ended, or in which a list changed last.
    #[tactic(auto, using(crate::proofs::Searches::told), unfolding(crate::specs::Histories::HasLookedBack))]
    fn push_change<S: SetBoard>(
        &self,
        debugger: &mut Debugger<S>,
        words: &[u8],
        question: &Question,
        text: &mut Vec<u8>,
    ) -> Result<(), AllocError>
        ensures place { OnOk result (state_at debugger.new self.now ≡ state_at debugger.old self.now) }
        ensures said { OnOk result (text.new.items ≡ text.old.items
            ++ spec.change_text debugger.old.machine.input words.now question.now
            debugger.old.machine.forgotten
            (newest_change debugger.old.machine.input question.now
            debugger.old.machine.forgotten (position debugger.old.machine))) }
        ensures memory { OnErr result
            (HasLookedBack (state_at debugger.old self.now) (state_at debugger.new self.now)) }
    {
        let Some(is_list) = asks_list(question) else {
            return Ok(());
        };
        debugger.machine().known();
        let first = earliest(debugger);
        let mut head = Vec::new(self.alloc);
        let found = self.search(debugger, question, &mut head)?;
        text.extend_from_slice(words)?;
        if found {
            text.extend_from_slice(change_words(is_list))?;
            return text.extend_from_slice(&head);
        }
        push_no_change(text, is_list, first)
    }

    /// Appends the text of the history on the state's fault: the state in which the missing entity
    /// ended, or in which the list that a loop names changed last.
    #[tactic(auto, unfolding(crate::specs::Past::HasSearchedPast))]
    pub(crate) fn push_past<S: SetBoard>(
        &self,
        debugger: &mut Debugger<S>,
        text: &mut Vec<u8>,
    ) -> Result<(), AllocError>
        ensures place { OnOk result (state_at debugger.new self.now ≡ state_at debugger.old self.now) }
        ensures said { OnOk result (text.new.items
            ≡ text.old.items ++ spec.past_told (state_at debugger.old self.now)) }
        ensures memory { OnErr result (spec.HasSearchedPast (state_at debugger.old self.now)
            (state_at debugger.new self.now)) }
    {
        let mut words = Vec::new(self.alloc);
        let machine = debugger.machine();
        machine.known();
        push_asked_of_fault(machine, &mut words)?;
        match asked(&words) {
            Some(question) => self.push_change(debugger, &words, &question, text),
            None => Ok(()),
        }
    }
}
