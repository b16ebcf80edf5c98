//! Single steps, texts and answers, for crates that make movements of their own.
ghost use Rattle.std.specs.Prelude.{◌≡◌, ◌++◌, OnOk, OnErr, IfOk};
ghost use Rattle.ss_machine.specs.Moment.{position, Steps, GoesBack};
ghost use Rattle.ss_debug.specs.Move.{is_on_break};
ghost use Rattle.ss_debug.specs.Answer.{movement_text};
ghost use Rattle.ss_debug.specs.Turn.{show_answer};

use crate::commands::Question;
use crate::debugger::Debugger;
use crate::entity_text::entity_text;
use crate::entry_text::entry_text;
use crate::events_text::events_text;
use crate::movement::stands_on_break;
use crate::movement_text::movement_text;
use crate::set_text::set_text;
use crate::text::{clock_text, report_text, taken_text, var_text, where_text};
use ss_links::SetBoard;
use ss_state::Stepped;
use std::alloc::AllocError;

impl<S: SetBoard> Debugger<S> {
    /// One step forward, as the machine makes it. `AtEnd` if the status isn't ready, or at the last
    /// position; then nothing changes. The break lines stay as they are.
    ///
    /// `AllocError` if memory was refused; then nothing has changed.
    #[tactic(auto, using(crate::proofs::Timelines::sound_in))]
    pub fn step_forward(&mut self) -> Result<Stepped, AllocError>
        ensures ok { IfOk result (λ stepped. Steps stepped self.old.machine self.new.machine) }
        ensures err { OnErr result (self.new ≡ self.old) }
        ensures breaks { self.new.breaks ≡ self.old.breaks }
    {
        self.machine.step()
    }

    /// One step back. False only if no step is kept, and then nothing changes. It takes no memory.
    /// The break lines stay as they are.
    #[tactic(auto, using(crate::proofs::Timelines::sound_in))]
    pub fn step_back(&mut self) -> bool
        ensures back { GoesBack result self.old.machine self.new.machine }
        ensures breaks { self.new.breaks ≡ self.old.breaks }
    {
        self.machine.back()
    }

    /// Whether the machine's present place is on a break line.
    pub fn stands_on_break(&self) -> bool
        ensures { result
            ≡ is_on_break self.now.machine.input self.now.breaks (position self.now.machine) }
    {
        stands_on_break(&self.machine, &self.breaks)
    }

    /// Appends the answer of a movement that led to the machine's present state: its word, and the
    /// state line.
    ///
    /// `AllocError` if a growth was refused; then `bytes` is as before.
    pub fn push_movement(&self, word: &[u8], bytes: &mut Vec<u8>) -> Result<(), AllocError>
        ensures said { OnOk result (bytes.new.items ≡ bytes.old.items
            ++ movement_text word.now self.now.machine.input (position self.now.machine)) }
        ensures memory { OnErr result (bytes.new.items ≡ bytes.old.items) }
    {
        let text = movement_text(self.alloc, word, &self.machine)?;
        bytes.extend_from_slice(&text)
    }

    /// The answer to a question, in the machine's present state.
    pub fn answer_to(&self, question: &Question) -> Result<Vec<u8>, AllocError>
        ensures { IfOk result (λ text. text.items
            ≡ show_answer self.now.machine.input (position self.now.machine) question.now) }
    {
        match question {
            Question::Clock => clock_text(self.alloc, &self.machine),
            Question::Where => where_text(self.alloc, &self.machine),
            Question::Variable(name) => var_text(self.alloc, name, &self.machine),
            Question::Entity(name, x) => entity_text(self.alloc, name, *x, &self.machine),
            Question::Set(name, owner) => set_text(self.alloc, name, *owner, &self.machine),
            Question::Events => events_text(self.alloc, &self.machine),
            Question::Taken => taken_text(self.alloc, &self.machine),
            Question::Entry => entry_text(self.alloc, &self.machine),
            Question::Report => report_text(self.alloc, &self.machine),
        }
    }
}
