//! The answer to a question, followed from state to state.
ghost use Rattle.std.specs.Prelude.{◌≡◌, ◌&&◌, IfOk, MatchOption, OnOk, bytes_eq, is_some, not, true, false};
ghost use Rattle.std.specs.Cmp.Lexicographic.{pointwise};
ghost use Rattle.std.specs.Ordering.{int_eq};
ghost use Rattle.ss_machine.specs.Moment.{position};
ghost use Rattle.ss_trace.specs.Question.{answer_at};
ghost use Rattle.ss_trace.specs.Sight.{glance_at, is_same_glance};
ghost use Rattle.ss_trace.specs.declared.touches.Touch.TheVariants.{Nothing};
ghost use Rattle.ss_trace.specs.EntityNumbers.{is_counted, numbers_at};
ghost use Rattle.ss_trace.specs.Told.{is_told_at};
ghost use Rattle.ss_trace.specs.Touches.{touched_at};
ghost use Rattle.ss_trace.specs.Reading.{Looks, IsReadAt};

use crate::answer::answer_to;
use crate::entity_numbers::{is_counted, push_numbers};
use crate::glance::{Glance, is_same};
use crate::question::Question;
use crate::sight::{Sight, glance_of, sight_of};
use crate::told::is_told;
use crate::touches::{Part, Touch, part_of, touched_here};
use ss_debug::Debugger;
use ss_links::SetBoard;
use std::alloc::{AllocError, Global};
use std::mem::{replace, swap};

/// The answer to a question in a state.
#[derive(Drop)]
pub struct Reading {
    alloc: Global,
    /// The rows at which the question looks.
    pub sight: Sight,
    /// The values that were seen there.
    pub glance: Glance,
    /// The part of the state at which the question looks, next to its glance.
    pub part: Part,
    /// The numbers of the entity at which it looks.
    pub numbers: Vec<i64>,
    pub answer: Vec<u8>,
    // The room for other numbers.
    spare: Vec<i64>,
}

impl Reading {
    /// The answer in the debugger's present state.
    pub fn new<S: SetBoard>(
        alloc: Global,
        debugger: &Debugger<S>,
        question: &Question,
    ) -> Result<Self, AllocError>
        ensures { IfOk result (λ reading. IsReadAt debugger.now.machine.input question.now
            (position debugger.now.machine) reading) }
    {
        debugger.machine().known();
        let answer = answer_to(alloc, debugger, question)?;
        let sight = sight_of(debugger.machine().program(), question);
        let mut numbers = Vec::new(alloc);
        let part = part_of(question);
        push_numbers(&mut numbers, debugger.machine(), part, sight)?;
        Ok(Reading {
            alloc,
            sight,
            glance: glance_of(debugger, question, sight),
            part,
            numbers,
            answer,
            spare: Vec::new(alloc),
        })
    }

    /// How much the debugger's next step may change of the part at which the question looks,
    /// although the same is seen after it.
    #[inline(always)]
    pub fn touched<S: SetBoard>(&self, debugger: &Debugger<S>) -> Touch
        ensures { result
            ≡ touched_at debugger.now.machine.input self.now.part (position debugger.now.machine) }
    {
        touched_here(debugger, self.part)
    }

    /// Takes a new glance for the question, and says whether it is the same.
    fn look<S: SetBoard>(&mut self, debugger: &Debugger<S>, question: &Question) -> bool
        requires { Looks debugger.now.machine.input question.now self.old }
        ensures looks { Looks debugger.now.machine.input question.now self.new }
        ensures glance { self.new.glance
            ≡ glance_at debugger.now.machine.input question.now (position debugger.now.machine) }
        ensures numbers { self.new.numbers ≡ self.old.numbers }
        ensures answer { self.new.answer ≡ self.old.answer }
        ensures same { result ≡ is_same_glance self.old.glance (glance_at debugger.now.machine.input
            question.now (position debugger.now.machine)) }
    {
        debugger.machine().known();
        let glance = glance_of(debugger, question, self.sight);
        let before = replace(&mut self.glance, glance);
        is_same(before, glance)
    }

    /// Reads the numbers of the entity at which the question looks, and says whether they are the
    /// same. If it looks at none, they are not.
    fn count_again<S: SetBoard>(
        &mut self,
        debugger: &Debugger<S>,
        question: &Question,
    ) -> Result<bool, AllocError>
        requires { Looks debugger.now.machine.input question.now self.old }
        ensures looks { OnOk result (Looks debugger.now.machine.input question.now self.new) }
        ensures glance { self.new.glance ≡ self.old.glance }
        ensures numbers { OnOk result (self.new.numbers.items
            ≡ numbers_at debugger.now.machine.input question.now (position debugger.now.machine)) }
        ensures answer { self.new.answer ≡ self.old.answer }
        ensures same { IfOk result (λ same. same ≡ (is_counted self.old.part self.old.sight
            && pointwise int_eq self.old.numbers.items self.new.numbers.items)) }
    {
        debugger.machine().known();
        self.spare.clear();
        push_numbers(&mut self.spare, debugger.machine(), self.part, self.sight)?;
        swap(&mut self.spare, &mut self.numbers);
        Ok(is_counted(self.part, self.sight) && self.spare.as_slice() == self.numbers.as_slice())
    }

    /// Whether the numbers of the entity at which the question looks are the same, on the other
    /// side of a step that perhaps changed the parts that it may. If it looks at none, they are
    /// not.
    #[inline(never)]
    #[tactic(auto, using(crate::proofs::SameNumbers::same_numbers, crate::proofs::SameNumbers::is_entity))]
    fn has_same_numbers<S: SetBoard>(
        &mut self,
        debugger: &Debugger<S>,
        question: &Question,
        touched: Touch,
    ) -> Result<bool, AllocError>
        requires looks { Looks debugger.now.machine.input question.now self.old }
        requires told { is_told_at debugger.now.machine.input question.now self.old.numbers.items
            touched (position debugger.now.machine) ≡ true → self.old.numbers.items
            ≡ numbers_at debugger.now.machine.input question.now (position debugger.now.machine) }
        ensures looks { OnOk result (Looks debugger.now.machine.input question.now self.new) }
        ensures glance { self.new.glance ≡ self.old.glance }
        ensures numbers { OnOk result (self.new.numbers.items
            ≡ numbers_at debugger.now.machine.input question.now (position debugger.now.machine)) }
        ensures answer { self.new.answer ≡ self.old.answer }
        ensures same { IfOk result (λ same. same ≡ true → (is_counted self.old.part self.old.sight
            ≡ true) × (self.old.numbers.items ≡ numbers_at debugger.now.machine.input question.now
            (position debugger.now.machine))) }
    {
        debugger.machine().known();
        if is_told(
            &self.numbers,
            debugger.machine(),
            self.part,
            self.sight,
            touched,
        ) {
            return Ok(true);
        }
        self.count_again(debugger, question)
    }

    /// Reads the answer in the debugger's present state, when all else is read. Gives the answer
    /// before, if it was another one.
    #[inline(never)]
    fn answer_again<S: SetBoard>(
        &mut self,
        debugger: &Debugger<S>,
        question: &Question,
    ) -> Result<Option<Vec<u8>>, AllocError>
        requires looks { Looks debugger.now.machine.input question.now self.old }
        requires glance { self.old.glance
            ≡ glance_at debugger.now.machine.input question.now (position debugger.now.machine) }
        requires numbers { self.old.numbers.items
            ≡ numbers_at debugger.now.machine.input question.now (position debugger.now.machine) }
        ensures ok { OnOk result (IsReadAt debugger.now.machine.input question.now
            (position debugger.now.machine) self.new) }
        ensures changed { IfOk result (λ before. MatchOption before
            (bytes_eq self.old.answer.items self.new.answer.items ≡ true)
            (λ text. (text.items ≡ self.old.answer.items)
            × (bytes_eq self.old.answer.items self.new.answer.items ≡ false))) }
        ensures whether { IfOk result (λ before. is_some before
            ≡ not (bytes_eq self.old.answer.items self.new.answer.items)) }
    {
        let now = answer_to(self.alloc, debugger, question)?;
        let before = replace(&mut self.answer, now);
        if before.as_slice() == self.answer.as_slice() {
            return Ok(None);
        }
        Ok(Some(before))
    }

    /// Does as `follow` for a question whose answer the numbers of an entity give: nothing of it is
    /// seen at a glance.
    #[inline(always)]
    #[tactic(auto, using(crate::proofs::Changes::same_as_itself))]
    fn follow_entity<S: SetBoard>(
        &mut self,
        debugger: &Debugger<S>,
        question: &Question,
        touched: Touch,
    ) -> Result<Option<Vec<u8>>, AllocError>
        requires looks { Looks debugger.now.machine.input question.now self.old }
        requires glance { self.old.glance
            ≡ glance_at debugger.now.machine.input question.now (position debugger.now.machine) }
        requires still { touched ≡ Nothing → self.old.numbers.items
            ≡ numbers_at debugger.now.machine.input question.now (position debugger.now.machine) }
        requires told { is_told_at debugger.now.machine.input question.now self.old.numbers.items
            touched (position debugger.now.machine) ≡ true → self.old.numbers.items
            ≡ numbers_at debugger.now.machine.input question.now (position debugger.now.machine) }
        requires counted { self.old.numbers.items
            ≡ numbers_at debugger.now.machine.input question.now (position debugger.now.machine)
            → self.old.answer.items
            ≡ answer_at debugger.now.machine.input question.now (position debugger.now.machine) }
        ensures ok { OnOk result (IsReadAt debugger.now.machine.input question.now
            (position debugger.now.machine) self.new) }
        ensures changed { IfOk result (λ before. MatchOption before
            (bytes_eq self.old.answer.items self.new.answer.items ≡ true)
            (λ text. (text.items ≡ self.old.answer.items)
            × (bytes_eq self.old.answer.items self.new.answer.items ≡ false))) }
        ensures whether { IfOk result (λ before. is_some before
            ≡ not (bytes_eq self.old.answer.items self.new.answer.items)) }
    {
        if matches!(touched, Touch::Nothing) {
            return Ok(None);
        }
        if self.has_same_numbers(debugger, question, touched)? {
            return Ok(None);
        }
        self.answer_again(debugger, question)
    }

    /// Reads the answer in the debugger's present state, on the other side of a step. It makes no
    /// answer if the same is seen and the step may change nothing else, nor if an entity's numbers
    /// are the same. Gives the answer before, if it was another one.
    #[inline(always)]
    #[tactic(auto, using(crate::proofs::Changes::same_as_itself))]
    pub fn follow<S: SetBoard>(
        &mut self,
        debugger: &Debugger<S>,
        question: &Question,
        touched: Touch,
    ) -> Result<Option<Vec<u8>>, AllocError>
        requires looks { Looks debugger.now.machine.input question.now self.old }
        requires quiet { touched ≡ Nothing → is_same_glance self.old.glance
            (glance_at debugger.now.machine.input question.now (position debugger.now.machine))
            ≡ true → self.old.answer.items
            ≡ answer_at debugger.now.machine.input question.now (position debugger.now.machine) }
        requires still { touched ≡ Nothing → self.old.numbers.items
            ≡ numbers_at debugger.now.machine.input question.now (position debugger.now.machine) }
        requires told { is_told_at debugger.now.machine.input question.now self.old.numbers.items
            touched (position debugger.now.machine) ≡ true → self.old.numbers.items
            ≡ numbers_at debugger.now.machine.input question.now (position debugger.now.machine) }
        requires counted { is_counted self.old.part self.old.sight ≡ true → self.old.numbers.items
            ≡ numbers_at debugger.now.machine.input question.now (position debugger.now.machine)
            → self.old.answer.items
            ≡ answer_at debugger.now.machine.input question.now (position debugger.now.machine) }
        requires glance { is_counted self.old.part self.old.sight ≡ true → self.old.glance
            ≡ glance_at debugger.now.machine.input question.now (position debugger.now.machine) }
        ensures ok { OnOk result (IsReadAt debugger.now.machine.input question.now
            (position debugger.now.machine) self.new) }
        ensures changed { IfOk result (λ before. MatchOption before
            (bytes_eq self.old.answer.items self.new.answer.items ≡ true)
            (λ text. (text.items ≡ self.old.answer.items)
            × (bytes_eq self.old.answer.items self.new.answer.items ≡ false))) }
        ensures whether { IfOk result (λ before. is_some before
            ≡ not (bytes_eq self.old.answer.items self.new.answer.items)) }
    {
        if is_counted(self.part, self.sight) {
            return self.follow_entity(debugger, question, touched);
        }
        let same = self.look(debugger, question);
        if same && matches!(touched, Touch::Nothing) {
            return Ok(None);
        }
        if self.has_same_numbers(debugger, question, touched)? {
            return Ok(None);
        }
        self.answer_again(debugger, question)
    }
}
