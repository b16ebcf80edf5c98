//! The condition of a break line.
ghost use Rattle.std.specs.Prelude.{◌≡◌, ℕ, nat_eq, Option, Some, None};
ghost use Rattle.std.specs.Option.{option_map_or};
ghost use Rattle.ss_timeline.specs.Moment.{state_of};
ghost use Rattle.ss_debug.specs.BreakCondition.{is_in, is_met, IsSoundOf};

use crate::movement::place;
use ss_program::Condition;
use ss_timeline::Timeline;
use std::marker::Model;

/// A condition of the language, on which alone a break line stops, and its text. It has no value,
/// and does not hold, in a state in which its evaluation faults; nor, if it is one of a section, in
/// a state whose last frame is of another section.
#[derive(Drop)]
pub struct BreakCondition {
    section: Option<usize>,
    condition: Condition,
    text: Vec<u8>,
}

impl Model for BreakCondition {
    ghost use Rattle.std.specs.Coded.{codes};
    ghost use Rattle.ss_program.specs.ProgramConditionCode.{condition_code};
    ghost use Rattle.ss_debug.specs.BreakCondition.{BreakCondition};

    ghost Value = { BreakCondition };

    ghost coded = { Prim.hlevel (codes, condition_code) };

    ghost view = { λ a. record {
      section = a.section;
      condition = a.condition;
      text = a.text.items;
    } };
}

impl BreakCondition {
    /// A condition with this text. The number of a section is that of the section whose local
    /// variables the condition names; without one it names none.
    pub fn new(section: Option<usize>, condition: Condition, text: Vec<u8>) -> BreakCondition
        ensures { result
            ≡ record { section = section; condition = condition; text = text.items } }
    {
        BreakCondition {
            section,
            condition,
            text,
        }
    }

    /// Its text.
    pub fn text(&self) -> &[u8]
        ensures { result.now ≡ self.now.text }
    {
        &self.text
    }

    /// Whether the last frame is of its section, if it has one.
    fn is_here<T: Timeline>(&self, timeline: &T) -> bool
        ensures { result ≡ is_in (state_of (T.moment timeline.now)) self.now.section }
    {
        match self.section {
            None => true,
            Some(section) => place(timeline).0 == section,
        }
    }

    /// Whether it holds in the present state of a run. It takes no memory.
    #[tactic(auto, unfolding(crate::specs::BreakCondition::is_met))]
    pub(crate) fn is_met<T: Timeline>(&self, timeline: &T) -> bool
        requires { IsSoundOf (T.moment timeline.now).input.program self.now.section
            self.now.condition }
        ensures { result ≡ is_met (T.moment timeline.now).input.program
            (state_of (T.moment timeline.now)) self.now }
    {
        self.is_here(timeline) && matches!(timeline.truth_in(0, &self.condition), Some(Ok(true)))
    }
}
