//! Lists of names with commas between.
ghost use Rattle.std.specs.Prelude.{IfOk, IfSome, length, map, ◌≤◌, ◌<◌};
ghost use Rattle.ss_words.specs.Reading.{Gives, option_view};
ghost use Rattle.ss_words.specs.Lists as lists;
ghost use Rattle.ss_words.specs.Lists.{several_view};

use crate::cursor::Cursor;
use crate::mark::Mark;
use crate::name::Name;
use crate::refusal::Refusal;
use crate::several::Several;
use crate::word::Sign;

impl<'a> Cursor<'a> {
    /// Passes `name {"," name}` and gives copies of the names. `Unexpected` if the next word is no
    /// name, or no name follows a comma; `Memory` if memory for them was refused.
    #[tactic(auto, unfolding(crate::proofs::Unfoldings::names_together))]
    pub fn names(&mut self) -> Result<Several<Name>, Refusal>
        ensures exact { Gives (several_view (λ n. n)) result self.new (lists.names self.old) }
        ensures shorter { length self.new ≤ length self.old }
        ensures taken { IfOk result (λ _. length self.new < length self.old) }
    {
        let first = self.name()?;
        let others = self.other_names()?;
        Ok(Several { first, others })
    }

    /// Passes `[mark name {"," name}]`: this mark and the names after it, or nothing if the next
    /// word isn't this mark. `Unexpected` and `Memory` as for [`Cursor::names`].
    #[tactic(auto, unfolding(crate::proofs::Unfoldings::names_together))]
    pub fn names_behind(&mut self, mark: Mark) -> Result<Option<Several<Name>>, Refusal>
        ensures exact { Gives (option_view (several_view (λ n. n))) result self.new
            (lists.names_behind mark self.old) }
        ensures shorter { length self.new ≤ length self.old }
    {
        if !self.eat(mark) {
            return Ok(None);
        }
        Ok(Some(self.names()?))
    }

    // {"," name}
    fn other_names(&mut self) -> Result<Vec<Name>, Refusal>
        ensures exact { Gives (λ v. v.items) result self.new (lists.other_names self.old) }
        ensures shorter { length self.new ≤ length self.old }
    {
        let mut names = Vec::new(self.alloc());
        while let Some(name) = self.next_name()? {
            names.push(name)?;
        }
        Ok(names)
    }

    // A comma and a name, or nothing.
    #[tactic(auto, unfolding(crate::specs::Reading::bind, crate::specs::Reading::pure, crate::specs::Lists::next_name))]
    fn next_name(&mut self) -> Result<Option<Name>, Refusal>
        ensures exact { Gives (option_view (λ n. n)) result self.new (lists.next_name self.old) }
        ensures shorter { length self.new ≤ length self.old }
        ensures taken { IfOk result (λ o. IfSome o (λ _. length self.new < length self.old)) }
    {
        if !self.eat(Mark::Sign(Sign::Comma)) {
            return Ok(None);
        }
        Ok(Some(self.name()?))
    }
}
