//! The names of a model.
ghost use Rattle.std.specs.Prelude.{◌≡◌, IfOk, map};
ghost use Rattle.ss_words.specs.Plain.{plain_at};
ghost use Rattle.ss_names.specs.Names as spec;

use ss_program::NameCounts;
use ss_words::{Plain, PlainWord};
use std::alloc::{AllocError, Global};

/// How often each name occurs among these plain words.
#[tactic(auto, unfolding(crate::specs::Names::names_in))]
pub fn names_in(alloc: Global, words: &[PlainWord<'_>]) -> Result<NameCounts, AllocError>
    ensures { IfOk result (λ names. names ≡ spec.names_in (map plain_at words.now)) }
{
    let mut names = NameCounts::new(alloc);
    let mut rest = words;
    while let [word, behind @ ..] = rest {
        if let Plain::Name(name) = word.kind() {
            names.add(name.bytes())?;
        }
        rest = behind;
    }
    Ok(names)
}
