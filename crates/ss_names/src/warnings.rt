//! Warnings of suspicious words of a model.
ghost use Rattle.std.specs.Prelude.{◌≡◌, ◌++◌, OnOk, map};
ghost use Rattle.ss_words.specs.Plain.{plain_at};
ghost use Rattle.ss_names.specs.Warnings as spec;

use crate::collected::{Wanted, collect};
use crate::declarations::Declarations;
use crate::dropped::push_dropped;
use crate::names::names_in;
use crate::once::push_once;
use crate::printed::push_printed;
use crate::ranked::{Ranking, push_ranked};
use crate::roles::Role;
use crate::unread::{UNREAD, UNSET, Vocabulary, push_uses};
use ss_program::NameCounts;
use ss_words::{PlainWord, TextFault, Words, plain_words, words};
use std::alloc::{AllocError, Global};

/// Appends the warnings of a model (docs/SENTENCES.md), each with its line: the names that occur
/// once, those that are set and never read or read and never set, keys of ranked sets that are set
/// for an entity after its FILE, the words that are dropped where a name could be, and the lines of
/// pictures that look like statements. It appends nothing if a rule L refuses the model. The only
/// error is that memory was refused.
pub fn push_warnings(alloc: Global, model: &[u8], text: &mut Vec<u8>) -> Result<(), AllocError>
    ensures { OnOk result (text.new.items ≡ text.old.items ++ spec.warnings model.now) }
{
    match words(alloc, model) {
        Ok(words) => push_warnings_of_words(alloc, &words, text),
        Err(TextFault::Memory) => Err(AllocError),
        Err(TextFault::Refused { .. }) => Ok(()),
    }
}

fn push_warnings_of_words(
    alloc: Global,
    words: &Words,
    text: &mut Vec<u8>,
) -> Result<(), AllocError>
    ensures { OnOk result (text.new.items
        ≡ text.old.items ++ spec.warnings_of_words words.now) }
{
    let plain = plain_words(alloc, words)?;
    push_plain_warnings(alloc, text, &plain)?;
    push_dropped(text, &words.list)?;
    push_printed(text, &words.list)
}

/// Appends the warnings of plain words.
fn push_plain_warnings(
    alloc: Global,
    text: &mut Vec<u8>,
    words: &[PlainWord<'_>],
) -> Result<(), AllocError>
    ensures { OnOk result (text.new.items
        ≡ text.old.items ++ spec.plain_warnings (map plain_at words.now)) }
{
    let names = names_in(alloc, words)?;
    let declarations = collect(alloc, Wanted::Declared, words)?;
    push_name_warnings(alloc, text, &names, &declarations, words)
}

/// Appends the warnings of these names, some of which are declared.
fn push_name_warnings<'a>(
    alloc: Global,
    text: &mut Vec<u8>,
    names: &NameCounts,
    declarations: &Declarations<'a>,
    words: &[PlainWord<'a>],
) -> Result<(), AllocError>
    ensures { OnOk result (text.new.items ≡ text.old.items
        ++ spec.name_warnings names.now declarations.now (map plain_at words.now)) }
{
    let vocabulary = Vocabulary {
        names,
        declarations,
    };
    push_once(text, names, words)?;
    push_uses(text, UNREAD, Role::Set, vocabulary, words)?;
    push_uses(text, UNSET, Role::Read, vocabulary, words)?;
    push_key_warnings(alloc, text, declarations, words)
}

/// Appends the warnings of keys of ranked sets.
fn push_key_warnings<'a>(
    alloc: Global,
    text: &mut Vec<u8>,
    declarations: &Declarations<'a>,
    words: &[PlainWord<'a>],
) -> Result<(), AllocError>
    ensures { OnOk result (text.new.items ≡ text.old.items
        ++ spec.key_warnings declarations.now (map plain_at words.now)) }
{
    let keys = collect(alloc, Wanted::Keys, words)?;
    let ranking = Ranking {
        names: declarations,
        keys: &keys,
    };
    push_ranked(text, ranking, words)
}
