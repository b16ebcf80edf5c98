//! Names that are set and never read, and names that are read and never set.
ghost use Rattle.std.specs.Prelude.{◌≡◌, ◌++◌, ◌∷◌, [], OnOk, map};
ghost use Rattle.ss_words.specs.Plain.{plain_at};
ghost use Rattle.ss_names.specs.Keys.{key as key_of};
ghost use Rattle.ss_names.specs.Unread as spec;

use crate::declarations::Declarations;
use crate::keys::{Counted, key, keys_with, section_behind};
use crate::language::is_of_language;
use crate::once::push_warning;
use crate::roles::Role;
use crate::spoken::Spoken;
use ss_program::NameCounts;
use ss_words::{Plain, PlainWord};
use std::alloc::AllocError;

/// The text about a name that is set and never read. The definitions read these texts too.
pub const UNREAD: &[u8] = b" is set, and never read.\n";

/// The text about a name that is read and never set.
pub const UNSET: &[u8] = b" is read, and never set.\n";

/// The names of a model.
#[derive(Clone, Copy)]
pub struct Vocabulary<'a> {
    /// How often each name occurs.
    pub names: &'a NameCounts,
    /// What each name is declared as.
    pub declarations: &'a Declarations<'a>,
}

/// What is looked for among the words of a model: the names that are used in one way only.
#[derive(Clone, Copy)]
struct OneUse<'a> {
    /// The text about such a name.
    said: &'a [u8],
    /// The names of the model.
    vocabulary: Vocabulary<'a>,
    /// How often each is used in that way.
    used: &'a NameCounts,
    /// How often each is used in another way, but that it is declared.
    others: &'a NameCounts,
}

/// Whether a name that is counted as this key, after others, is to be reported.
fn is_told(sought: OneUse<'_>, before: &NameCounts, name: &[u8], key: &[u8]) -> bool
    ensures { result ≡ spec.is_told sought.entry.vocabulary.names.now sought.entry.used.now
        sought.entry.others.now before.now name.now key.now }
{
    sought.vocabulary.names.count(name) > 1
        && sought.used.count(key) > 0
        && sought.others.count(key) == 0
        && before.count(key) == 0
        && !is_of_language(name)
}

/// Appends the warning about a name in a section, after others, if it is looked for, and puts it to
/// those before.
#[tactic(auto, unfolding(crate::specs::Unread::only_name))]
fn push_only_name(
    text: &mut Vec<u8>,
    sought: OneUse<'_>,
    before: &mut NameCounts,
    section: u32,
    spoken: Spoken<'_>,
) -> Result<(), AllocError>
    ensures text { OnOk result (text.new.items ≡ text.old.items
        ++ spec.only_name sought.entry.said.now sought.entry.vocabulary.names.now
        sought.entry.used.now sought.entry.others.now before.old spoken.entry.line
        spoken.entry.name.now
        (key_of sought.entry.vocabulary.declarations.now section spoken.entry.name.now)) }
    ensures before { OnOk result (before.new ≡ before.old
        ++ key_of sought.entry.vocabulary.declarations.now section spoken.entry.name.now ∷ []) }
{
    let alloc = *text.allocator();
    let key = key(alloc, sought.vocabulary.declarations, section, spoken.name)?;
    if is_told(sought, before, spoken.name, &key) {
        push_warning(text, spoken.line, spoken.name, sought.said)?;
    }
    before.add(&key)
}

/// Appends each name among these words that is used in this way only, with the line on which it
/// occurs first; a local variable of each section by itself.
#[tactic(auto, unfolding(crate::specs::Unread::only_text))]
fn push_only(
    text: &mut Vec<u8>,
    sought: OneUse<'_>,
    words: &[PlainWord<'_>],
) -> Result<(), AllocError>
    ensures { OnOk result (text.new.items ≡ text.old.items
        ++ spec.only_text sought.entry.said.now sought.entry.vocabulary.names.now
        sought.entry.vocabulary.declarations.now sought.entry.used.now sought.entry.others.now
        [] 0 (map plain_at words.now)) }
{
    let mut before = NameCounts::new(*text.allocator());
    let mut section: u32 = 0;
    let mut rest = words;
    while let [word, behind @ ..] = rest {
        if let Plain::Name(name) = word.kind() {
            let spoken = Spoken {
                name: name.bytes(),
                line: word.line(),
            };
            push_only_name(text, sought, &mut before, section, spoken)?;
        }
        section = section_behind(section, word);
        rest = behind;
    }
    Ok(())
}

/// Appends each name that is used with this role only, with this text about it.
pub fn push_uses(
    text: &mut Vec<u8>,
    said: &[u8],
    role: Role,
    vocabulary: Vocabulary<'_>,
    words: &[PlainWord<'_>],
) -> Result<(), AllocError>
    ensures { OnOk result (text.new.items ≡ text.old.items
        ++ spec.uses_text said.now role vocabulary.entry.names.now
        vocabulary.entry.declarations.now (map plain_at words.now)) }
{
    let alloc = *text.allocator();
    let used = keys_with(alloc, vocabulary.declarations, Counted::As(role), words)?;
    let others = keys_with(
        alloc,
        vocabulary.declarations,
        Counted::Besides(role),
        words,
    )?;
    let sought = OneUse {
        said,
        vocabulary,
        used: &used,
        others: &others,
    };
    push_only(text, sought, words)
}
