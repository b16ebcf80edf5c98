//! Names as they are counted: a local variable of one section is another than that of a second one.
ghost use Rattle.std.specs.Prelude.{◌≡◌, IfOk, map};
ghost use Rattle.ss_words.specs.Plain.{plain_at};
ghost use Rattle.ss_names.specs.Here.{at_start};
ghost use Rattle.ss_names.specs.Keys as spec;

use crate::collected::here_behind;
use crate::declarations::Declarations;
use crate::here::Here;
use crate::roles::{Role, role_at, same_role};
use itoa::Buffer;
use ss_program::NameCounts;
use ss_words::{Mark, Plain, PlainWord, Reserved};
use std::alloc::{AllocError, Global};

/// The section after a word, given by the place of the END before it.
pub fn section_behind(section: u32, word: &PlainWord<'_>) -> u32
    ensures { result ≡ spec.section_behind section (plain_at word.now) }
{
    match word.kind().mark() {
        Some(Mark::Reserved(Reserved::End)) => word.index,
        _ => section,
    }
}

/// The key of a name: the name itself if it is declared; else with its section before it.
pub fn key(
    alloc: Global,
    declarations: &Declarations<'_>,
    section: u32,
    name: &[u8],
) -> Result<Vec<u8>, AllocError>
    ensures { IfOk result (λ key. key.items
        ≡ spec.key declarations.now section name.now) }
{
    if declarations.has(name) {
        return Vec::from_slice(alloc, name);
    }
    let mut buffer = Buffer::new();
    let mut key = Vec::from_slice(alloc, buffer.format(section).as_bytes())?;
    key.push(b' ')?;
    key.extend_from_slice(name)?;
    Ok(key)
}

/// Which uses of names are counted.
#[derive(Clone, Copy)]
pub enum Counted {
    /// Those in one way.
    As(Role),
    /// Those in any other way, but that a name is declared.
    Besides(Role),
}

fn is_counted(counted: Counted, role: Role) -> bool
    ensures { result ≡ spec.is_counted counted role }
{
    match counted {
        Counted::As(wanted) => same_role(role, wanted),
        Counted::Besides(other) => !same_role(role, Role::Declared) && !same_role(role, other),
    }
}

/// The key of each name whose use is counted.
#[tactic(auto, unfolding(crate::specs::Keys::keys_with))]
pub fn keys_with(
    alloc: Global,
    declarations: &Declarations<'_>,
    counted: Counted,
    words: &[PlainWord<'_>],
) -> Result<NameCounts, AllocError>
    ensures { IfOk result (λ names. names
        ≡ spec.keys_with declarations.now counted 0 at_start (map plain_at words.now)) }
{
    let mut names = NameCounts::new(alloc);
    let mut here = Here::at_start();
    let mut section: u32 = 0;
    let mut rest = words;
    while let [word, behind @ ..] = rest {
        if let Plain::Name(name) = word.kind() {
            if is_counted(counted, role_at(here)) {
                let key = key(alloc, declarations, section, name.bytes())?;
                names.add(&key)?;
            }
        }
        section = section_behind(section, word);
        here = here_behind(here, word, behind);
        rest = behind;
    }
    Ok(names)
}
