//! The names of a model, and the places at which they occur.
ghost use Rattle.std.specs.Prelude.{◌≡◌, ◌++◌, [], IfOk, OnOk, map};
ghost use Rattle.ss_words.specs.Plain.{plain_at};
ghost use Rattle.ss_names.specs.Index as spec;

use crate::collected::{Wanted, collect};
use crate::known::{known_as, push_known};
use crate::names::names_in;
use crate::roles::{Role, lines_with, push_lines};
use crate::spoken::Spoken;
use itoa::Buffer;
use ss_program::NameCounts;
use ss_words::{Plain, PlainWord, TextFault, Words, plain_words, words};
use std::alloc::{AllocError, Global};

/// Appends the names of a model (docs/SENTENCES.md), each once, in the order of their first places:
/// how often each occurs, and the line on which it occurs first. It appends nothing if a rule L
/// refuses the model. The only error is that memory was refused.
pub fn push_names(alloc: Global, model: &[u8], text: &mut Vec<u8>) -> Result<(), AllocError>
    ensures { OnOk result (text.new.items ≡ text.old.items ++ spec.names_text model.now) }
{
    match words(alloc, model) {
        Ok(words) => push_names_of_words(alloc, &words, text),
        Err(TextFault::Memory) => Err(AllocError),
        Err(TextFault::Refused { .. }) => Ok(()),
    }
}

fn push_names_of_words(alloc: Global, words: &Words, text: &mut Vec<u8>) -> Result<(), AllocError>
    ensures { OnOk result (text.new.items
        ≡ text.old.items ++ spec.names_of_words words.now) }
{
    let plain = plain_words(alloc, words)?;
    let all = names_in(alloc, &plain)?;
    push_rows(alloc, &all, &plain, text)
}

/// Appends a row for each name among these words, at its first place.
#[tactic(auto, unfolding(crate::specs::Index::name_rows))]
fn push_rows(
    alloc: Global,
    all: &NameCounts,
    words: &[PlainWord<'_>],
    text: &mut Vec<u8>,
) -> Result<(), AllocError>
    ensures { OnOk result (text.new.items
        ≡ text.old.items ++ spec.name_rows all.now [] (map plain_at words.now)) }
{
    let mut before = NameCounts::new(alloc);
    let mut rest = words;
    while let [word, behind @ ..] = rest {
        if let Plain::Name(name) = word.kind() {
            let spoken = Spoken {
                name: name.bytes(),
                line: word.line(),
            };
            push_row(text, all, &before, spoken)?;
            before.add(name.bytes())?;
        }
        rest = behind;
    }
    Ok(())
}

/// Whether a name occurs here first, after others.
#[tactic(auto, unfolding(crate::specs::Index::is_first))]
fn is_first(before: &NameCounts, name: &[u8]) -> bool
    ensures { result ≡ spec.is_first before.now name.now }
{
    before.count(name) == 0
}

/// Appends the row of a name, if it occurs here first.
fn push_row(
    text: &mut Vec<u8>,
    all: &NameCounts,
    before: &NameCounts,
    spoken: Spoken<'_>,
) -> Result<(), AllocError>
    ensures { OnOk result (text.new.items ≡ text.old.items
        ++ spec.name_row all.now before.now spoken.entry.name.now spoken.entry.line) }
{
    if !is_first(before, spoken.name) {
        return Ok(());
    }
    let mut buffer = Buffer::new();
    text.extend_from_slice(spoken.name)?;
    text.extend_from_slice(b": ")?;
    text.extend_from_slice(buffer.format(all.count(spoken.name)).as_bytes())?;
    text.extend_from_slice(b", first on line ")?;
    text.extend_from_slice(buffer.format(spoken.line).as_bytes())?;
    text.extend_from_slice(b"\n")
}

/// Appends the report on a name of a model, in upper case (docs/SENTENCES.md): how often it occurs,
/// its kind and the line of its declaration, the lines on which it is in a DEFINE or HAS, is set,
/// read and else named, and whether it occurs only once, or is never set or never read. The report
/// is `NO NAME` if it does not occur, and nothing if a rule L refuses the model. The only error is
/// that memory was refused.
pub fn push_name(
    alloc: Global,
    model: &[u8],
    name: &[u8],
    text: &mut Vec<u8>,
) -> Result<(), AllocError>
    ensures { OnOk result (text.new.items
        ≡ text.old.items ++ spec.name_text model.now name.now) }
{
    match words(alloc, model) {
        Ok(words) => {
            let plain = plain_words(alloc, &words)?;
            push_name_of_words(alloc, &plain, name, text)
        }
        Err(TextFault::Memory) => Err(AllocError),
        Err(TextFault::Refused { .. }) => Ok(()),
    }
}

fn push_name_of_words(
    alloc: Global,
    words: &[PlainWord<'_>],
    name: &[u8],
    text: &mut Vec<u8>,
) -> Result<(), AllocError>
    ensures { OnOk result (text.new.items
        ≡ text.old.items ++ spec.name_told (map plain_at words.now) name.now) }
{
    let all = names_in(alloc, words)?;
    let count = all.count(name);
    if count == 0 {
        text.extend_from_slice(b"NO NAME ")?;
        text.extend_from_slice(name)?;
        return text.extend_from_slice(b"\n");
    }
    push_told(words, name, count, text)
}

/// Appends the report on a name that occurs `count` times.
fn push_told(
    words: &[PlainWord<'_>],
    name: &[u8],
    count: usize,
    text: &mut Vec<u8>,
) -> Result<(), AllocError>
    ensures { OnOk result (text.new.items
        ≡ text.old.items ++ spec.told_of_name (map plain_at words.now) name.now count) }
{
    push_front(words, name, count, text)?;
    push_roles(words, name, text)?;
    push_remarks(words, name, count, text)?;
    text.extend_from_slice(b"\n")
}

/// Appends a name, how often it occurs, and its kind.
#[tactic(auto, unfolding(crate::specs::Index::name_front))]
fn push_front(
    words: &[PlainWord<'_>],
    name: &[u8],
    count: usize,
    text: &mut Vec<u8>,
) -> Result<(), AllocError>
    ensures { OnOk result (text.new.items
        ≡ text.old.items ++ spec.name_front (map plain_at words.now) name.now count) }
{
    let declarations = collect(*text.allocator(), Wanted::Declared, words)?;
    push_head(text, name, count)?;
    push_known(text, known_as(&declarations, name))
}

/// Appends a name, and how often it occurs.
fn push_head(text: &mut Vec<u8>, name: &[u8], count: usize) -> Result<(), AllocError>
    ensures { OnOk result (text.new.items ≡ text.old.items ++ spec.name_head name.now count) }
{
    let mut buffer = Buffer::new();
    text.extend_from_slice(name)?;
    text.extend_from_slice(b": ")?;
    text.extend_from_slice(buffer.format(count).as_bytes())?;
    text.extend_from_slice(b", ")
}

/// Appends the lines on which a name has each role.
fn push_roles(words: &[PlainWord<'_>], name: &[u8], text: &mut Vec<u8>) -> Result<(), AllocError>
    ensures { OnOk result (text.new.items
        ≡ text.old.items ++ spec.roles_told (map plain_at words.now) name.now) }
{
    push_role_part(words, name, Role::Declared, b", declared on", text)?;
    push_role_part(words, name, Role::Set, b", set on", text)?;
    push_role_part(words, name, Role::Read, b", read on", text)?;
    push_role_part(words, name, Role::Named, b", named on", text)
}

/// Appends the remarks about a name that occurs `count` times.
fn push_remarks(
    words: &[PlainWord<'_>],
    name: &[u8],
    count: usize,
    text: &mut Vec<u8>,
) -> Result<(), AllocError>
    ensures { OnOk result (text.new.items
        ≡ text.old.items ++ spec.remarks (map plain_at words.now) name.now count) }
{
    push_once_remark(text, count)?;
    push_only_remark(words, name, Role::Read, b", NEVER SET", text)?;
    push_only_remark(words, name, Role::Set, b", NEVER READ", text)
}

/// Appends that a name occurs once, if it does.
#[tactic(auto, unfolding(crate::specs::Index::once_remark))]
fn push_once_remark(text: &mut Vec<u8>, count: usize) -> Result<(), AllocError>
    ensures { OnOk result (text.new.items ≡ text.old.items ++ spec.once_remark count) }
{
    push_remark(text, count == 1, b", ONLY ONCE")
}

/// Appends that words use a name in one way only, if they do.
#[tactic(auto, unfolding(crate::specs::Index::only_remark))]
fn push_only_remark(
    words: &[PlainWord<'_>],
    name: &[u8],
    role: Role,
    said: &[u8],
    text: &mut Vec<u8>,
) -> Result<(), AllocError>
    ensures { OnOk result (text.new.items ≡ text.old.items
        ++ spec.only_remark (map plain_at words.now) name.now role said.now) }
{
    let is_so = only_with(*text.allocator(), words, name, role)?;
    push_remark(text, is_so, said)
}

/// Whether a name has a role somewhere.
fn has_role(
    alloc: Global,
    words: &[PlainWord<'_>],
    name: &[u8],
    role: Role,
) -> Result<bool, AllocError>
    ensures { IfOk result (λ has. has ≡ spec.has_role (map plain_at words.now) name.now role) }
{
    let lines = lines_with(alloc, role, name, words)?;
    Ok(!lines.is_empty())
}

/// The other of setting and reading.
fn opposite(role: Role) -> Role
    ensures { result ≡ spec.opposite role }
{
    match role {
        Role::Set => Role::Read,
        _ => Role::Set,
    }
}

/// Whether words set or read a name only, but that they declare it.
#[tactic(auto, unfolding(crate::specs::Index::only_with))]
fn only_with(
    alloc: Global,
    words: &[PlainWord<'_>],
    name: &[u8],
    role: Role,
) -> Result<bool, AllocError>
    ensures { IfOk result (λ only. only ≡ spec.only_with (map plain_at words.now) name.now role) }
{
    let is_used = has_role(alloc, words, name, role)?;
    let is_other = has_role(alloc, words, name, opposite(role))?;
    let is_named = has_role(alloc, words, name, Role::Named)?;
    Ok(is_used && !is_other && !is_named)
}

/// Appends a remark, if it is so.
#[tactic(auto, unfolding(crate::specs::Index::remark))]
fn push_remark(text: &mut Vec<u8>, is_so: bool, said: &[u8]) -> Result<(), AllocError>
    ensures { OnOk result (text.new.items ≡ text.old.items ++ spec.remark is_so said.now) }
{
    if is_so {
        return text.extend_from_slice(said);
    }
    Ok(())
}

/// Appends the lines on which a name has a role, after the text about them.
#[tactic(auto, unfolding(crate::specs::Index::role_part))]
fn push_role_part(
    words: &[PlainWord<'_>],
    name: &[u8],
    role: Role,
    said: &[u8],
    text: &mut Vec<u8>,
) -> Result<(), AllocError>
    ensures { OnOk result (text.new.items ≡ text.old.items
        ++ spec.role_part (map plain_at words.now) name.now role said.now) }
{
    let lines = lines_with(*text.allocator(), role, name, words)?;
    if lines.is_empty() {
        return Ok(());
    }
    text.extend_from_slice(said)?;
    push_lines(text, &lines)
}
