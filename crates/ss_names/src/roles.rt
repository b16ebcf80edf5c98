//! How a name is used, as far as the words directly before it show.
ghost use Rattle.std.specs.Prelude.{◌≡◌, ◌++◌, IfOk, OnOk, map};
ghost use Rattle.ss_words.specs.Plain.{plain_at};
ghost use Rattle.ss_names.specs.Here.{at_start};
ghost use Rattle.ss_names.specs.Roles as spec;

use crate::collected::here_behind;
use crate::here::Here;
use itoa::Buffer;
use ss_words::{Mark, Plain, PlainWord, Reserved, Sign};
use std::alloc::{AllocError, Global};

/// How a name is used at its place.
#[derive(Clone, Copy)]
pub enum Role {
    /// In a DEFINE or a HAS.
    Declared,
    /// Directly after LET, READ, COMPUTE, or the YIELDING of a CALL.
    Set,
    /// Directly after an operator, or a word before a condition or a value.
    Read,
    /// In another way.
    Named,
}

/// The role of a name at a place.
pub fn role_at(here: Here) -> Role
    ensures { result ≡ spec.role_at here }
{
    if matches!(here.last, Some(Reserved::Define | Reserved::Has)) {
        return Role::Declared;
    }
    match here.before {
        None => Role::Named,
        Some(Mark::Sign(sign)) => read_or_named(sign_reads(sign)),
        Some(Mark::Reserved(word)) => {
            if sets_name(word, here.begun) {
                return Role::Set;
            }
            read_or_named(reads_name(word))
        }
    }
}

/// Whether a name may well occur once at a place: as an attribute, which may only carry a value
/// given in its place, or as the variable of a loop that only counts.
pub fn may_occur_once(here: Here) -> bool
    ensures { result ≡ spec.may_occur_once here }
{
    is_has(here.last) || is_for(here.before)
}

fn is_has(last: Option<Reserved>) -> bool
    ensures { result ≡ spec.is_has last }
{
    matches!(last, Some(Reserved::Has))
}

fn is_for(before: Option<Mark>) -> bool
    ensures { result ≡ spec.is_for before }
{
    matches!(before, Some(Mark::Reserved(Reserved::For)))
}

/// Whether a reserved word sets the name directly after it, in a statement that `begun` begins.
fn sets_name(word: Reserved, begun: Option<Reserved>) -> bool
    ensures { result ≡ spec.sets_name word begun }
{
    match word {
        Reserved::Let | Reserved::Read | Reserved::Compute => true,
        Reserved::Yielding => matches!(begun, Some(Reserved::Call)),
        _ => false,
    }
}

fn reads_name(word: Reserved) -> bool
    ensures { result ≡ spec.reads_name word }
{
    matches!(
        word,
        Reserved::Ne
            | Reserved::If
            | Reserved::With
            | Reserved::Unless
            | Reserved::While
            | Reserved::Until
            | Reserved::Or
            | Reserved::And
    )
}

fn sign_reads(sign: Sign) -> bool
    ensures { result ≡ spec.sign_reads sign }
{
    !matches!(sign, Sign::Open | Sign::Close | Sign::Comma)
}

fn read_or_named(is_read: bool) -> Role
    ensures { result ≡ spec.read_or_named is_read }
{
    if is_read { Role::Read } else { Role::Named }
}

pub fn same_role(one: Role, other: Role) -> bool
    ensures { result ≡ spec.same_role one other }
{
    match (one, other) {
        (Role::Declared, Role::Declared)
        | (Role::Set, Role::Set)
        | (Role::Read, Role::Read)
        | (Role::Named, Role::Named) => true,
        _ => false,
    }
}

/// The lines on which a name has this role.
#[tactic(auto, unfolding(crate::specs::Roles::lines_with))]
pub fn lines_with(
    alloc: Global,
    role: Role,
    told: &[u8],
    words: &[PlainWord<'_>],
) -> Result<Vec<usize>, AllocError>
    ensures { IfOk result (λ lines. lines.items
        ≡ spec.lines_with role told.now at_start (map plain_at words.now)) }
{
    let mut lines = Vec::new(alloc);
    let mut here = Here::at_start();
    let mut rest = words;
    while let [word, behind @ ..] = rest {
        if let Plain::Name(name) = word.kind() {
            if same_role(role_at(here), role) && name.bytes() == told {
                lines.push(word.line())?;
            }
        }
        here = here_behind(here, word, behind);
        rest = behind;
    }
    Ok(lines)
}

/// Appends the numbers of lines, each after a blank.
#[tactic(auto, unfolding(crate::specs::Roles::lines_text))]
pub fn push_lines(text: &mut Vec<u8>, lines: &[usize]) -> Result<(), AllocError>
    ensures { OnOk result (text.new.items ≡ text.old.items ++ spec.lines_text lines.now) }
{
    let mut rest = lines;
    while let [line, behind @ ..] = rest {
        push_line(text, *line)?;
        rest = behind;
    }
    Ok(())
}

/// Appends a blank and the number of a line.
fn push_line(text: &mut Vec<u8>, line: usize) -> Result<(), AllocError>
    ensures { OnOk result (text.new.items ≡ text.old.items ++ 32 ∷ decimal line) }
{
    let mut buffer = Buffer::new();
    text.push(b' ')?;
    text.extend_from_slice(buffer.format(line).as_bytes())
}

ghost use Rattle.std.specs.Prelude.{◌∷◌, decimal};
