//! The names of a question in a program, and which of them it hasn't.
ghost use Rattle.std.specs.Prelude.{◌≡◌, ◌++◌, OnOk, is_some};
ghost use Rattle.std.specs.List.{list_any};
ghost use Rattle.std.specs.Str.{bytes_eq};
ghost use Rattle.ss_program.specs.declared.kinds.Owner.TheVariants.{OwnedBy};
ghost use Rattle.ss_program.specs.Program.{is_same_owner};
ghost use Rattle.ss_debug.specs.CommandLines.{command_words};
ghost use Rattle.ss_debug.specs.Entities.{class_named, set_named, no_entity_text};
ghost use Rattle.ss_inspect.specs.Texts.{no_such_text};
ghost use Rattle.ss_debug.specs.declared.commands.Question.TheVariants as plain;
ghost use Rattle.ss_prompt.specs.Missing as spec;
ghost use Rattle.ss_prompt.specs.Words.{only_name_of};

use crate::line::only_name;
use ss_debug::{Name, Question as PlainQuestion, find_class, find_set, push_integer};
use ss_program::{Name as DeclaredName, Owner, Program, Section};
use ss_trace::Question;
use std::alloc::AllocError;

/// The name or the owner in a question that the model hasn't.
#[derive(Drop)]
pub enum Missing {
    /// No variable has this name: neither a global one, nor one of any section.
    Variable(Name),
    /// No set has this name.
    Set(Name),
    /// No class has this name.
    Class(Name),
    /// The entities of the class have no attribute of this name.
    Attribute(Name),
    /// The set is one of the system, which is no entity of this number.
    Owner(i64),
}

/// Whether a name is among some.
fn is_among(names: &[DeclaredName], name: &[u8]) -> bool
    ensures { result ≡ list_any (bytes_eq name.now) names.now }
{
    names.iter().any(|other| name == other.bytes.as_slice())
}

/// Whether a name is that of a local variable of some section.
fn is_local_of_some(sections: &[Section], name: &[u8]) -> bool
    ensures { result ≡ list_any (λ s. list_any (bytes_eq name.now) s.locals) sections.now }
{
    sections
        .iter()
        .any(|section| is_among(&section.locals, name))
}

/// Whether a name is that of a variable: the clock, a global one, or a local one of a section.
pub(crate) fn is_variable(program: &Program, name: &[u8]) -> bool
    ensures { result ≡ spec.is_variable program.now name.now }
{
    if name == b"TIME.V".as_slice() {
        return true;
    }
    is_among(&program.globals, name) || is_local_of_some(&program.sections, name)
}

/// Whether a class has this name.
pub(crate) fn is_class(program: &Program, name: &[u8]) -> bool
    ensures { result ≡ is_some (class_named program.now name.now) }
{
    find_class(program, name).is_some()
}

/// Whether a set has this name.
pub(crate) fn is_set(program: &Program, name: &[u8]) -> bool
    ensures { result ≡ is_some (set_named program.now name.now) }
{
    find_set(program, name).is_some()
}

/// Whether a name is that of a variable, a class or a set.
pub(crate) fn is_declared(program: &Program, name: &[u8]) -> bool
    ensures { result ≡ spec.is_declared program.now name.now }
{
    is_variable(program, name) || is_class(program, name) || is_set(program, name)
}

/// Whether the kept attributes that begin so are those of the owners of lists.
fn is_of_owners(head: &[u8]) -> bool
    ensures { result ≡ spec.is_of_owners head.now }
{
    head == b"F.".as_slice() || head == b"L.".as_slice() || head == b"N.".as_slice()
}

/// Whether they are those of members.
fn is_of_members(head: &[u8]) -> bool
    ensures { result ≡ spec.is_of_members head.now }
{
    head == b"P.".as_slice() || head == b"S.".as_slice() || head == b"M.".as_slice()
}

/// Whether the lists of a set are those of the entities of a class.
fn is_owned_by(owner: Owner, class: usize) -> bool
    ensures { result ≡ is_same_owner (OwnedBy class) owner }
{
    match owner {
        Owner::System => false,
        Owner::OwnedBy(c) => class == c,
    }
}

/// Whether the entities of a class have the kept attribute that begins so in the set of this name.
fn is_kept(program: &Program, class: usize, head: &[u8], set: &[u8]) -> bool
    ensures { result ≡ spec.is_kept_in program.now class head.now (set_named program.now set.now) }
{
    let Some(set) = find_set(program, set) else {
        return false;
    };
    if is_of_owners(head) && is_owned_by(program.set_owner(set), class) {
        return true;
    }
    is_of_members(head) && program.member_class(set) == class
}

/// Whether the entities of a class have an attribute of this name, kept ones too.
pub(crate) fn has_attribute(program: &Program, class: usize, name: &[u8]) -> bool
    ensures { result ≡ spec.has_attribute program.now class name.now }
{
    if is_among(program.attributes(class), name) {
        return true;
    }
    let (head, set) = name.split_at(name.len().min(2));
    is_kept(program, class, head, set)
}

/// The name of a set that has a list for this owner by its declaration.
pub(crate) fn listed(program: &Program, name: Name, owner: Option<i64>) -> Result<Name, Missing>
    ensures { result ≡ spec.listed program.now name owner }
{
    let Some(set) = find_set(program, name.as_slice()) else {
        return Err(Missing::Set(name));
    };
    match (program.set_owner(set), owner) {
        (Owner::System, Some(x)) => Err(Missing::Owner(x)),
        _ => Ok(name),
    }
}

/// `c k`.
fn entity(program: &Program, name: Name, x: i64) -> Result<Question, Missing>
    ensures { result ≡ spec.entity_asked program.now name x }
{
    if is_class(program, name.as_slice()) {
        return Ok(Question::Shown(PlainQuestion::Entity(name, x)));
    }
    Err(Missing::Class(name))
}

/// `c k a`.
fn attribute(program: &Program, class: Name, x: i64, name: Name) -> Result<Question, Missing>
    ensures { result ≡ spec.attribute_asked program.now class x name
        (class_named program.now class) }
{
    let Some(number) = find_class(program, class.as_slice()) else {
        return Err(Missing::Class(class));
    };
    if has_attribute(program, number, name.as_slice()) {
        return Ok(Question::Attribute(class, x, name));
    }
    Err(Missing::Attribute(name))
}

/// A question of docs/DEBUGGER.md.
fn shown(program: &Program, question: PlainQuestion) -> Result<Question, Missing>
    ensures { result ≡ spec.shown_asked program.now question }
{
    match question {
        PlainQuestion::Variable(name) => {
            if is_variable(program, name.as_slice()) {
                return Ok(Question::Shown(PlainQuestion::Variable(name)));
            }
            Err(Missing::Variable(name))
        }
        PlainQuestion::Entity(name, x) => entity(program, name, x),
        PlainQuestion::Set(name, owner) => {
            let name = listed(program, name, owner)?;
            Ok(Question::Shown(PlainQuestion::Set(name, owner)))
        }
        other => Ok(Question::Shown(other)),
    }
}

/// A question as a program has its names, before any run. The error is the first of its names that
/// the program hasn't. For a list of the system that is asked for by a number, the error is that
/// number.
#[tactic(auto, unfolding(crate::specs::Missing::asked_of_program))]
pub fn asked_of_program(program: &Program, question: Question) -> Result<Question, Missing>
    ensures { result ≡ spec.asked_of_program program.now question }
{
    match question {
        Question::Shown(question) => shown(program, question),
        Question::Attribute(class, x, name) => attribute(program, class, x, name),
        Question::Count(name, owner) => {
            Ok(Question::Count(listed(program, name, owner)?, owner))
        }
    }
}

/// The question that a bare name asks: a set, or else a variable.
pub(crate) fn bare(program: &Program, name: Name) -> Question
    ensures { result ≡ spec.bare_asked program.now name }
{
    if is_set(program, name.as_slice()) {
        return Question::Shown(PlainQuestion::Set(name, None));
    }
    Question::Shown(PlainQuestion::Variable(name))
}

/// The question that a text asks, if it is a bare name, as a program has its names; or that name, if
/// the program hasn't it. `None` if the text is no bare name.
pub fn bare_question(program: &Program, text: &[u8]) -> Option<Result<Question, Missing>>
    ensures { result ≡ spec.bare_question program.now (only_name_of (command_words text.now)) }
{
    let name = only_name(text)?;
    Some(asked_of_program(program, bare(program, name)))
}

/// Appends that there is nothing of this kind and this name.
fn push_no_such(text: &mut Vec<u8>, kind: &[u8], name: &Name) -> Result<(), AllocError>
    ensures { OnOk result (text.new.items ≡ text.old.items ++ no_such_text kind.now name.now) }
{
    text.extend_from_slice(b"NO ")?;
    text.extend_from_slice(kind)?;
    text.extend_from_slice(b" ")?;
    text.extend_from_slice(name.as_slice())?;
    text.extend_from_slice(b"\n")
}

/// Appends that a class has no entity of a number.
fn push_no_entity(text: &mut Vec<u8>, class: &[u8], x: i64) -> Result<(), AllocError>
    ensures { OnOk result (text.new.items ≡ text.old.items ++ no_entity_text class.now x) }
{
    text.extend_from_slice(b"NO ENTITY ")?;
    text.extend_from_slice(class)?;
    text.extend_from_slice(b" ")?;
    push_integer(text, x)?;
    text.extend_from_slice(b"\n")
}

/// Appends the thing that the model hasn't, as SHOW answers it, a line: `NO VARIABLE v`,
/// `NO SET s`, `NO CLASS c`, `NO ATTRIBUTE a`, or `NO ENTITY SYSTEM k`. After `AllocError` a part
/// of it may be there.
#[tactic(auto, unfolding(crate::specs::Missing::missing_text))]
pub fn push_missing(text: &mut Vec<u8>, missing: &Missing) -> Result<(), AllocError>
    ensures { OnOk result (text.new.items ≡ text.old.items ++ spec.missing_text missing.now) }
{
    match missing {
        Missing::Variable(name) => push_no_such(text, b"VARIABLE", name),
        Missing::Set(name) => push_no_such(text, b"SET", name),
        Missing::Class(name) => push_no_such(text, b"CLASS", name),
        Missing::Attribute(name) => push_no_such(text, b"ATTRIBUTE", name),
        Missing::Owner(x) => push_no_entity(text, b"SYSTEM", *x),
    }
}
