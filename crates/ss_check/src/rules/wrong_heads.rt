//! What is wrong with the head of a section that breaks a rule.

ghost use Rattle.std.specs.Prelude.{◌≡◌, [], option_map, IfOk};
ghost use Rattle.ss_routines.specs.View as view;
ghost use Rattle.ss_check.specs.Declarations as declared;
ghost use Rattle.ss_check.specs.Facts.{first_of};
ghost use Rattle.ss_check.specs.Increments as later;

use crate::declared::name_list::NameList;
use crate::declared::tables::Tables;
use crate::fault::CheckRule;
use crate::rules::heads::add_parameters;
use crate::rules::named::declared_parameter;
use crate::wrong::{Reason, Wrong, about};
use ss_routines::{Section, SectionKind};
use std::alloc::{AllocError, Global};

/// What is wrong with the parameters of a section: two have one name, or one has a declared name.
fn wrong_parameter(alloc: Global, whole: &Tables, section: &Section) -> Result<Wrong, AllocError>
    ensures { IfOk result (λ wrong. wrong ≡ later.parameter_wrong whole.now
        (declared.parameters (view.section_view section.now).head)) }
{
    let mut list = NameList::new(alloc);
    let wrong = wrong_added(alloc, whole, &mut list, section);
    drop(list);
    wrong
}

/// What is wrong with the parameters of a section, which are added to this list without names.
fn wrong_added(
    alloc: Global,
    whole: &Tables,
    list: &mut NameList,
    section: &Section,
) -> Result<Wrong, AllocError>
    requires { list.old ≡ [] }
    ensures { IfOk result (λ wrong. wrong ≡ later.parameter_wrong whole.now
        (declared.parameters (view.section_view section.now).head)) }
{
    add_parameters(list, section)?;
    match list.first_repeat() {
        Some(name) => about(alloc, Reason::ParameterTwice, Some(name)),
        None => about(
            alloc,
            Reason::DeclaredTwice,
            declared_parameter(whole, section),
        ),
    }
}

/// The name of the event whose section this is.
fn event_of(section: &Section) -> Option<&[u8]>
    ensures { option_map (λ n. n.now) result
        ≡ first_of (declared.events_in (view.section_view section.now).head) }
{
    match &section.kind {
        SectionKind::Event { .. } => Some(section.name.bytes()),
        SectionKind::Main | SectionKind::Routine { .. } => None,
    }
}

/// What is wrong with the head of a section that breaks C1, in the tables with it.
fn head_twice(
    alloc: Global,
    whole: &Tables,
    with: &Tables,
    section: &Section,
) -> Result<Wrong, AllocError>
    ensures { IfOk result (λ wrong. wrong ≡ later.head_twice_with whole.now with.now
        (view.section_view section.now).head) }
{
    if let Some(name) = with.kinds.first_conflict() {
        return about(alloc, Reason::DeclaredTwice, Some(name));
    }
    if let Some(name) = with.events.first_repeat() {
        return about(alloc, Reason::DeclaredTwice, Some(name));
    }
    wrong_parameter(alloc, whole, section)
}

/// What is wrong with the head of a section that breaks this rule, in the tables with it.
pub(crate) fn head_wrong(
    alloc: Global,
    whole: &Tables,
    with: &Tables,
    section: &Section,
    rule: CheckRule,
) -> Result<Wrong, AllocError>
    ensures { IfOk result (λ wrong. wrong ≡ later.head_wrong_with whole.now with.now
        (view.section_view section.now).head rule) }
{
    match rule {
        CheckRule::DeclaredTwice => head_twice(alloc, whole, with, section),
        CheckRule::WrongCount => about(alloc, Reason::WrongCount, event_of(section)),
        CheckRule::WrongEvent => about(alloc, Reason::NoEvent, event_of(section)),
        _ => about(alloc, Reason::SecondMain, None),
    }
}
