//! What is wrong with a place of a section that breaks a rule.

ghost use Rattle.std.specs.Prelude.{◌≡◌, option_map, IfOk};
ghost use Rattle.ss_routines.specs.View as view;
ghost use Rattle.ss_check.specs.PlaceRules as rules;
ghost use Rattle.ss_check.specs.UseView.{use_view};

use crate::declared::tables::Tables;
use crate::fault::CheckRule;
use crate::rules::places::add_statement;
use crate::rules::uses::first_use;
use crate::uses::use_list::{Use, UseList};
use crate::wrong::{Reason, Wrong, about};
use ss_routines::{Place, Spot};
use std::alloc::{AllocError, Global};

/// The name of a use.
fn name_used<'a>(name_use: Use<'a>) -> &'a [u8]
    ensures { result.now ≡ rules.name_used (use_view name_use.entry) }
{
    match name_use {
        Use::Value { name, .. }
        | Use::Target { name, .. }
        | Use::InSet { name, .. }
        | Use::LoopVariable(name)
        | Use::OfClass { name, .. }
        | Use::Routine { name, .. } => name,
        Use::Notice { event, .. } => event,
    }
}

/// The reason of a rule.
fn place_reason(rule: CheckRule) -> Reason
    ensures { result ≡ rules.place_reason rule }
{
    match rule {
        CheckRule::WrongClass => Reason::WrongClass,
        CheckRule::WrongUse => Reason::WrongUse,
        CheckRule::WrongCount => Reason::WrongCount,
        CheckRule::FixedTarget => Reason::Fixed,
        CheckRule::WrongPicture => Reason::WrongPicture,
        CheckRule::StartOutsideMain => Reason::StartOutsideMain,
        _ => Reason::WithoutFind,
    }
}

/// The reason of a rule that a use breaks.
fn use_reason(rule: CheckRule, name_use: Use<'_>) -> Reason
    ensures { result ≡ rules.use_reason rule (use_view name_use.entry) }
{
    match (rule, name_use) {
        (CheckRule::FixedTarget, Use::LoopVariable(_)) => Reason::NoVariable,
        _ => place_reason(rule),
    }
}

/// What is wrong by the use that breaks a rule, if the rule is about names.
fn use_wrong(alloc: Global, rule: CheckRule, found: Option<Use<'_>>) -> Result<Wrong, AllocError>
    ensures { IfOk result
        (λ wrong. wrong ≡ rules.use_wrong rule (option_map use_view found.entry)) }
{
    match found {
        Some(name_use) => {
            let reason = use_reason(rule, name_use);
            about(alloc, reason, Some(name_used(name_use)))
        }
        None => about(alloc, place_reason(rule), None),
    }
}

/// What is wrong with a place that breaks this rule, with others after it.
pub(crate) fn place_wrong(
    alloc: Global,
    whole: &Tables,
    rule: CheckRule,
    place: &Place,
    behind: &[Spot],
) -> Result<Wrong, AllocError>
    ensures { IfOk result (λ wrong. wrong ≡ rules.place_wrong whole.now
        (rules.uses_from (view.place_view place.now) (view.spots behind.now)) rule) }
{
    let mut uses = UseList::new(alloc);
    add_statement(&mut uses, place, behind)?;
    use_wrong(alloc, rule, first_use(whole, rule, uses.as_slice()))
}
