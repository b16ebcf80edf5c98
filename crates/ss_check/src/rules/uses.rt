//! The rules on the uses of names in statements.

ghost use Rattle.std.specs.Prelude.{◌≡◌, map, option_map};
ghost use Rattle.std.specs.List.{find, list_any};
ghost use Rattle.ss_check.specs.Declarations as declarations;
ghost use Rattle.ss_check.specs.KindView.{function_view, kind_view};
ghost use Rattle.ss_check.specs.PlaceRules as rules;
ghost use Rattle.ss_check.specs.UseView.{use_view};

use crate::declared::function::Function;
use crate::declared::name_kind::{
    NameKind, names_fixed, names_function, names_routine, names_set, names_variable, serves,
};
use crate::declared::tables::{Counts, Tables};
use crate::fault::CheckRule;
use crate::uses::use_list::Use;

/// Whether it names a class that isn't of the kind needed.
fn is_wrong_class(whole: &Tables, name_use: &Use<'_>) -> bool
    ensures { result ≡ rules.is_wrong_class whole.now (use_view name_use.now) }
{
    match name_use {
        Use::OfClass { need, name } => !serves(*need, whole.kinds.get(name)),
        _ => false,
    }
}

/// Whether it uses a name as another kind than its own.
fn is_misused(whole: &Tables, name_use: &Use<'_>) -> bool
    ensures { result ≡ rules.is_misused whole.now (use_view name_use.now) }
{
    match name_use {
        Use::Value {
            name,
            arguments: None,
        }
        | Use::Target {
            name,
            subscripted: false,
        } => is_valueless(whole.kinds.get(name)),
        Use::Value {
            name,
            arguments: Some(_),
        }
        | Use::Target {
            name,
            subscripted: true,
        } => takes_no_parentheses(whole, whole.kinds.get(name)),
        Use::InSet { name, subscripted } => {
            !names_set(whole.kinds.get(name)) || (*subscripted && is_of_system(whole, name))
        }
        Use::Routine { name, .. } => !whole.routines.has(name),
        Use::LoopVariable(_) | Use::OfClass { .. } | Use::Notice { .. } => false,
    }
}

/// Whether a name of this kind has no value.
fn is_valueless(kind: Option<&NameKind>) -> bool
    ensures { result ≡ rules.is_valueless (option_map (λ k. kind_view k.now) kind.entry) }
{
    names_set(kind) || names_routine(kind)
}

/// Whether a name of this kind takes no parentheses.
fn takes_no_parentheses(whole: &Tables, kind: Option<&NameKind>) -> bool
    ensures { result ≡ rules.takes_no_parentheses whole.now
        (option_map (λ k. kind_view k.now) kind.entry) }
{
    !(names_function(kind) || takes_subscript(whole, kind))
}

/// Whether it is the name of an attribute, or of a kept attribute whose owner is not the system.
fn takes_subscript(whole: &Tables, kind: Option<&NameKind>) -> bool
    ensures { result ≡ rules.takes_subscript whole.now
        (option_map (λ k. kind_view k.now) kind.entry) }
{
    match kind {
        Some(NameKind::Attribute(_) | NameKind::MemberKept { .. }) => true,
        Some(NameKind::OwnerKept { set, .. }) => !is_of_system(whole, &set.bytes),
        _ => false,
    }
}

/// Whether the system owns a set.
fn is_of_system(whole: &Tables, set: &[u8]) -> bool
    ensures { result ≡ declarations.is_of_system whole.now set.now }
{
    matches!(whole.owners.get(set), Some(None))
}

/// Whether a function takes this number of arguments.
fn takes(function: Function, arguments: usize) -> bool
    ensures { result ≡ rules.takes (function_view function) arguments }
{
    match function {
        Function::Absolute => arguments == 1,
        Function::Greatest | Function::Least => arguments >= 2,
        Function::Quotient | Function::Remainder => arguments == 2,
    }
}

/// Whether a function takes another count of arguments, or a name that takes a subscript has more
/// than one.
fn has_wrong_arguments(whole: &Tables, kind: Option<&NameKind>, arguments: usize) -> bool
    ensures { result ≡ rules.has_wrong_arguments whole.now
        (option_map (λ k. kind_view k.now) kind.entry) arguments }
{
    match kind {
        Some(NameKind::Function(function)) => !takes(*function, arguments),
        _ => takes_subscript(whole, kind) && arguments != 1,
    }
}

/// Whether a routine, if there is one, is called with other counts.
fn is_wrong_call(counts: Option<&Counts>, values: usize, targets: usize) -> bool
    ensures { result ≡ rules.is_wrong_call values targets (option_map (λ c. c.now) counts.entry) }
{
    match counts {
        Some(counts) => counts.given != values || counts.yielded != targets,
        None => false,
    }
}

/// Whether it has another count of values, targets or arguments than is needed.
fn is_wrong_count(whole: &Tables, name_use: &Use<'_>) -> bool
    ensures { result ≡ rules.is_wrong_count whole.now (use_view name_use.now) }
{
    match name_use {
        Use::Value {
            name,
            arguments: None,
        } => names_function(whole.kinds.get(name)),
        Use::Value {
            name,
            arguments: Some(count),
        } => has_wrong_arguments(whole, whole.kinds.get(name), *count),
        Use::Notice { event, values } => whole.attributes.count(event) < *values,
        Use::Routine {
            name,
            values,
            targets,
        } => is_wrong_call(whole.routines.get(name), *values, *targets),
        _ => false,
    }
}

/// Whether it assigns to a name that is never assigned.
fn is_fixed(whole: &Tables, name_use: &Use<'_>) -> bool
    ensures { result ≡ rules.is_fixed whole.now (use_view name_use.now) }
{
    match name_use {
        Use::Target { name, .. } => names_fixed(whole.kinds.get(name)),
        Use::LoopVariable(name) => !names_variable(whole.kinds.get(name)),
        _ => false,
    }
}

/// Whether a use breaks this rule on names.
fn breaks_rule(whole: &Tables, rule: CheckRule, name_use: &Use<'_>) -> bool
    ensures { result ≡ rules.breaks_rule whole.now rule (use_view name_use.now) }
{
    match rule {
        CheckRule::WrongClass => is_wrong_class(whole, name_use),
        CheckRule::WrongUse => is_misused(whole, name_use),
        CheckRule::WrongCount => is_wrong_count(whole, name_use),
        CheckRule::FixedTarget => is_fixed(whole, name_use),
        _ => false,
    }
}

/// The first of these uses that breaks the rule.
pub(crate) fn first_use<'a>(whole: &Tables, rule: CheckRule, uses: &[Use<'a>]) -> Option<Use<'a>>
    ensures { option_map use_view result
        ≡ find (rules.breaks_rule whole.now rule) (map use_view uses.now) }
{
    for one in uses {
        if breaks_rule(whole, rule, one) {
            return Some(*one);
        }
    }
    None
}

/// Whether one of these uses breaks the rule.
#[tactic(auto, using(crate::proofs::Finds::found_any))]
pub(crate) fn any_breaks(whole: &Tables, rule: CheckRule, uses: &[Use<'_>]) -> bool
    ensures { result ≡ list_any (rules.breaks_rule whole.now rule) (map use_view uses.now) }
{
    first_use(whole, rule, uses).is_some()
}
