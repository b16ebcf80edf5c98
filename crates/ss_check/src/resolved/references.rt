//! Making references with the numbers of their names, as values, targets and sets.

ghost use Rattle.std.specs.Prelude.{◌≡◌, ◌++◌, map, option_map, IfOk, OnOk};
ghost use Rattle.ss_words.specs.Lists.{all_of, several_view};
ghost use Rattle.ss_words.specs.Reading.{option_view};
ghost use Rattle.ss_routines.specs.View.{expr_view, reference_view};
ghost use Rattle.ss_program.specs.ProgramExpr.{expr_of, factor_of, subscript_of};
ghost use Rattle.ss_check.specs.KindView.{kind_view};
ghost use Rattle.ss_check.specs.Resolved as resolved;
ghost use Rattle.ss_check.specs.ResolvedNames as names;
ghost use Rattle.ss_check.specs.Scope.{in_scope};

use crate::declared::name_kind::NameKind;
use crate::resolved::expressions::{applied_factor, plain_factor, resolve_expr, resolve_subscript};
use crate::resolved::scope::{
    Scope, class_subscript, class_variable, kind, owner_subscript, variable_of,
};
use ss_program::{Arguments, Expr, Factor, Index, SetRef, Subscript, Sum, Target, Targets, Term};
use ss_routines::Reference;
use ss_words::Several;
use std::alloc::{AllocError, Global};

/// A factor by itself as an expression.
fn alone(alloc: Global, factor: Factor) -> Result<Expr, AllocError>
    ensures { IfOk result (λ e. e ≡ resolved.alone (factor_of factor)) }
{
    let first = Term {
        first: factor,
        more: Vec::new(alloc),
    };
    let sum = Sum {
        sign: None,
        first,
        more: Vec::new(alloc),
    };
    Expr::new(alloc, sum)
}

/// A name of this kind with a subscript or none, as a value.
fn value_factor(
    scope: Scope<'_>,
    kind: Option<&NameKind>,
    name: &[u8],
    subscript: Option<Box<Sum>>,
) -> Result<Factor, AllocError>
    ensures { IfOk result
        (λ f. factor_of f
        ≡ in_scope scope.entry names.value_factor (option_map (λ k. kind_view k.now) kind.entry)
        name.now (option_map (λ e. expr_of e.value) subscript)) }
{
    let Some(first) = subscript else {
        return plain_factor(scope, kind, name, None);
    };
    let more = Vec::new(scope.alloc);
    applied_factor(scope, kind, name, Arguments { first, more })
}

/// A reference as a value.
pub(crate) fn resolve_value(scope: Scope<'_>, r: &Reference) -> Result<Expr, AllocError>
    ensures { IfOk result
        (λ x. x ≡ in_scope scope.entry resolved.resolved_value (reference_view r.now)) }
{
    let subscript = resolve_subscript(scope, &r.subscript)?;
    let name = r.name.bytes();
    let factor = value_factor(scope, kind(scope, name), name, subscript)?;
    alone(scope.alloc, factor)
}

/// A subscript in a block of its own.
fn resolve_index(alloc: Global, subscript: Subscript) -> Result<Index, AllocError>
    ensures { IfOk result (λ index. index ≡ subscript_of subscript) }
{
    Ok(Index {
        subscript: Box::new(alloc, subscript)?,
    })
}

/// A name of this kind with a subscript or none, as a target.
fn target_of(
    scope: Scope<'_>,
    kind: Option<&NameKind>,
    name: &[u8],
    subscript: Option<Box<Sum>>,
) -> Result<Target, AllocError>
    ensures { IfOk result
        (λ x. x ≡ in_scope scope.entry names.target_of
        (option_map (λ k. kind_view k.now) kind.entry)
        name.now (option_map (λ e. expr_of e.value) subscript)) }
{
    match kind {
        Some(NameKind::Attribute(class)) => {
            let number = scope.names.class(&class.bytes);
            let subscript = class_subscript(scope, &class.bytes, subscript);
            Ok(Target::Attribute {
                class: number,
                attribute: scope.names.attribute(number, name),
                index: resolve_index(scope.alloc, subscript)?,
            })
        }
        _ => Ok(Target::Variable(variable_of(scope, kind, name))),
    }
}

/// A reference as a target.
pub(crate) fn resolve_target(scope: Scope<'_>, r: &Reference) -> Result<Target, AllocError>
    ensures { IfOk result
        (λ x. x ≡ in_scope scope.entry resolved.resolved_target (reference_view r.now)) }
{
    let subscript = resolve_subscript(scope, &r.subscript)?;
    let name = r.name.bytes();
    target_of(scope, kind(scope, name), name, subscript)
}

/// Puts targets at the end of a list.
fn add_targets(scope: Scope<'_>, list: &mut Vec<Target>, rs: &[Reference]) -> Result<(), AllocError>
    ensures { OnOk result (list.new.items
        ≡ list.old.items
        ++ map (in_scope scope.entry resolved.resolved_target) (map reference_view rs.now)) }
{
    for r in rs {
        list.push(resolve_target(scope, r)?)?;
    }
    Ok(())
}

/// The targets of a list, in order.
pub(crate) fn resolve_targets(scope: Scope<'_>, rs: &[Reference]) -> Result<Targets, AllocError>
    ensures { IfOk result
        (λ xs. xs
        ≡ map (in_scope scope.entry resolved.resolved_target) (map reference_view rs.now)) }
{
    let mut list = Vec::with_capacity(scope.alloc, rs.len())?;
    add_targets(scope, &mut list, rs)?;
    Ok(Targets { list })
}

/// The targets of a list of one or more, in order.
pub(crate) fn resolve_several_targets(
    scope: Scope<'_>,
    rs: &Several<Reference>,
) -> Result<Targets, AllocError>
    ensures { IfOk result (λ xs. xs ≡ map (in_scope scope.entry resolved.resolved_target)
        (all_of (several_view reference_view rs.now))) }
{
    let mut list = Vec::with_capacity(scope.alloc, 1 + rs.others.len())?;
    list.push(resolve_target(scope, &rs.first)?)?;
    add_targets(scope, &mut list, &rs.others)?;
    Ok(Targets { list })
}

/// A reference as a set.
pub(crate) fn resolve_set(scope: Scope<'_>, r: &Reference) -> Result<SetRef, AllocError>
    ensures { IfOk result
        (λ x. x ≡ in_scope scope.entry resolved.resolved_set (reference_view r.now)) }
{
    let subscript = resolve_subscript(scope, &r.subscript)?;
    let name = r.name.bytes();
    let subscript = owner_subscript(scope, name, subscript);
    Ok(SetRef {
        set: scope.names.set(name),
        owner: resolve_index(scope.alloc, subscript)?,
    })
}

/// A value that is or becomes a member of a set, and the set.
pub(crate) fn member_and_set(
    scope: Scope<'_>,
    member: &ss_routines::Expr,
    set: &Reference,
) -> Result<(Expr, SetRef), AllocError>
    ensures member { IfOk result
        (λ x. x.0 ≡ in_scope scope.entry resolved.resolved_expr (expr_view member.now)) }
    ensures set { IfOk result
        (λ x. x.1 ≡ in_scope scope.entry resolved.resolved_set (reference_view set.now)) }
{
    let set = resolve_set(scope, set)?;
    match resolve_expr(scope, member) {
        Ok(member) => Ok((member, set)),
        Err(fault) => {
            drop(set);
            Err(fault)
        }
    }
}

/// The target after CALLED, else the variable of the class's name.
pub(crate) fn called_target(
    scope: Scope<'_>,
    class: &[u8],
    called: &Option<Reference>,
) -> Result<Target, AllocError>
    ensures { IfOk result (λ x. x ≡ in_scope scope.entry resolved.called_target class.now
        (option_view reference_view called.now)) }
{
    match called {
        Some(r) => resolve_target(scope, r),
        None => Ok(Target::Variable(class_variable(scope, class))),
    }
}

/// The value after CALLED, else the variable of the class's name.
pub(crate) fn called_value(
    scope: Scope<'_>,
    class: &[u8],
    called: &Option<Reference>,
) -> Result<Expr, AllocError>
    ensures { IfOk result (λ x. x ≡ in_scope scope.entry resolved.called_value class.now
        (option_view reference_view called.now)) }
{
    match called {
        Some(r) => resolve_value(scope, r),
        None => {
            let factor = Factor::Variable(class_variable(scope, class));
            alone(scope.alloc, factor)
        }
    }
}
