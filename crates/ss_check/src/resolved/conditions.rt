//! Making conditions with the numbers of their names.

ghost use Rattle.std.specs.Prelude.{◌≡◌, IfOk};
ghost use Rattle.ss_routines.specs.View.{condition_view, conjunction_view, relation_view};
ghost use Rattle.ss_program.specs.ProgramCondition.{condition_of, conjunction_of, relation_of};
ghost use Rattle.ss_check.specs.Resolved as resolved;
ghost use Rattle.ss_check.specs.Scope.{in_scope};

use crate::resolved::expressions::resolve_two;
use crate::resolved::references::{member_and_set, resolve_set};
use crate::resolved::scope::Scope;
use ss_program::{Condition, Conjunction, Disjunction, Relation};
use std::alloc::AllocError;

/// A condition with the numbers of its names.
pub(crate) fn resolve_condition(
    scope: Scope<'_>,
    c: &ss_routines::Condition,
) -> Result<Condition, AllocError>
    ensures { IfOk result
        (λ x. x ≡ in_scope scope.entry resolved.resolved_condition (condition_view c.now)) }
{
    let any = resolve_disjunction(scope, c)?;
    Ok(Condition {
        any: Box::new(scope.alloc, any)?,
    })
}

#[cycle(resolve)]
fn resolve_disjunction(
    scope: Scope<'_>,
    c: &ss_routines::Condition,
) -> Result<Disjunction, AllocError>
    ensures { IfOk result (λ x. condition_of x
        ≡ in_scope scope.entry resolved.resolved_condition (condition_view c.now)) }
{
    let mut more = Vec::with_capacity(scope.alloc, c.more.len())?;
    for further in &c.more {
        more.push(resolve_conjunction(scope, further)?)?;
    }
    let first = resolve_conjunction(scope, &c.first)?;
    Ok(Disjunction { first, more })
}

#[cycle(resolve)]
fn resolve_conjunction(
    scope: Scope<'_>,
    c: &ss_routines::Conjunction,
) -> Result<Conjunction, AllocError>
    ensures { IfOk result (λ x. conjunction_of x
        ≡ in_scope scope.entry resolved.resolved_conjunction (conjunction_view c.now)) }
{
    let mut more = Vec::with_capacity(scope.alloc, c.more.len())?;
    for further in &c.more {
        more.push(resolve_relation(scope, further)?)?;
    }
    let first = resolve_relation(scope, &c.first)?;
    Ok(Conjunction { first, more })
}

#[cycle(resolve)]
fn resolve_relation(scope: Scope<'_>, r: &ss_routines::Relation) -> Result<Relation, AllocError>
    ensures { IfOk result (λ x. relation_of x
        ≡ in_scope scope.entry resolved.resolved_relation (relation_view r.now)) }
{
    match r {
        ss_routines::Relation::Compared {
            left,
            comparison,
            right,
        } => {
            let comparison = *comparison;
            let (left, right) = resolve_two(scope, left, right)?;
            Ok(Relation::Compared {
                left,
                comparison,
                right,
            })
        }
        ss_routines::Relation::Empty { set, copula } => Ok(Relation::IsEmpty {
            set: resolve_set(scope, set)?,
            copula: *copula,
        }),
        ss_routines::Relation::Member {
            member,
            copula,
            set,
        } => {
            let copula = *copula;
            let (member, set) = member_and_set(scope, member, set)?;
            Ok(Relation::IsIn {
                member,
                copula,
                set,
            })
        }
        ss_routines::Relation::Within(c) => {
            let any = resolve_disjunction(scope, c)?;
            Ok(Relation::Within(Box::new(scope.alloc, any)?))
        }
    }
}
