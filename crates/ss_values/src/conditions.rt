//! The truth of conditions, from the left.
ghost use Rattle.std.specs.Prelude.{◌≡◌};
ghost use Rattle.ss_program.specs.ProgramCondition.{condition_of, conjunction_of, relation_of};
ghost use Rattle.ss_program.specs.ProgramSound.{IsSoundCondition, IsSoundConjunction, IsSoundRelation, IsSoundExpr};
ghost use Rattle.ss_program.specs.ProgramSound.{IsSoundSetRef};
ghost use Rattle.ss_values.specs.Conditions as conditions;
ghost use Rattle.ss_values.specs.Seen.{view_readings, InView};

use crate::evaluation::{subscript_seen, value_seen};
use crate::view::View;
use ss_links::SetBoard;
use ss_program::{Comparison, Condition, Conjunction, Copula, Disjunction, Expr, Relation, SetRef};
use ss_words::RunFault;

fn compare(comparison: Comparison, x: i64, y: i64) -> bool
    ensures { result ≡ conditions.comparison_holds comparison x y }
{
    match comparison {
        Comparison::Equal => x == y,
        Comparison::Unequal => x != y,
        Comparison::Less => x < y,
        Comparison::Greater => y < x,
        Comparison::AtMost => x <= y,
        Comparison::AtLeast => y <= x,
    }
}

fn affirm(copula: Copula, truth: bool) -> bool
    ensures { result ≡ conditions.truth_by copula truth }
{
    match copula {
        Copula::Is => truth,
        Copula::IsNot => !truth,
    }
}

/// Whether a list has no member, or F3 if its owner does not exist.
fn is_empty<S: SetBoard>(view: &View<'_, S>, set: &SetRef) -> Result<bool, RunFault>
    requires { InView view.now IsSoundSetRef set.now }
    ensures { result ≡ conditions.is_empty_list (view_readings view.now) set.now }
{
    let owner = subscript_seen(view, &set.owner)?;
    Ok(view.store.count(set.set, owner)? == 0)
}

/// Whether a list has the member that a value names, or F3 if the owner or member does not exist.
fn is_in<S: SetBoard>(view: &View<'_, S>, member: &Expr, set: &SetRef) -> Result<bool, RunFault>
    requires member { InView view.now IsSoundExpr member.now }
    requires set { InView view.now IsSoundSetRef set.now }
    ensures { result ≡ conditions.is_in_list (view_readings view.now) member.now set.now }
{
    let x = value_seen(view, member)?;
    let owner = subscript_seen(view, &set.owner)?;
    view.store.is_in(set.set, owner, x)
}

/// Whether a condition holds, or its first fault. AND and OR stop when they are decided.
pub fn holds<S: SetBoard>(view: View<'_, S>, condition: &Condition) -> Result<bool, RunFault>
    requires { InView view IsSoundCondition condition.now }
    ensures { result ≡ conditions.holds (view_readings view.entry) condition.now }
{
    any_holds(&view, &condition.any)
}

#[cycle(holds)]
fn any_holds<S: SetBoard>(view: &View<'_, S>, c: &Disjunction) -> Result<bool, RunFault>
    requires { InView view.now IsSoundCondition (condition_of c.now) }
    ensures { result ≡ conditions.holds (view_readings view.now) (condition_of c.now) }
{
    let mut truth = all_hold(view, &c.first)?;
    for further in &c.more {
        if truth {
            return Ok(true);
        }
        truth = all_hold(view, further)?;
    }
    Ok(truth)
}

#[cycle(holds)]
fn all_hold<S: SetBoard>(view: &View<'_, S>, c: &Conjunction) -> Result<bool, RunFault>
    requires { InView view.now IsSoundConjunction (conjunction_of c.now) }
    ensures { result
        ≡ conditions.conjunction_holds (view_readings view.now) (conjunction_of c.now) }
{
    let mut truth = relation_holds(view, &c.first)?;
    for further in &c.more {
        if !truth {
            return Ok(false);
        }
        truth = relation_holds(view, further)?;
    }
    Ok(truth)
}

#[cycle(holds)]
#[inline(always)]
fn relation_holds<S: SetBoard>(view: &View<'_, S>, r: &Relation) -> Result<bool, RunFault>
    requires { InView view.now IsSoundRelation (relation_of r.now) }
    ensures { result ≡ conditions.relation_holds (view_readings view.now) (relation_of r.now) }
{
    match r {
        Relation::Compared {
            left,
            comparison,
            right,
        } => {
            let x = value_seen(view, left)?;
            let y = value_seen(view, right)?;
            Ok(compare(*comparison, x, y))
        }
        Relation::IsEmpty { set, copula } => Ok(affirm(*copula, is_empty(view, set)?)),
        Relation::IsIn {
            member,
            copula,
            set,
        } => Ok(affirm(*copula, is_in(view, member, set)?)),
        Relation::Within(c) => any_holds(view, c),
    }
}
