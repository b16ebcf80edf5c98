//! The values of expressions, targets and assignments, or the fault that a statement ends with.
ghost use Rattle.std.specs.Prelude.{◌≡◌, ◌<◌, ℤ, pos, neg_ℤ, ◌+ℤ◌, ◌-ℤ◌, ◌*ℤ◌, unsigned_abs, length, Ok, OnOk, IfErr};
ghost use Rattle.ss_program.specs.ProgramExpr.{expr_of, arguments_of, term_of, factor_of, subscript_of};
ghost use Rattle.ss_program.specs.ProgramExpr as tree;
ghost use Rattle.ss_program.specs.ProgramSound.{IsSoundVariable, IsSoundExpr, IsSoundTerm, IsSoundFactor};
ghost use Rattle.ss_program.specs.ProgramSound.{IsSoundSubscript};
ghost use Rattle.ss_program.specs.ProgramSound.{AreSoundArguments, AreSoundExprs, IsTarget, IsSoundAssign};
ghost use Rattle.ss_values.specs.Values.{result_in_range, with_sign, sum_or_difference, value_of, values_of, FaultIs};
ghost use Rattle.ss_values.specs.Values as terms;
ghost use Rattle.ss_values.specs.Seen.{view_readings, InView};

use crate::fast::{entity_or_none, value_or_none};
use crate::view::View;
use ss_links::SetBoard;
use ss_program::{
    Arguments, Assign, Expr, Factor, Index, MemberKept, OwnerKept, Subscript, Sum, Target, Term,
    TermSign, Values, Variable,
};
use ss_words::{RunFault, StepFault};

/// A sum, or F1.
#[inline]
pub fn sum(x: i64, y: i64) -> Result<i64, RunFault>
    ensures { result ≡ result_in_range (x +ℤ y) }
{
    x.checked_add(y).ok_or(RunFault::OutOfRange)
}

#[inline]
fn difference(x: i64, y: i64) -> Result<i64, RunFault>
    ensures { result ≡ result_in_range (x -ℤ y) }
{
    x.checked_sub(y).ok_or(RunFault::OutOfRange)
}

#[inline]
fn product(x: i64, y: i64) -> Result<i64, RunFault>
    ensures { result ≡ result_in_range (x *ℤ y) }
{
    x.checked_mul(y).ok_or(RunFault::OutOfRange)
}

#[inline]
fn negation(x: i64) -> Result<i64, RunFault>
    ensures { result ≡ result_in_range (neg_ℤ x) }
{
    x.checked_neg().ok_or(RunFault::OutOfRange)
}

fn size(x: i64) -> Result<i64, RunFault>
    ensures { result ≡ result_in_range (pos (unsigned_abs x)) }
{
    x.checked_abs().ok_or(RunFault::OutOfRange)
}

fn quotient(x: i64, y: i64) -> Result<i64, RunFault>
    ensures { result ≡ terms.quotient_value x y }
{
    if y == 0 {
        return Err(RunFault::ZeroDivisor);
    }
    x.checked_div(y).ok_or(RunFault::OutOfRange)
}

fn remainder(x: i64, y: i64) -> Result<i64, RunFault>
    ensures { result ≡ terms.remainder_value x y }
{
    if y == 0 {
        return Err(RunFault::ZeroDivisor);
    }
    Ok(x.wrapping_rem(y))
}

#[inline]
fn number(n: u64) -> Result<i64, RunFault>
    ensures { result ≡ result_in_range (pos n) }
{
    i64::try_from(n).map_err(|_| RunFault::OutOfRange)
}

#[inline]
fn signed(sign: Option<TermSign>, x: i64) -> Result<i64, RunFault>
    ensures { result ≡ with_sign sign x }
{
    match sign {
        None | Some(TermSign::Plus) => Ok(x),
        Some(TermSign::Minus) => negation(x),
    }
}

#[inline]
fn join(sign: TermSign, x: i64, y: i64) -> Result<i64, RunFault>
    ensures { result ≡ sum_or_difference sign x y }
{
    match sign {
        TermSign::Plus => sum(x, y),
        TermSign::Minus => difference(x, y),
    }
}

fn number_or_none(member: Option<u32>) -> i64
    ensures { Ok result ≡ terms.number_or_none member }
{
    match member {
        None => 0,
        Some(number) => i64::from(number),
    }
}

/// `F.s`, `L.s` or `N.s` of a set for the owner that a value names.
pub(crate) fn owner_kept<S: SetBoard>(
    view: &View<'_, S>,
    kept: OwnerKept,
    set: usize,
    owner: i64,
) -> Result<i64, RunFault>
    requires { set < length view.now.store.now.tables.sets }
    ensures { result ≡ terms.owner_kept_value (view_readings view.now) kept set owner }
{
    match kept {
        OwnerKept::First => Ok(number_or_none(view.store.walk_first(set, owner)?)),
        OwnerKept::Last => Ok(number_or_none(view.store.walk_last(set, owner)?)),
        OwnerKept::Count => Ok(i64::from(view.store.count(set, owner)?)),
    }
}

/// `P.s`, `S.s` or `M.s` of a set for the member that a value names.
pub(crate) fn member_kept<S: SetBoard>(
    view: &View<'_, S>,
    kept: MemberKept,
    set: usize,
    member: i64,
) -> Result<i64, RunFault>
    requires { set < length view.now.store.now.tables.sets }
    ensures { result ≡ terms.member_kept_value (view_readings view.now) kept set member }
{
    match kept {
        MemberKept::Predecessor => Ok(number_or_none(view.store.predecessor(set, member)?)),
        MemberKept::Successor => Ok(number_or_none(view.store.successor(set, member)?)),
        MemberKept::Membership => Ok(i64::from(view.store.membership(set, member)?)),
    }
}

/// The value of a variable.
#[inline(always)]
pub fn variable_value<S: SetBoard>(view: View<'_, S>, variable: Variable) -> i64
    requires { InView view IsSoundVariable variable }
    ensures { result ≡ terms.variable_value (view_readings view.entry) variable }
{
    variable_seen(&view, variable)
}

/// As the function before it, for a borrowed view.
#[inline(always)]
pub(crate) fn variable_seen<S: SetBoard>(view: &View<'_, S>, variable: Variable) -> i64
    requires { InView view.now IsSoundVariable variable }
    ensures { result ≡ terms.variable_value (view_readings view.now) variable }
{
    match variable {
        Variable::Global(number) => view.variables[number],
        Variable::Local(number) => view.locals[number],
        Variable::Clock => view.clock,
    }
}

/// The value of an expression, or its first fault.
#[inline(always)]
pub fn value<S: SetBoard>(view: View<'_, S>, e: &Expr) -> Result<i64, RunFault>
    requires { InView view IsSoundExpr e.now }
    ensures { result ≡ value_of (view_readings view.entry) e.now }
{
    value_seen(&view, e)
}

/// As the function before it, for a borrowed view.
#[inline(always)]
pub fn value_seen<S: SetBoard>(view: &View<'_, S>, e: &Expr) -> Result<i64, RunFault>
    requires { InView view.now IsSoundExpr e.now }
    ensures { result ≡ value_of (view_readings view.now) e.now }
{
    match value_or_none(view, e) {
        Some(x) => Ok(x),
        None => value_or_fault(view, e),
    }
}

/// The value of an expression from its tree, or its first fault.
#[cold]
#[inline(never)]
fn value_or_fault<S: SetBoard>(view: &View<'_, S>, e: &Expr) -> Result<i64, RunFault>
    requires { InView view.now IsSoundExpr e.now }
    ensures { result ≡ value_of (view_readings view.now) e.now }
{
    sum_seen(view, e.sum())
}

/// The value of a sum. A sum of one factor only is read directly as the factor.
#[cycle(value)]
#[tactic(auto, using(crate::proofs::Factors::lone_factor))]
#[inline(always)]
fn sum_seen<S: SetBoard>(view: &View<'_, S>, e: &Sum) -> Result<i64, RunFault>
    requires { InView view.now IsSoundExpr (expr_of e.now) }
    ensures { result ≡ value_of (view_readings view.now) (expr_of e.now) }
{
    if e.sign.is_none() && e.more.is_empty() && e.first.more.is_empty() {
        return factor_seen(view, &e.first.first);
    }
    sum_value(view, e)
}

#[cycle(value)]
fn sum_value<S: SetBoard>(view: &View<'_, S>, e: &Sum) -> Result<i64, RunFault>
    requires { InView view.now IsSoundExpr (expr_of e.now) }
    ensures { result ≡ value_of (view_readings view.now) (expr_of e.now) }
{
    let first = term_value(view, &e.first)?;
    let mut total = signed(e.sign, first)?;
    for further in &e.more {
        let next = term_value(view, &further.term)?;
        total = join(further.sign, total, next)?;
    }
    Ok(total)
}

#[cycle(value)]
#[inline(always)]
fn term_value<S: SetBoard>(view: &View<'_, S>, t: &Term) -> Result<i64, RunFault>
    requires { InView view.now IsSoundTerm (term_of t.now) }
    ensures { result ≡ terms.term_value (view_readings view.now) (term_of t.now) }
{
    let mut total = factor_seen(view, &t.first)?;
    for further in &t.more {
        let next = factor_seen(view, further)?;
        total = product(total, next)?;
    }
    Ok(total)
}

/// The value of a factor. A number or a variable is read without a further call.
#[cycle(value)]
#[inline(always)]
fn factor_seen<S: SetBoard>(view: &View<'_, S>, f: &Factor) -> Result<i64, RunFault>
    requires { InView view.now IsSoundFactor (factor_of f.now) }
    ensures { result ≡ terms.factor_value (view_readings view.now) (factor_of f.now) }
{
    match f {
        Factor::Number(n) => number(*n),
        Factor::Variable(x) => Ok(variable_seen(view, *x)),
        _ => factor_value(view, f),
    }
}

#[cycle(value)]
fn factor_value<S: SetBoard>(view: &View<'_, S>, f: &Factor) -> Result<i64, RunFault>
    requires { InView view.now IsSoundFactor (factor_of f.now) }
    ensures { result ≡ terms.factor_value (view_readings view.now) (factor_of f.now) }
{
    match f {
        Factor::Number(n) => number(*n),
        Factor::Variable(x) => Ok(variable_seen(view, *x)),
        Factor::Absolute(e) => size(sum_value(view, e)?),
        Factor::Greatest(arguments) => greatest_value(view, arguments),
        Factor::Least(arguments) => least_value(view, arguments),
        Factor::Quotient(dividend, divisor) => {
            let x = sum_seen(view, dividend)?;
            quotient(x, sum_seen(view, divisor)?)
        }
        Factor::Remainder(dividend, divisor) => {
            let x = sum_seen(view, dividend)?;
            remainder(x, sum_seen(view, divisor)?)
        }
        Factor::Attribute { class, attribute } => {
            let entity = entity_named(view, &attribute.subscript)?;
            view.store.get(*class, attribute.number, entity)
        }
        Factor::OwnerKept { kept, set } => {
            let owner = entity_named(view, &set.subscript)?;
            owner_kept(view, *kept, set.number, owner)
        }
        Factor::MemberKept { kept, set } => {
            let member = entity_named(view, &set.subscript)?;
            member_kept(view, *kept, set.number, member)
        }
        Factor::Within(e) => sum_value(view, e),
    }
}

#[cycle(value)]
fn entity_named<S: SetBoard>(view: &View<'_, S>, subscript: &Subscript) -> Result<i64, RunFault>
    requires { InView view.now IsSoundSubscript (subscript_of subscript.now) }
    ensures { result ≡ terms.subscript_value (view_readings view.now) (subscript_of subscript.now) }
{
    match subscript {
        Subscript::Implied(number) => Ok(view.variables[*number]),
        Subscript::System => Ok(0),
        Subscript::Written(e) => sum_seen(view, e),
    }
}

#[cycle(value)]
fn greatest_value<S: SetBoard>(view: &View<'_, S>, arguments: &Arguments) -> Result<i64, RunFault>
    requires first { InView view.now IsSoundExpr (arguments_of arguments.now).0 }
    requires more { InView view.now AreSoundArguments (arguments_of arguments.now).1 }
    ensures { result ≡ terms.factor_value (view_readings view.now)
        (tree.greatest (arguments_of arguments.now).0 (arguments_of arguments.now).1) }
{
    let mut greatest = sum_value(view, &arguments.first)?;
    for further in &arguments.more {
        let next = sum_value(view, further)?;
        greatest = greatest.max(next);
    }
    Ok(greatest)
}

#[cycle(value)]
fn least_value<S: SetBoard>(view: &View<'_, S>, arguments: &Arguments) -> Result<i64, RunFault>
    requires first { InView view.now IsSoundExpr (arguments_of arguments.now).0 }
    requires more { InView view.now AreSoundArguments (arguments_of arguments.now).1 }
    ensures { result ≡ terms.factor_value (view_readings view.now)
        (tree.least (arguments_of arguments.now).0 (arguments_of arguments.now).1) }
{
    let mut least = sum_value(view, &arguments.first)?;
    for further in &arguments.more {
        let next = sum_value(view, further)?;
        least = least.min(next);
    }
    Ok(least)
}

/// The value of a subscript: without one that of the class's variable.
#[inline(always)]
pub fn subscript_value<S: SetBoard>(view: View<'_, S>, index: &Index) -> Result<i64, RunFault>
    requires { InView view IsSoundSubscript index.now }
    ensures { result ≡ terms.subscript_value (view_readings view.entry) index.now }
{
    subscript_seen(&view, index)
}

/// As the function before it, for a borrowed view.
pub fn subscript_seen<S: SetBoard>(view: &View<'_, S>, index: &Index) -> Result<i64, RunFault>
    requires { InView view.now IsSoundSubscript index.now }
    ensures { result ≡ terms.subscript_value (view_readings view.now) index.now }
{
    match entity_or_none(view, &index.subscript) {
        Some(x) => Ok(x),
        None => entity_named(view, &index.subscript),
    }
}

/// The value of a target.
#[inline(always)]
pub fn target_value<S: SetBoard>(view: View<'_, S>, target: &Target) -> Result<i64, RunFault>
    requires { InView view IsTarget target.now }
    ensures { result ≡ terms.target_value (view_readings view.entry) target.now }
{
    target_seen(&view, target)
}

/// As the function before it, for a borrowed view.
#[inline]
fn target_seen<S: SetBoard>(view: &View<'_, S>, target: &Target) -> Result<i64, RunFault>
    requires { InView view.now IsTarget target.now }
    ensures { result ≡ terms.target_value (view_readings view.now) target.now }
{
    match target {
        Target::Variable(x) => Ok(variable_seen(view, *x)),
        Target::Attribute {
            class,
            attribute,
            index,
        } => {
            let entity = subscript_seen(view, index)?;
            view.store.get(*class, *attribute, entity)
        }
    }
}

/// The value that a LET, an ADD or a SUBTRACT assigns: the expression first, then the target's old
/// value, then the sum.
#[inline]
pub fn assigned_value<S: SetBoard>(view: View<'_, S>, assign: &Assign) -> Result<i64, RunFault>
    requires { InView view IsSoundAssign assign.now }
    ensures { result ≡ terms.assigned_value (view_readings view.entry) assign.now }
{
    match assign {
        Assign::Let { value: e, .. } => value_seen(&view, e),
        Assign::Add { value: e, target } => {
            let x = value_seen(&view, e)?;
            sum(target_seen(&view, target)?, x)
        }
        Assign::Subtract { value: e, target } => {
            let x = value_seen(&view, e)?;
            difference(target_seen(&view, target)?, x)
        }
    }
}

/// Puts the values of expressions in order into `values`, in place of its old ones, or answers the
/// first fault.
pub fn values<S: SetBoard>(
    view: View<'_, S>,
    es: &Values,
    values: &mut Vec<i64>,
) -> Result<(), StepFault>
    requires { InView view AreSoundExprs es.now }
    ensures ok { OnOk result (values_of (view_readings view.entry) es.now ≡ Ok values.new.items) }
    ensures err { IfErr result (λ e. FaultIs e (values_of (view_readings view.entry) es.now)) }
{
    values.clear();
    for e in &es.list {
        values.push(value_seen(&view, e)?)?;
    }
    Ok(())
}
