//! Values that come back in registers: a number, or none. None says nothing. If there is a fault,
//! `evaluation` finds it.
ghost use Rattle.std.specs.Prelude.{◌≡◌, ◌<◌, ℤ, pos, neg_ℤ, ◌+ℤ◌, ◌-ℤ◌, ◌*ℤ◌, unsigned_abs, length, Ok, IfSome};
ghost use Rattle.ss_program.specs.ProgramExpr.{expr_of, arguments_of, term_of, factor_of, subscript_of};
ghost use Rattle.ss_program.specs.ProgramExpr as tree;
ghost use Rattle.ss_program.specs.ProgramSound.{IsSoundExpr, IsSoundTerm, IsSoundFactor};
ghost use Rattle.ss_program.specs.ProgramSound.{IsSoundSubscript, AreSoundArguments};
ghost use Rattle.ss_values.specs.Values.{result_in_range, with_sign, sum_or_difference, value_of};
ghost use Rattle.ss_values.specs.Values as terms;
ghost use Rattle.ss_values.specs.Seen.{view_readings, InView};

use crate::evaluation::{member_kept, owner_kept, variable_seen};
use crate::running::run_ops;
use crate::view::View;
use ss_links::SetBoard;
use ss_program::{Arguments, Expr, Factor, Subscript, Sum, Term, TermSign};

#[inline(always)]
pub(crate) fn product(x: i64, y: i64) -> Option<i64>
    ensures { IfSome result (λ z. result_in_range (x *ℤ y) ≡ Ok z) }
{
    x.checked_mul(y)
}

#[inline(always)]
fn number(n: u64) -> Option<i64>
    ensures { IfSome result (λ z. result_in_range (pos n) ≡ Ok z) }
{
    i64::try_from(n).ok()
}

#[inline(always)]
pub(crate) fn size(x: i64) -> Option<i64>
    ensures { IfSome result (λ z. result_in_range (pos (unsigned_abs x)) ≡ Ok z) }
{
    x.checked_abs()
}

#[inline(always)]
fn signed(sign: Option<TermSign>, x: i64) -> Option<i64>
    ensures { IfSome result (λ z. with_sign sign x ≡ Ok z) }
{
    match sign {
        None | Some(TermSign::Plus) => Some(x),
        Some(TermSign::Minus) => x.checked_neg(),
    }
}

#[inline(always)]
fn join(sign: TermSign, x: i64, y: i64) -> Option<i64>
    ensures { IfSome result (λ z. sum_or_difference sign x y ≡ Ok z) }
{
    match sign {
        TermSign::Plus => x.checked_add(y),
        TermSign::Minus => x.checked_sub(y),
    }
}

#[inline(always)]
pub(crate) fn quotient(x: i64, y: i64) -> Option<i64>
    ensures { IfSome result (λ z. terms.quotient_value x y ≡ Ok z) }
{
    if y == 0 {
        return None;
    }
    x.checked_div(y)
}

#[inline(always)]
pub(crate) fn remainder(x: i64, y: i64) -> Option<i64>
    ensures { IfSome result (λ z. terms.remainder_value x y ≡ Ok z) }
{
    if y == 0 {
        return None;
    }
    Some(x.wrapping_rem(y))
}

/// The value of an expression: of its operations, if it has some, else of its tree.
#[tactic(auto, using(crate::proofs::LoweredValue::lowered_run, crate::proofs::LoweredSound::lowered_sound))]
#[inline(always)]
pub(crate) fn value_or_none<S: SetBoard>(view: &View<'_, S>, e: &Expr) -> Option<i64>
    requires { InView view.now IsSoundExpr e.now }
    ensures { IfSome result (λ x. value_of (view_readings view.now) e.now ≡ Ok x) }
{
    let code = e.code();
    if code.is_empty() {
        return sum_or_none(view, e.sum());
    }
    run_ops(view, code)
}

/// The value of a sum, from its tree. A sum of one factor only is read directly as the factor.
#[cycle(fast)]
#[tactic(auto, using(crate::proofs::Factors::lone_factor))]
#[inline(always)]
fn sum_or_none<S: SetBoard>(view: &View<'_, S>, e: &Sum) -> Option<i64>
    requires { InView view.now IsSoundExpr (expr_of e.now) }
    ensures { IfSome result (λ x. value_of (view_readings view.now) (expr_of e.now) ≡ Ok x) }
{
    if e.sign.is_none() && e.more.is_empty() && e.first.more.is_empty() {
        return factor_or_none(view, &e.first.first);
    }
    long_sum_or_none(view, e)
}

#[cycle(fast)]
#[inline(never)]
fn long_sum_or_none<S: SetBoard>(view: &View<'_, S>, e: &Sum) -> Option<i64>
    requires { InView view.now IsSoundExpr (expr_of e.now) }
    ensures { IfSome result (λ x. value_of (view_readings view.now) (expr_of e.now) ≡ Ok x) }
{
    let first = term_or_none(view, &e.first)?;
    let mut total = signed(e.sign, first)?;
    for further in &e.more {
        let next = term_or_none(view, &further.term)?;
        total = join(further.sign, total, next)?;
    }
    Some(total)
}

#[cycle(fast)]
#[inline(always)]
fn term_or_none<S: SetBoard>(view: &View<'_, S>, t: &Term) -> Option<i64>
    requires { InView view.now IsSoundTerm (term_of t.now) }
    ensures { IfSome result
        (λ x. terms.term_value (view_readings view.now) (term_of t.now) ≡ Ok x) }
{
    let mut total = factor_or_none(view, &t.first)?;
    for further in &t.more {
        let next = factor_or_none(view, further)?;
        total = product(total, next)?;
    }
    Some(total)
}

/// The value of a factor. A number or a variable is read without a further call.
#[cycle(fast)]
#[inline(always)]
fn factor_or_none<S: SetBoard>(view: &View<'_, S>, f: &Factor) -> Option<i64>
    requires { InView view.now IsSoundFactor (factor_of f.now) }
    ensures { IfSome result
        (λ x. terms.factor_value (view_readings view.now) (factor_of f.now) ≡ Ok x) }
{
    match f {
        Factor::Number(n) => number(*n),
        Factor::Variable(x) => Some(variable_seen(view, *x)),
        Factor::Attribute { .. } => attribute_or_none(view, f),
        _ => far_factor_or_none(view, f),
    }
}

/// The value of an attribute, or none if the factor is none. It is short, so that reading an
/// attribute costs no more than it must.
#[cycle(fast)]
#[inline(never)]
fn attribute_or_none<S: SetBoard>(view: &View<'_, S>, f: &Factor) -> Option<i64>
    requires { InView view.now IsSoundFactor (factor_of f.now) }
    ensures { IfSome result
        (λ x. terms.factor_value (view_readings view.now) (factor_of f.now) ≡ Ok x) }
{
    match f {
        Factor::Attribute { class, attribute } => {
            let entity = entity_or_none(view, &attribute.subscript)?;
            view.store.get(*class, attribute.number, entity).ok()
        }
        _ => None,
    }
}

#[cycle(fast)]
#[inline(never)]
fn far_factor_or_none<S: SetBoard>(view: &View<'_, S>, f: &Factor) -> Option<i64>
    requires { InView view.now IsSoundFactor (factor_of f.now) }
    ensures { IfSome result
        (λ x. terms.factor_value (view_readings view.now) (factor_of f.now) ≡ Ok x) }
{
    match f {
        Factor::Number(n) => number(*n),
        Factor::Variable(x) => Some(variable_seen(view, *x)),
        Factor::Absolute(e) => size(sum_or_none(view, e)?),
        Factor::Greatest(arguments) => greatest_or_none(view, arguments),
        Factor::Least(arguments) => least_or_none(view, arguments),
        Factor::Quotient(dividend, divisor) => {
            let x = sum_or_none(view, dividend)?;
            quotient(x, sum_or_none(view, divisor)?)
        }
        Factor::Remainder(dividend, divisor) => {
            let x = sum_or_none(view, dividend)?;
            remainder(x, sum_or_none(view, divisor)?)
        }
        Factor::Attribute { .. } => None,
        Factor::OwnerKept { kept, set } => {
            let owner = entity_or_none(view, &set.subscript)?;
            owner_kept(view, *kept, set.number, owner).ok()
        }
        Factor::MemberKept { kept, set } => {
            let member = entity_or_none(view, &set.subscript)?;
            member_kept(view, *kept, set.number, member).ok()
        }
        Factor::Within(e) => sum_or_none(view, e),
    }
}

/// The number that a subscript means: if none is written, that of the class's variable.
#[cycle(fast)]
#[inline(always)]
pub(crate) fn entity_or_none<S: SetBoard>(view: &View<'_, S>, subscript: &Subscript) -> Option<i64>
    requires { InView view.now IsSoundSubscript (subscript_of subscript.now) }
    ensures { IfSome result (λ x. terms.subscript_value (view_readings view.now)
        (subscript_of subscript.now) ≡ Ok x) }
{
    match subscript {
        Subscript::Implied(number) => Some(view.variables[*number]),
        Subscript::System => Some(0),
        Subscript::Written(e) => sum_or_none(view, e),
    }
}

#[cycle(fast)]
fn greatest_or_none<S: SetBoard>(view: &View<'_, S>, arguments: &Arguments) -> Option<i64>
    requires first { InView view.now IsSoundExpr (arguments_of arguments.now).0 }
    requires more { InView view.now AreSoundArguments (arguments_of arguments.now).1 }
    ensures { IfSome result (λ x. terms.factor_value (view_readings view.now)
        (tree.greatest (arguments_of arguments.now).0 (arguments_of arguments.now).1) ≡ Ok x) }
{
    let mut greatest = sum_or_none(view, &arguments.first)?;
    for further in &arguments.more {
        let next = sum_or_none(view, further)?;
        greatest = greatest.max(next);
    }
    Some(greatest)
}

#[cycle(fast)]
fn least_or_none<S: SetBoard>(view: &View<'_, S>, arguments: &Arguments) -> Option<i64>
    requires first { InView view.now IsSoundExpr (arguments_of arguments.now).0 }
    requires more { InView view.now AreSoundArguments (arguments_of arguments.now).1 }
    ensures { IfSome result (λ x. terms.factor_value (view_readings view.now)
        (tree.least (arguments_of arguments.now).0 (arguments_of arguments.now).1) ≡ Ok x) }
{
    let mut least = sum_or_none(view, &arguments.first)?;
    for further in &arguments.more {
        let next = sum_or_none(view, further)?;
        least = least.min(next);
    }
    Some(least)
}
