//! The translation of a linear expression into operations on one accumulator.
ghost use Rattle.std.specs.Prelude.{◌≡◌, ◌∷◌, ◌++◌, [], option_map, IfOk, Some};
ghost use Rattle.ss_program.specs.ProgramExpr.{expr_of, term_of, factor_of, subscript_of};
ghost use Rattle.ss_program.specs.Lowering as spec;

use crate::op::Op;
use crate::sum::{Factor, Subscript, Sum, Term};
use crate::variable::Variable;
use ss_words::TermSign;
use std::alloc::AllocError;

/// A number as a constant, if it is in range.
fn constant(n: u64) -> Option<i64>
    ensures { result ≡ spec.constant_of n }
{
    i64::try_from(n).ok()
}

/// The factor of a term, if the term is one factor only.
fn lone_factor(t: &Term) -> Option<&Factor>
    ensures { option_map (λ f. factor_of f.now) result ≡ spec.lone_factor (term_of t.now) }
{
    match t.more.split_first() {
        None => Some(&t.first),
        Some(_) => None,
    }
}

/// The factor of a sum, if the sum is one factor only.
fn factor_alone(e: &Sum) -> Option<&Factor>
    ensures { option_map (λ f. factor_of f.now) result ≡ spec.factor_alone (expr_of e.now) }
{
    if e.sign.is_some() {
        return None;
    }
    match e.more.split_first() {
        None => lone_factor(&e.first),
        Some(_) => None,
    }
}

/// The constant that a factor is, if it is one.
fn constant_factor(f: &Factor) -> Option<i64>
    ensures { result ≡ spec.constant_factor (factor_of f.now) }
{
    match f {
        Factor::Number(n) => constant(*n),
        Factor::Variable(_)
        | Factor::Absolute(_)
        | Factor::Greatest(_)
        | Factor::Least(_)
        | Factor::Quotient(..)
        | Factor::Remainder(..)
        | Factor::Attribute { .. }
        | Factor::OwnerKept { .. }
        | Factor::MemberKept { .. }
        | Factor::Within(_) => None,
    }
}

/// The variable that a factor is, if it is one.
fn variable_factor(f: &Factor) -> Option<Variable>
    ensures { result ≡ spec.variable_factor (factor_of f.now) }
{
    match f {
        Factor::Variable(x) => Some(*x),
        Factor::Number(_)
        | Factor::Absolute(_)
        | Factor::Greatest(_)
        | Factor::Least(_)
        | Factor::Quotient(..)
        | Factor::Remainder(..)
        | Factor::Attribute { .. }
        | Factor::OwnerKept { .. }
        | Factor::MemberKept { .. }
        | Factor::Within(_) => None,
    }
}

/// The constant of a sum, if the sum is one constant only.
fn constant_in(e: &Sum) -> Option<i64>
    ensures { result ≡ spec.constant_in (expr_of e.now) }
{
    constant_factor(factor_alone(e)?)
}

/// The variable of a sum, if the sum is one variable only.
fn variable_in(e: &Sum) -> Option<Variable>
    ensures { result ≡ spec.variable_in (expr_of e.now) }
{
    variable_factor(factor_alone(e)?)
}

/// Whether a sum is a single number or variable.
pub(crate) fn is_plain(e: &Sum) -> bool
    ensures { result ≡ spec.is_plain (expr_of e.now) }
{
    constant_in(e).is_some() || variable_in(e).is_some()
}

/// The variable of a subscript, if the subscript is one variable only.
fn subscript_variable(subscript: &Subscript) -> Option<Variable>
    ensures { result ≡ spec.subscript_variable (subscript_of subscript.now) }
{
    match subscript {
        Subscript::Implied(i) => Some(Variable::Global(*i)),
        Subscript::System => None,
        Subscript::Written(e) => variable_in(e),
    }
}

fn load_op(x: Variable) -> Op
    ensures { result ≡ spec.load_op x }
{
    match x {
        Variable::Global(i) => Op::LoadGlobal(i),
        Variable::Local(i) => Op::LoadLocal(i),
        Variable::Clock => Op::LoadClock,
    }
}

fn constant_op(sign: TermSign, c: i64) -> Op
    ensures { result ≡ spec.constant_op sign c }
{
    match sign {
        TermSign::Plus => Op::AddConstant(c),
        TermSign::Minus => Op::SubtractConstant(c),
    }
}

fn variable_op(sign: TermSign, x: Variable) -> Option<Op>
    ensures { result ≡ spec.variable_op sign x }
{
    match (sign, x) {
        (TermSign::Plus, Variable::Global(i)) => Some(Op::AddGlobal(i)),
        (TermSign::Plus, Variable::Local(i)) => Some(Op::AddLocal(i)),
        (TermSign::Minus, Variable::Global(i)) => Some(Op::SubtractGlobal(i)),
        (TermSign::Minus, Variable::Local(i)) => Some(Op::SubtractLocal(i)),
        (_, Variable::Clock) => None,
    }
}

/// The operation of a constant times a variable as a further term.
fn scaled_op(sign: TermSign, c: i64, x: Variable) -> Option<Op>
    ensures { result ≡ spec.scaled_op sign c x }
{
    match (sign, x) {
        (TermSign::Plus, Variable::Global(i)) => Some(Op::AddScaledGlobal(c, i)),
        (TermSign::Plus, Variable::Local(i)) => Some(Op::AddScaledLocal(c, i)),
        (TermSign::Minus, Variable::Global(i)) => Some(Op::SubtractScaledGlobal(c, i)),
        (TermSign::Minus, Variable::Local(i)) => Some(Op::SubtractScaledLocal(c, i)),
        (_, Variable::Clock) => None,
    }
}

/// The operation of a further term that is an attribute of the entity that a variable names.
fn attribute_op(sign: TermSign, class: usize, attribute: usize, x: Variable) -> Option<Op>
    ensures { result ≡ spec.attribute_op sign class attribute x }
{
    match (sign, x) {
        (TermSign::Plus, Variable::Global(i)) => Some(Op::AddAttributeGlobal(class, attribute, i)),
        (TermSign::Plus, Variable::Local(i)) => Some(Op::AddAttributeLocal(class, attribute, i)),
        (TermSign::Minus, Variable::Global(i)) => {
            Some(Op::SubtractAttributeGlobal(class, attribute, i))
        }
        (TermSign::Minus, Variable::Local(i)) => {
            Some(Op::SubtractAttributeLocal(class, attribute, i))
        }
        (_, Variable::Clock) => None,
    }
}

/// The operation of one factor only as a further term.
fn lone_term_op(sign: TermSign, f: &Factor) -> Option<Op>
    ensures { result ≡ spec.lone_term_op sign (factor_of f.now) }
{
    match f {
        Factor::Number(n) => Some(constant_op(sign, constant(*n)?)),
        Factor::Variable(x) => variable_op(sign, *x),
        Factor::Attribute { class, attribute } => {
            let x = subscript_variable(&attribute.subscript)?;
            attribute_op(sign, *class, attribute.number, x)
        }
        Factor::Absolute(_)
        | Factor::Greatest(_)
        | Factor::Least(_)
        | Factor::Quotient(..)
        | Factor::Remainder(..)
        | Factor::OwnerKept { .. }
        | Factor::MemberKept { .. }
        | Factor::Within(_) => None,
    }
}

/// The operation of two factors as a further term, if they are a constant and a variable.
fn pair_term_op(sign: TermSign, f: &Factor, g: &Factor) -> Option<Op>
    ensures { result ≡ spec.pair_term_op sign (factor_of f.now) (factor_of g.now) }
{
    let c = constant_factor(f)?;
    scaled_op(sign, c, variable_factor(g)?)
}

/// The operation of a further term, if one operation is enough.
fn term_op(sign: TermSign, t: &Term) -> Option<Op>
    ensures { result ≡ spec.term_op sign (term_of t.now) }
{
    let Some((second, others)) = t.more.split_first() else {
        return lone_term_op(sign, &t.first);
    };
    match others.split_first() {
        None => pair_term_op(sign, &t.first, second),
        Some(_) => None,
    }
}

fn product_op(x: Variable) -> Option<Op>
    ensures { result ≡ spec.product_op x }
{
    match x {
        Variable::Global(i) => Some(Op::MultiplyGlobal(i)),
        Variable::Local(i) => Some(Op::MultiplyLocal(i)),
        Variable::Clock => None,
    }
}

/// The operation of a further factor, if one operation is enough.
fn factor_op(f: &Factor) -> Option<Op>
    ensures { result ≡ spec.factor_op (factor_of f.now) }
{
    match f {
        Factor::Number(n) => Some(Op::MultiplyConstant(constant(*n)?)),
        Factor::Variable(x) => product_op(*x),
        Factor::Absolute(_)
        | Factor::Greatest(_)
        | Factor::Least(_)
        | Factor::Quotient(..)
        | Factor::Remainder(..)
        | Factor::Attribute { .. }
        | Factor::OwnerKept { .. }
        | Factor::MemberKept { .. }
        | Factor::Within(_) => None,
    }
}

/// Puts an operation, which is linear.
fn put(code: &mut Vec<Op>, op: Op) -> Result<bool, AllocError>
    ensures { IfOk result (λ b. spec.if_linear b code.new.items
        ≡ Some (code.old.items ++ op ∷ [])) }
{
    code.push(op)?;
    Ok(true)
}

/// Puts the operations of a sum, and says whether it is linear. If not, the put operations mean
/// nothing.
#[cycle(lower)]
pub(crate) fn lower_sum(code: &mut Vec<Op>, e: &Sum) -> Result<bool, AllocError>
    requires { code.old.items ≡ [] }
    ensures { IfOk result
        (λ b. spec.lowered (expr_of e.now) ≡ spec.if_linear b code.new.items) }
{
    if !lower_term(code, &e.first)? {
        return Ok(false);
    }
    if let Some(TermSign::Minus) = e.sign {
        code.push(Op::Negate)?;
    }
    for further in &e.more {
        let Some(op) = term_op(further.sign, &further.term) else {
            return Ok(false);
        };
        code.push(op)?;
    }
    Ok(true)
}

#[cycle(lower)]
fn lower_term(code: &mut Vec<Op>, t: &Term) -> Result<bool, AllocError>
    requires { code.old.items ≡ [] }
    ensures { IfOk result
        (λ b. spec.lowered_term (term_of t.now) ≡ spec.if_linear b code.new.items) }
{
    if !lower_factor(code, &t.first)? {
        return Ok(false);
    }
    for further in &t.more {
        let Some(op) = factor_op(further) else {
            return Ok(false);
        };
        code.push(op)?;
    }
    Ok(true)
}

/// Puts the operations of a sum, and one more after them.
#[cycle(lower)]
fn lower_before(code: &mut Vec<Op>, e: &Sum, op: Op) -> Result<bool, AllocError>
    requires { code.old.items ≡ [] }
    ensures { IfOk result (λ b. option_map (λ ops. ops ++ op ∷ []) (spec.lowered (expr_of e.now))
        ≡ spec.if_linear b code.new.items) }
{
    let is_linear = lower_sum(code, e)?;
    code.push(op)?;
    Ok(is_linear)
}

#[cycle(lower)]
fn lower_factor(code: &mut Vec<Op>, f: &Factor) -> Result<bool, AllocError>
    requires { code.old.items ≡ [] }
    ensures { IfOk result
        (λ b. spec.lowered_factor (factor_of f.now) ≡ spec.if_linear b code.new.items) }
{
    match f {
        Factor::Number(n) => match constant(*n) {
            Some(c) => put(code, Op::LoadConstant(c)),
            None => Ok(false),
        },
        Factor::Variable(x) => put(code, load_op(*x)),
        Factor::Absolute(e) => lower_before(code, e, Op::Absolute),
        Factor::Attribute { class, attribute } => {
            let is_linear = lower_subscript(code, &attribute.subscript)?;
            code.push(Op::LoadAttribute(*class, attribute.number))?;
            Ok(is_linear)
        }
        Factor::Quotient(dividend, divisor) => match constant_in(divisor) {
            Some(c) => lower_before(code, dividend, Op::DivideConstant(c)),
            None => Ok(false),
        },
        Factor::Remainder(dividend, divisor) => match constant_in(divisor) {
            Some(c) => lower_before(code, dividend, Op::RemainderConstant(c)),
            None => Ok(false),
        },
        Factor::Within(e) => lower_sum(code, e),
        Factor::Greatest(_)
        | Factor::Least(_)
        | Factor::OwnerKept { .. }
        | Factor::MemberKept { .. } => Ok(false),
    }
}

#[cycle(lower)]
fn lower_subscript(code: &mut Vec<Op>, subscript: &Subscript) -> Result<bool, AllocError>
    requires { code.old.items ≡ [] }
    ensures { IfOk result
        (λ b. spec.lowered_subscript (subscript_of subscript.now)
        ≡ spec.if_linear b code.new.items) }
{
    match subscript {
        Subscript::Implied(i) => put(code, Op::LoadGlobal(*i)),
        Subscript::System => Ok(false),
        Subscript::Written(e) => lower_sum(code, e),
    }
}
