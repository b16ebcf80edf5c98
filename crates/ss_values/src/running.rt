//! Runs the operations of a linear expression on one accumulator.
ghost use Rattle.std.specs.Prelude.{◌≡◌, pos, ◌+ℤ◌, ◌-ℤ◌, Ok, IfSome};
ghost use Rattle.std.specs.List.{All};
ghost use Rattle.ss_store.specs.Store.{number_of, attribute_of};
ghost use Rattle.ss_values.specs.Seen.{view_readings, scope_of, InView};
ghost use Rattle.ss_values.specs.Running.{IsSoundOp, acted, run};
ghost use Rattle.ss_values.specs.Values.{result_in_range};

use crate::fast::{product, quotient, remainder, size};
use crate::view::View;
use ss_links::SetBoard;
use ss_program::Op;

#[inline(always)]
fn plus(x: i64, y: i64) -> Option<i64>
    ensures { IfSome result (λ z. result_in_range (x +ℤ y) ≡ Ok z) }
{
    x.checked_add(y)
}

#[inline(always)]
fn minus(x: i64, y: i64) -> Option<i64>
    ensures { IfSome result (λ z. result_in_range (x -ℤ y) ≡ Ok z) }
{
    x.checked_sub(y)
}

/// The value of an attribute of the entity of a number.
#[inline(always)]
fn read<S: SetBoard>(view: &View<'_, S>, class: usize, attribute: usize, number: i64) -> Option<i64>
    ensures { IfSome result (λ z. attribute_of (view_readings view.now).store class attribute
        (number_of number) ≡ Ok z) }
{
    view.store.get(class, attribute, number).ok()
}

/// The value of the accumulator after an operation. None says nothing.
#[inline(always)]
fn act<S: SetBoard>(view: &View<'_, S>, op: Op, x: i64) -> Option<i64>
    requires { InView view.now IsSoundOp op }
    ensures { IfSome result (λ y. acted (view_readings view.now) op x ≡ Ok y) }
{
    match op {
        Op::LoadConstant(c) => Some(c),
        Op::LoadGlobal(i) => Some(view.variables[i]),
        Op::LoadLocal(i) => Some(view.locals[i]),
        Op::LoadClock => Some(view.clock),
        Op::LoadAttribute(class, attribute) => read(view, class, attribute, x),
        Op::AddConstant(c) => plus(x, c),
        Op::AddGlobal(i) => plus(x, view.variables[i]),
        Op::AddLocal(i) => plus(x, view.locals[i]),
        Op::AddScaledGlobal(c, i) => plus(x, product(c, view.variables[i])?),
        Op::AddScaledLocal(c, i) => plus(x, product(c, view.locals[i])?),
        Op::AddAttributeGlobal(class, attribute, i) => {
            plus(x, read(view, class, attribute, view.variables[i])?)
        }
        Op::AddAttributeLocal(class, attribute, i) => {
            plus(x, read(view, class, attribute, view.locals[i])?)
        }
        Op::SubtractConstant(c) => minus(x, c),
        Op::SubtractGlobal(i) => minus(x, view.variables[i]),
        Op::SubtractLocal(i) => minus(x, view.locals[i]),
        Op::SubtractScaledGlobal(c, i) => minus(x, product(c, view.variables[i])?),
        Op::SubtractScaledLocal(c, i) => minus(x, product(c, view.locals[i])?),
        Op::SubtractAttributeGlobal(class, attribute, i) => {
            minus(x, read(view, class, attribute, view.variables[i])?)
        }
        Op::SubtractAttributeLocal(class, attribute, i) => {
            minus(x, read(view, class, attribute, view.locals[i])?)
        }
        Op::MultiplyConstant(c) => product(x, c),
        Op::MultiplyGlobal(i) => product(x, view.variables[i]),
        Op::MultiplyLocal(i) => product(x, view.locals[i]),
        Op::DivideConstant(c) => quotient(x, c),
        Op::RemainderConstant(c) => remainder(x, c),
        Op::Negate => x.checked_neg(),
        Op::Absolute => size(x),
    }
}

/// The value of an accumulator that is 0, after operations in order. None says nothing.
#[inline(never)]
pub(crate) fn run_ops<S: SetBoard>(view: &View<'_, S>, code: &[Op]) -> Option<i64>
    requires { All (IsSoundOp (scope_of (view_readings view.now))) code.now }
    ensures { IfSome result (λ x. run (view_readings view.now) (pos 0) code.now ≡ Ok x) }
{
    let mut x = 0;
    for op in code {
        x = act(view, *op, x)?;
    }
    Some(x)
}
