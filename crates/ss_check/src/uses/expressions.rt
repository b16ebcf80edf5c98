//! Adding the uses of names in expressions and references.

ghost use Rattle.std.specs.Prelude.{◌≡◌, ◌+◌, ◌++◌, map, OnOk};
ghost use Rattle.std.specs.List.{flat_map};
ghost use Rattle.ss_words.specs.Reading.{option_view};
ghost use Rattle.ss_routines.specs.Expr.{exprs_of};
ghost use Rattle.ss_routines.specs.View.{application_view, expr_view, term_view, factor_view, reference_view};
ghost use Rattle.ss_check.specs.Uses as uses_of;

use crate::uses::use_list::{Use, UseList};
use ss_routines::{Application, Expr, Factor, Reference, Term};
use std::alloc::AllocError;

/// Adds the uses of an expression.
#[cycle(uses)]
pub(crate) fn add_expr<'a>(uses: &mut UseList<'a>, e: &'a Expr) -> Result<(), AllocError>
    ensures { OnOk result (uses.new ≡ uses.old ++ uses_of.uses_expr (expr_view e.now)) }
{
    add_term(uses, &e.first)?;
    for further in &e.more {
        add_term(uses, &further.term)?;
    }
    Ok(())
}

#[cycle(uses)]
fn add_term<'a>(uses: &mut UseList<'a>, t: &'a Term) -> Result<(), AllocError>
    ensures { OnOk result (uses.new ≡ uses.old ++ uses_of.uses_term (term_view t.now)) }
{
    add_factor(uses, &t.first)?;
    for further in &t.more {
        add_factor(uses, further)?;
    }
    Ok(())
}

#[cycle(uses)]
fn add_factor<'a>(uses: &mut UseList<'a>, f: &'a Factor) -> Result<(), AllocError>
    ensures { OnOk result (uses.new ≡ uses.old ++ uses_of.uses_factor (factor_view f.now)) }
{
    match f {
        Factor::Number(_) => Ok(()),
        Factor::Name(name) => uses.add(Use::Value {
            name: name.bytes(),
            arguments: None,
        }),
        Factor::Applied(application) => add_application(uses, application),
        Factor::Within(e) => add_expr(uses, e),
    }
}

#[cycle(uses)]
fn add_application<'a>(uses: &mut UseList<'a>, a: &'a Application) -> Result<(), AllocError>
    ensures { OnOk result (uses.new ≡ uses.old ++ uses_of.uses_factor (application_view a.now)) }
{
    uses.add(Use::Value {
        name: a.name.bytes(),
        arguments: Some(argument_count(&a.others)),
    })?;
    add_expr(uses, &a.first)?;
    for other in &a.others {
        add_expr(uses, other)?;
    }
    Ok(())
}

/// How many arguments are between parentheses, with these after the first.
#[tactic(auto, using(crate::proofs::Arguments::count_view))]
fn argument_count(others: &[Expr]) -> usize
    ensures { result ≡ 1 + uses_of.count (exprs_of (map expr_view others.now)) }
{
    1 + others.len()
}

/// Adds the uses of expressions.
pub(crate) fn add_exprs<'a>(uses: &mut UseList<'a>, es: &'a [Expr]) -> Result<(), AllocError>
    ensures { OnOk result
        (uses.new ≡ uses.old ++ flat_map uses_of.uses_expr (map expr_view es.now)) }
{
    for e in es {
        add_expr(uses, e)?;
    }
    Ok(())
}

/// Adds the uses of an expression, if there is one.
pub(crate) fn add_option<'a>(uses: &mut UseList<'a>, e: &'a Option<Expr>) -> Result<(), AllocError>
    ensures { OnOk result
        (uses.new ≡ uses.old ++ uses_of.uses_option (option_view expr_view e.now)) }
{
    match e {
        Some(e) => add_expr(uses, e),
        None => Ok(()),
    }
}

/// Adds the uses of a subscript, if one is written.
fn add_subscript<'a>(
    uses: &mut UseList<'a>,
    subscript: &'a Option<Box<Expr>>,
) -> Result<(), AllocError>
    ensures { OnOk result
        (uses.new ≡ uses.old
        ++ uses_of.uses_option (option_view (λ b. expr_view b.value) subscript.now)) }
{
    match subscript {
        Some(e) => add_expr(uses, e),
        None => Ok(()),
    }
}

/// Adds the uses of a target.
pub(crate) fn add_target<'a>(uses: &mut UseList<'a>, v: &'a Reference) -> Result<(), AllocError>
    ensures { OnOk result (uses.new ≡ uses.old ++ uses_of.uses_target (reference_view v.now)) }
{
    uses.add(Use::Target {
        name: v.name.bytes(),
        subscripted: v.subscript.is_some(),
    })?;
    add_subscript(uses, &v.subscript)
}

/// Adds the uses of targets.
pub(crate) fn add_targets<'a>(uses: &mut UseList<'a>, vs: &'a [Reference]) -> Result<(), AllocError>
    ensures { OnOk result
        (uses.new ≡ uses.old ++ flat_map uses_of.uses_target (map reference_view vs.now)) }
{
    for v in vs {
        add_target(uses, v)?;
    }
    Ok(())
}

/// Adds the uses of a set.
pub(crate) fn add_set<'a>(uses: &mut UseList<'a>, v: &'a Reference) -> Result<(), AllocError>
    ensures { OnOk result (uses.new ≡ uses.old ++ uses_of.uses_set (reference_view v.now)) }
{
    uses.add(Use::InSet {
        name: v.name.bytes(),
        subscripted: v.subscript.is_some(),
    })?;
    add_subscript(uses, &v.subscript)
}

/// Adds the uses of a reference whose value is read.
fn add_value<'a>(uses: &mut UseList<'a>, v: &'a Reference) -> Result<(), AllocError>
    ensures { OnOk result
        (uses.new ≡ uses.old
        ++ uses_of.uses_value (reference_view v.now).name (reference_view v.now).subscript) }
{
    let arguments = if v.subscript.is_some() { Some(1) } else { None };
    uses.add(Use::Value {
        name: v.name.bytes(),
        arguments,
    })?;
    add_subscript(uses, &v.subscript)
}

/// Adds the uses of a target after CALLED, if there is one.
pub(crate) fn add_called_target<'a>(
    uses: &mut UseList<'a>,
    v: &'a Option<Reference>,
) -> Result<(), AllocError>
    ensures { OnOk result
        (uses.new ≡ uses.old ++ uses_of.uses_called_target (option_view reference_view v.now)) }
{
    match v {
        Some(v) => add_target(uses, v),
        None => Ok(()),
    }
}

/// Adds the uses of a value after CALLED, if there is one.
pub(crate) fn add_called_value<'a>(
    uses: &mut UseList<'a>,
    v: &'a Option<Reference>,
) -> Result<(), AllocError>
    ensures { OnOk result
        (uses.new ≡ uses.old ++ uses_of.uses_called_value (option_view reference_view v.now)) }
{
    match v {
        Some(v) => add_value(uses, v),
        None => Ok(()),
    }
}
