//! Making expressions with the numbers of their names.

ghost use Rattle.std.specs.Prelude.{◌≡◌, ◌++◌, if◌then◌else◌, map, option_map, IfOk, OnOk};
ghost use Rattle.ss_words.specs.Lists.{all_of, several_view};
ghost use Rattle.ss_words.specs.Reading.{option_view};
ghost use Rattle.ss_routines.specs.Tree.{listing_names};
ghost use Rattle.ss_routines.specs.View.{application_view, expr_view, term_view, factor_view, listing_view};
ghost use Rattle.ss_program.specs.ProgramExpr.{expr_of, term_of, factor_of, arguments_of};
ghost use Rattle.ss_program.specs.ProgramExpr.{subscript_of, subscripted_of};
ghost use Rattle.ss_program.specs.ProgramExpr as tree;
ghost use Rattle.ss_check.specs.KindView.{function_view, kind_view};
ghost use Rattle.ss_check.specs.Resolved as resolved;
ghost use Rattle.ss_check.specs.ResolvedNames as names;
ghost use Rattle.ss_check.specs.Scope.{in_scope};

use crate::declared::function::Function;
use crate::declared::name_kind::NameKind;
use crate::resolved::scope::{
    Scope, class_subscript, kind, member_subscript, owner_subscript, variable_of,
};
use ss_program::{Arguments, Expr, Factor, SignedTerm, Subscript, Subscripted, Sum, Term, Values};
use ss_routines::Listing;
use ss_words::Several;
use std::alloc::{AllocError, Global};

/// An expression with the numbers of its names.
pub(crate) fn resolve_expr(scope: Scope<'_>, e: &ss_routines::Expr) -> Result<Expr, AllocError>
    ensures { IfOk result (λ x. x ≡ in_scope scope.entry resolved.resolved_expr (expr_view e.now)) }
{
    let sum = resolve_sum(scope, e)?;
    Expr::new(scope.alloc, sum)
}

/// Two expressions with the numbers of their names.
pub(crate) fn resolve_two(
    scope: Scope<'_>,
    first: &ss_routines::Expr,
    last: &ss_routines::Expr,
) -> Result<(Expr, Expr), AllocError>
    ensures first { IfOk result
        (λ x. x.0 ≡ in_scope scope.entry resolved.resolved_expr (expr_view first.now)) }
    ensures last { IfOk result
        (λ x. x.1 ≡ in_scope scope.entry resolved.resolved_expr (expr_view last.now)) }
{
    let first = resolve_expr(scope, first)?;
    match resolve_expr(scope, last) {
        Ok(last) => Ok((first, last)),
        Err(fault) => {
            drop(first);
            Err(fault)
        }
    }
}

/// An expression that may be left out.
pub(crate) fn resolve_option(
    scope: Scope<'_>,
    e: &Option<ss_routines::Expr>,
) -> Result<Option<Expr>, AllocError>
    ensures { IfOk result
        (λ x. x ≡ in_scope scope.entry resolved.resolved_option (option_view expr_view e.now)) }
{
    match e {
        None => Ok(None),
        Some(e) => Ok(Some(resolve_expr(scope, e)?)),
    }
}

/// A subscript, if one is written.
pub(crate) fn resolve_subscript(
    scope: Scope<'_>,
    subscript: &Option<Box<ss_routines::Expr>>,
) -> Result<Option<Box<Sum>>, AllocError>
    ensures { IfOk result (λ s. option_map (λ e. expr_of e.value) s
        ≡ in_scope scope.entry resolved.resolved_option
        (option_view (λ b. expr_view b.value) subscript.now)) }
{
    match subscript {
        None => Ok(None),
        Some(e) => {
            let sum = resolve_sum(scope, e)?;
            Ok(Some(Box::new(scope.alloc, sum)?))
        }
    }
}

/// Puts expressions at the end of a list.
fn add_values(
    scope: Scope<'_>,
    list: &mut Vec<Expr>,
    es: &[ss_routines::Expr],
) -> Result<(), AllocError>
    ensures { OnOk result (list.new.items
        ≡ list.old.items
        ++ map (in_scope scope.entry resolved.resolved_expr) (map expr_view es.now)) }
{
    for e in es {
        list.push(resolve_expr(scope, e)?)?;
    }
    Ok(())
}

/// The expressions of a list, in order.
pub(crate) fn resolve_values(
    scope: Scope<'_>,
    es: &[ss_routines::Expr],
) -> Result<Values, AllocError>
    ensures { IfOk result
        (λ xs. xs ≡ map (in_scope scope.entry resolved.resolved_expr) (map expr_view es.now)) }
{
    let mut list = Vec::with_capacity(scope.alloc, es.len())?;
    add_values(scope, &mut list, es)?;
    Ok(Values { list })
}

/// The expressions of a list of one or more, in order.
pub(crate) fn resolve_several(
    scope: Scope<'_>,
    es: &Several<ss_routines::Expr>,
) -> Result<Values, AllocError>
    ensures { IfOk result (λ xs. xs
        ≡ map (in_scope scope.entry resolved.resolved_expr)
        (all_of (several_view expr_view es.now))) }
{
    let mut list = Vec::with_capacity(scope.alloc, 1 + es.others.len())?;
    list.push(resolve_expr(scope, &es.first)?)?;
    add_values(scope, &mut list, &es.others)?;
    Ok(Values { list })
}

/// How a list that may be left out is written.
pub(crate) fn written_listing<T>(written: &Listing<T>) -> ss_program::Listing
    ensures { result ≡ resolved.resolved_listing (listing_view (λ x. x) written.now) }
{
    match written {
        Listing::InParentheses(_) => ss_program::Listing::InParentheses,
        Listing::Unwritten | Listing::BehindGiven(_) => ss_program::Listing::Given,
    }
}

/// The expressions of a list that may be left out, in order.
pub(crate) fn resolve_listed(
    scope: Scope<'_>,
    es: &Listing<ss_routines::Expr>,
) -> Result<Values, AllocError>
    ensures { IfOk result (λ xs. xs
        ≡ map (in_scope scope.entry resolved.resolved_expr)
        (listing_names (listing_view expr_view es.now))) }
{
    match es {
        Listing::Unwritten => Ok(Values {
            list: Vec::new(scope.alloc),
        }),
        Listing::BehindGiven(es) | Listing::InParentheses(es) => resolve_several(scope, es),
    }
}

#[cycle(resolve)]
fn resolve_sum(scope: Scope<'_>, e: &ss_routines::Expr) -> Result<Sum, AllocError>
    ensures { IfOk result
        (λ x. expr_of x ≡ in_scope scope.entry resolved.resolved_expr (expr_view e.now)) }
{
    let mut more = Vec::with_capacity(scope.alloc, e.more.len())?;
    for further in &e.more {
        let term = resolve_term(scope, &further.term)?;
        more.push(SignedTerm {
            sign: further.sign,
            term,
        })?;
    }
    let first = resolve_term(scope, &e.first)?;
    Ok(Sum {
        sign: e.sign,
        first,
        more,
    })
}

#[cycle(resolve)]
fn resolve_term(scope: Scope<'_>, t: &ss_routines::Term) -> Result<Term, AllocError>
    ensures { IfOk result
        (λ x. term_of x ≡ in_scope scope.entry resolved.resolved_term (term_view t.now)) }
{
    let mut more = Vec::with_capacity(scope.alloc, t.more.len())?;
    for further in &t.more {
        more.push(resolve_factor(scope, further)?)?;
    }
    let first = resolve_factor(scope, &t.first)?;
    Ok(Term { first, more })
}

#[cycle(resolve)]
fn resolve_factor(scope: Scope<'_>, f: &ss_routines::Factor) -> Result<Factor, AllocError>
    ensures { IfOk result
        (λ x. factor_of x ≡ in_scope scope.entry resolved.resolved_factor (factor_view f.now)) }
{
    match f {
        ss_routines::Factor::Number(n) => Ok(Factor::Number(*n)),
        ss_routines::Factor::Name(name) => {
            let name = name.bytes();
            plain_factor(scope, kind(scope, name), name, None)
        }
        ss_routines::Factor::Applied(application) => resolve_application(scope, application),
        ss_routines::Factor::Within(e) => {
            let sum = resolve_sum(scope, e)?;
            Ok(Factor::Within(Box::new(scope.alloc, sum)?))
        }
    }
}

#[cycle(resolve)]
fn resolve_application(scope: Scope<'_>, a: &ss_routines::Application) -> Result<Factor, AllocError>
    ensures { IfOk result
        (λ x. factor_of x
        ≡ in_scope scope.entry resolved.resolved_factor (application_view a.now)) }
{
    let mut more = Vec::with_capacity(scope.alloc, a.others.len())?;
    for other in &a.others {
        more.push(resolve_sum(scope, other)?)?;
    }
    let first = resolve_sum(scope, &a.first)?;
    let first = Box::new(scope.alloc, first)?;
    let name = a.name.bytes();
    applied_factor(scope, kind(scope, name), name, Arguments { first, more })
}

/// An attribute or a set by its number, and which entity's is meant.
fn subscripted(
    alloc: Global,
    number: usize,
    subscript: Subscript,
) -> Result<Box<Subscripted>, AllocError>
    ensures { IfOk result (λ s. subscripted_of s.value ≡ (number, subscript_of subscript)) }
{
    Ok(Box::new(alloc, Subscripted { number, subscript })?)
}

/// A name of this kind with a subscript or none.
pub(crate) fn plain_factor(
    scope: Scope<'_>,
    kind: Option<&NameKind>,
    name: &[u8],
    subscript: Option<Box<Sum>>,
) -> Result<Factor, AllocError>
    ensures { IfOk result (λ f. factor_of f
        ≡ in_scope scope.entry names.factor_of (option_map (λ k. kind_view k.now) kind.entry)
        name.now (option_map (λ e. expr_of e.value) subscript)) }
{
    match kind {
        Some(NameKind::Attribute(class)) => {
            let number = scope.names.class(&class.bytes);
            let attribute = scope.names.attribute(number, name);
            let subscript = class_subscript(scope, &class.bytes, subscript);
            Ok(Factor::Attribute {
                class: number,
                attribute: subscripted(scope.alloc, attribute, subscript)?,
            })
        }
        Some(NameKind::OwnerKept { kept, set }) => {
            let number = scope.names.set(&set.bytes);
            let subscript = owner_subscript(scope, &set.bytes, subscript);
            Ok(Factor::OwnerKept {
                kept: *kept,
                set: subscripted(scope.alloc, number, subscript)?,
            })
        }
        Some(NameKind::MemberKept { kept, set }) => {
            let number = scope.names.set(&set.bytes);
            let subscript = member_subscript(scope, &set.bytes, subscript);
            Ok(Factor::MemberKept {
                kept: *kept,
                set: subscripted(scope.alloc, number, subscript)?,
            })
        }
        _ => Ok(Factor::Variable(variable_of(scope, kind, name))),
    }
}

/// A name of this kind with arguments.
pub(crate) fn applied_factor(
    scope: Scope<'_>,
    kind: Option<&NameKind>,
    name: &[u8],
    arguments: Arguments,
) -> Result<Factor, AllocError>
    ensures { IfOk result
        (λ f. factor_of f
        ≡ in_scope scope.entry names.applied_factor (option_map (λ k. kind_view k.now) kind.entry)
        name.now (arguments_of arguments).0 (arguments_of arguments).1) }
{
    match kind {
        Some(NameKind::Function(function)) => function_factor(scope, *function, arguments),
        _ => plain_factor(scope, kind, name, Some(arguments.first)),
    }
}

/// A function of its arguments.
fn function_factor(
    scope: Scope<'_>,
    function: Function,
    arguments: Arguments,
) -> Result<Factor, AllocError>
    ensures { IfOk result
        (λ f. factor_of f ≡ in_scope scope.entry names.function_factor (function_view function)
        (arguments_of arguments).0 (arguments_of arguments).1) }
{
    match function {
        Function::Absolute => Ok(Factor::Absolute(arguments.first)),
        Function::Greatest => Ok(Factor::Greatest(Box::new(scope.alloc, arguments)?)),
        Function::Least => Ok(Factor::Least(Box::new(scope.alloc, arguments)?)),
        Function::Quotient => division_factor(scope, true, arguments),
        Function::Remainder => division_factor(scope, false, arguments),
    }
}

/// The whole quotient of two arguments, or the remainder. One argument alone is the value: no
/// program without a breach has it.
fn division_factor(
    scope: Scope<'_>,
    is_whole: bool,
    arguments: Arguments,
) -> Result<Factor, AllocError>
    ensures { IfOk result (λ f. factor_of f
        ≡ in_scope scope.entry names.factor_of_two
        (if is_whole then tree.quotient else tree.remainder)
        (arguments_of arguments).0 (arguments_of arguments).1) }
{
    let Arguments { first, more } = arguments;
    match more.into_iter().next() {
        Some(second) => {
            let second = Box::new(scope.alloc, second)?;
            if is_whole {
                Ok(Factor::Quotient(first, second))
            } else {
                Ok(Factor::Remainder(first, second))
            }
        }
        None => Ok(Factor::Within(first)),
    }
}
