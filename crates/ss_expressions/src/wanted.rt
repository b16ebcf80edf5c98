//! What is asked, by the names of a program.
ghost use Rattle.std.specs.Prelude.{◌≡◌, MatchResult, None, Some, option_map};
ghost use Rattle.ss_routines.specs.View.{expr_view, factor_view, application_view, condition_view, reference_view};
ghost use Rattle.ss_expressions.specs.Wanted as spec;
ghost use Rattle.ss_expressions.specs.WantedView.{wanted_view};
ghost use Rattle.ss_expressions.specs.AskedView.{asked_view};

use crate::asked::Asked;
use ss_debug::{find_class, find_set};
use ss_program::Program;
use ss_routines::{
    Application, Condition, Conjunction, Copula, Expr, Factor, Reference, Relation, Term,
};
use std::alloc::Global;

/// What is asked: a set's name asks for its list, and a class's alone for its entities.
#[derive(Drop)]
pub(crate) enum Wanted {
    /// The value of an expression.
    Value(Expr),
    /// Whether a condition holds.
    Truth(Condition),
    /// The list of which a condition says that it IS EMPTY.
    List(Condition),
    /// The living entities of the class with this number.
    Class(usize),
}

/// The factor that an expression is, if it is nothing else.
#[tactic(auto, using(crate::proofs::References::lone))]
fn lone_factor(e: &Expr) -> Option<&Factor>
    ensures { option_map (λ f. factor_view f.now) result ≡ spec.lone_factor (expr_view e.now) }
{
    if e.sign.is_some() {
        return None;
    }
    if e.more.len() > 0 {
        return None;
    }
    if e.first.more.len() > 0 {
        return None;
    }
    Some(&e.first.first)
}

/// The name that an expression is alone.
fn bare_name(e: &Expr) -> Option<&[u8]>
    ensures { option_map (λ n. n.now) result ≡ spec.bare_name (expr_view e.now) }
{
    match lone_factor(e)? {
        Factor::Name(name) => Some(name.bytes()),
        Factor::Number(_) | Factor::Applied(_) | Factor::Within(_) => None,
    }
}

/// The name with arguments, if there is only one.
#[tactic(auto, using(crate::proofs::References::applied_to))]
fn applied_name(a: &Application) -> Option<&[u8]>
    ensures { option_map (λ n. n.now) result
        ≡ option_map (λ r. r.name) (spec.factor_reference (application_view a.now)) }
{
    if a.others.len() > 0 {
        return None;
    }
    Some(a.name.bytes())
}

/// The name that an expression is, with a subscript or none.
fn name_of(e: &Expr) -> Option<&[u8]>
    ensures { option_map (λ n. n.now) result
        ≡ option_map (λ r. r.name) (spec.reference_in (expr_view e.now)) }
{
    match lone_factor(e)? {
        Factor::Name(name) => Some(name.bytes()),
        Factor::Applied(a) => applied_name(a),
        Factor::Number(_) | Factor::Within(_) => None,
    }
}

/// A factor alone as an expression.
fn alone(alloc: Global, first: Factor) -> Expr
    ensures { expr_view result ≡ spec.alone (factor_view first) }
{
    Expr {
        sign: None,
        first: Term {
            first,
            more: Vec::new(alloc),
        },
        more: Vec::new(alloc),
    }
}

/// The name with its argument, if there is only one; else an expression that is the same.
#[tactic(auto, using(crate::proofs::References::applied_to))]
fn applied_reference(alloc: Global, a: Box<Application>) -> Result<Reference, Expr>
    ensures { MatchResult result
        (λ r. spec.factor_reference (application_view a.value) ≡ Some (reference_view r))
        (λ e. (spec.factor_reference (application_view a.value) ≡ None)
        × (expr_view e ≡ spec.alone (application_view a.value))) }
{
    if a.others.len() > 0 {
        return Err(alone(alloc, Factor::Applied(a)));
    }
    let Application {
        name,
        first,
        others,
    } = Box::into_inner(a);
    drop(others);
    Ok(Reference {
        name,
        subscript: Some(first),
    })
}

/// The name that a factor is, with a subscript or none; else an expression that is the factor alone.
fn factor_reference(alloc: Global, factor: Factor) -> Result<Reference, Expr>
    ensures { MatchResult result
        (λ r. spec.factor_reference (factor_view factor) ≡ Some (reference_view r))
        (λ e. (spec.factor_reference (factor_view factor) ≡ None)
        × (expr_view e ≡ spec.alone (factor_view factor))) }
{
    match factor {
        Factor::Name(name) => Ok(Reference {
            name,
            subscript: None,
        }),
        Factor::Applied(a) => applied_reference(alloc, a),
        Factor::Number(n) => Err(alone(alloc, Factor::Number(n))),
        Factor::Within(e) => Err(alone(alloc, Factor::Within(e))),
    }
}

/// The name that an expression is, with a subscript or none; else the expression.
#[tactic(auto, using(crate::proofs::References::lone))]
fn reference(alloc: Global, e: Expr) -> Result<Reference, Expr>
    ensures { MatchResult result
        (λ r. spec.reference_in (expr_view e) ≡ Some (reference_view r))
        (λ same. (spec.reference_in (expr_view e) ≡ None) × (expr_view same ≡ expr_view e)) }
{
    if lone_factor(&e).is_none() {
        return Err(e);
    }
    let Expr {
        sign: _sign,
        first: term,
        more: terms,
    } = e;
    drop(terms);
    let Term {
        first,
        more: factors,
    } = term;
    drop(factors);
    factor_reference(alloc, first)
}

/// The condition that a list IS EMPTY.
fn emptiness(alloc: Global, set: Reference) -> Condition
    ensures { condition_view result ≡ spec.emptiness (reference_view set) }
{
    Condition {
        first: Conjunction {
            first: Relation::Empty {
                set,
                copula: Copula::Is,
            },
            more: Vec::new(alloc),
        },
        more: Vec::new(alloc),
    }
}

/// The class that an expression names alone.
fn class_alone(program: &Program, e: &Expr) -> Option<usize>
    ensures { result ≡ spec.class_alone program.now (expr_view e.now) }
{
    find_class(program, bare_name(e)?)
}

/// Whether an expression is the name of a set, with a subscript or without.
fn is_list(program: &Program, e: &Expr) -> bool
    ensures { result ≡ spec.is_list program.now (expr_view e.now) }
{
    match name_of(e) {
        Some(name) => find_set(program, name).is_some(),
        None => false,
    }
}

/// What an expression asks.
fn value_wanted(alloc: Global, program: &Program, e: Expr) -> Wanted
    ensures { wanted_view result ≡ spec.value_wanted program.now (expr_view e) }
{
    if let Some(class) = class_alone(program, &e) {
        return Wanted::Class(class);
    }
    if !is_list(program, &e) {
        return Wanted::Value(e);
    }
    match reference(alloc, e) {
        Ok(set) => Wanted::List(emptiness(alloc, set)),
        Err(e) => Wanted::Value(e),
    }
}

/// What is asked, by the names of a program.
pub(crate) fn wanted_of(alloc: Global, program: &Program, asked: Asked) -> Wanted
    ensures { wanted_view result ≡ spec.wanted_of program.now (asked_view asked) }
{
    match asked {
        Asked::Value(e) => value_wanted(alloc, program, e),
        Asked::Truth(c) => Wanted::Truth(c),
    }
}
