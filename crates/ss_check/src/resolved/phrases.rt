//! Making FOR phrases, COMPUTE and their parts with the numbers of their names.

ghost use Rattle.std.specs.Prelude.{◌≡◌, map, IfOk};
ghost use Rattle.ss_words.specs.Lists.{all_of, several_view};
ghost use Rattle.ss_words.specs.Reading.{option_view};
ghost use Rattle.ss_routines.specs.View as view;
ghost use Rattle.ss_check.specs.Resolved as resolved;
ghost use Rattle.ss_check.specs.Scope.{in_scope};

use crate::resolved::conditions::resolve_condition;
use crate::resolved::expressions::{resolve_expr, resolve_option, resolve_two};
use crate::resolved::references::{resolve_set, resolve_target};
use crate::resolved::scope::{Scope, class_variable, resolve_variable};
use ss_program::{
    Begin, Boxed, ForPhrase, Looping, Phrase, Qualifier, Qualifiers, Telling, Tellings, Variable,
};
use ss_routines::{Computed, Loop, Range, WalkStart};
use ss_words::{Name, Several};
use std::alloc::AllocError;

/// The start of the walk of a set.
fn resolve_begin(scope: Scope<'_>, start: &WalkStart) -> Result<Begin, AllocError>
    ensures { IfOk result
        (λ x. x ≡ in_scope scope.entry resolved.resolved_begin (view.walk_start_view start.now)) }
{
    match start {
        WalkStart::AtEnd => Ok(Begin::AtTheEnd),
        WalkStart::From(member) => Ok(Begin::From(resolve_expr(scope, member)?)),
        WalkStart::After(member) => Ok(Begin::After(resolve_expr(scope, member)?)),
    }
}

/// The variable after CALLED, else that of the class's name.
fn loop_variable(scope: Scope<'_>, class: &[u8], called: &Option<Name>) -> Variable
    ensures { result ≡ in_scope scope.entry resolved.loop_variable class.now
        (option_view (λ n. n) called.now) }
{
    match called {
        Some(name) => resolve_variable(scope, name.bytes()),
        None => class_variable(scope, class),
    }
}

/// The range that a FOR phrase goes through.
fn resolve_range(scope: Scope<'_>, range: &Range) -> Result<Phrase, AllocError>
    ensures { IfOk result
        (λ x. x ≡ in_scope scope.entry resolved.resolved_range (view.range_view range.now)) }
{
    match range {
        Range::Counting {
            direction,
            variable,
            first,
            last,
            step,
        } => {
            let (first, last) = resolve_two(scope, first, last)?;
            match resolve_option(scope, step) {
                Ok(step) => Ok(Phrase::Counting {
                    direction: *direction,
                    variable: resolve_variable(scope, variable.bytes()),
                    first,
                    last,
                    step,
                }),
                Err(fault) => {
                    drop(first);
                    drop(last);
                    Err(fault)
                }
            }
        }
        Range::Each { class, variable } => Ok(Phrase::Each {
            class: scope.names.class(class.bytes()),
            is_called: variable.is_some(),
            variable: loop_variable(scope, class.bytes(), variable),
            count: scope.names.count(scope.alloc, class.bytes())?,
        }),
        Range::Walking {
            direction,
            variable,
            set,
            start,
        } => {
            let set = resolve_set(scope, set)?;
            match resolve_begin(scope, start) {
                Ok(begin) => Ok(Phrase::Walking {
                    direction: *direction,
                    variable: resolve_variable(scope, variable.bytes()),
                    set,
                    begin,
                }),
                Err(fault) => {
                    drop(set);
                    Err(fault)
                }
            }
        }
    }
}

fn resolve_qualifier(
    scope: Scope<'_>,
    qualifier: &ss_routines::Qualifier,
) -> Result<Qualifier, AllocError>
    ensures { IfOk result
        (λ x. x ≡ in_scope scope.entry resolved.resolved_qualifier
        (view.qualifier_view qualifier.now)) }
{
    Ok(Qualifier {
        word: qualifier.word,
        condition: resolve_condition(scope, &qualifier.condition)?,
    })
}

/// The qualifiers of a FOR phrase, in order.
fn resolve_qualifiers(
    scope: Scope<'_>,
    qualifiers: &[ss_routines::Qualifier],
) -> Result<Qualifiers, AllocError>
    ensures { IfOk result (λ xs. xs ≡ map (in_scope scope.entry resolved.resolved_qualifier)
        (map view.qualifier_view qualifiers.now)) }
{
    let mut list = Vec::with_capacity(scope.alloc, qualifiers.len())?;
    for qualifier in qualifiers {
        list.push(resolve_qualifier(scope, qualifier)?)?;
    }
    Ok(Qualifiers { list })
}

fn resolve_telling(scope: Scope<'_>, computed: &Computed) -> Result<Telling, AllocError>
    ensures { IfOk result
        (λ x. x ≡ in_scope scope.entry resolved.resolved_telling
        (view.computed_view computed.now)) }
{
    Ok(Telling {
        target: resolve_target(scope, &computed.target)?,
        statistic: computed.statistic,
    })
}

/// The targets of a COMPUTE, in order.
fn resolve_tellings(scope: Scope<'_>, computed: &Several<Computed>) -> Result<Tellings, AllocError>
    ensures { IfOk result (λ xs. xs ≡ map (in_scope scope.entry resolved.resolved_telling)
        (all_of (several_view view.computed_view computed.now))) }
{
    let mut list = Vec::with_capacity(scope.alloc, 1 + computed.others.len())?;
    list.push(resolve_telling(scope, &computed.first)?)?;
    for other in &computed.others {
        list.push(resolve_telling(scope, other)?)?;
    }
    Ok(Tellings { list })
}

/// A FOR phrase, and whether DO is after it.
fn resolve_phrase(
    scope: Scope<'_>,
    phrase: &ss_routines::Phrase,
    has_do: bool,
) -> Result<ForPhrase, AllocError>
    ensures { IfOk result
        (λ x. x ≡ in_scope scope.entry resolved.resolved_phrase
        (view.phrase_view phrase.now) has_do) }
{
    let qualifiers = resolve_qualifiers(scope, &phrase.qualifiers)?;
    Ok(ForPhrase {
        phrase: resolve_range(scope, &phrase.range)?,
        qualifiers,
        has_do,
    })
}

/// A place of a FOR statement with the numbers of its names.
pub(crate) fn resolve_loop(scope: Scope<'_>, turn: &Loop) -> Result<Looping, AllocError>
    ensures { IfOk result
        (λ x. x ≡ in_scope scope.entry resolved.resolved_loop (view.loop_view turn.now)) }
{
    match turn {
        Loop::For { phrase, repeats } => {
            let phrase = resolve_phrase(scope, phrase, *repeats)?;
            Ok(Looping::For(Boxed::new(scope.alloc, phrase)?))
        }
        Loop::Next => Ok(Looping::Loop),
        Loop::Find => Ok(Looping::Find),
        Loop::Gather(value) => {
            let value = resolve_expr(scope, value)?;
            Ok(Looping::Gather(Boxed::new(scope.alloc, value)?))
        }
        Loop::Compute(computed) => Ok(Looping::Tell(resolve_tellings(scope, computed)?)),
    }
}
