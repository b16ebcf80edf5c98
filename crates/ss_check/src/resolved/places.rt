//! Making the places of a section with the numbers of their names.

ghost use Rattle.std.specs.Prelude.{◌≡◌, ◌++◌, ◌∷◌, [], false, map, IfOk, OnOk};
ghost use Rattle.std.specs.List.{list_any};
ghost use Rattle.ss_routines.specs.View as view;
ghost use Rattle.ss_check.specs.PlaceRules.{has_wrong_picture};
ghost use Rattle.ss_check.specs.Resolved as resolved;
ghost use Rattle.ss_check.specs.Scope.{in_scope};

use crate::resolved::conditions::resolve_condition;
use crate::resolved::phrases::resolve_loop;
use crate::resolved::scope::Scope;
use crate::resolved::statements::resolve_simple;
use ss_program::{Branch, Control, Place, Question, Spot};
use std::alloc::AllocError;

/// The question of an IF.
fn resolve_question(
    scope: Scope<'_>,
    question: &ss_routines::Question,
) -> Result<Question, AllocError>
    ensures { IfOk result
        (λ x. x ≡ in_scope scope.entry resolved.resolved_question
        (view.question_view question.now)) }
{
    match question {
        ss_routines::Question::Holds(c) => Ok(Question::Whether(resolve_condition(scope, c)?)),
        ss_routines::Question::Found => Ok(Question::WasFound),
        ss_routines::Question::NoneFound => Ok(Question::WasNone),
    }
}

/// A place of an IF statement with the numbers of its names.
fn resolve_branch(scope: Scope<'_>, branch: &ss_routines::Branch) -> Result<Branch, AllocError>
    ensures { IfOk result
        (λ x. x ≡ in_scope scope.entry resolved.resolved_branch (view.branch_view branch.now)) }
{
    match branch {
        ss_routines::Branch::If(question) => Ok(Branch::If(resolve_question(scope, question)?)),
        ss_routines::Branch::Else => Ok(Branch::Else),
        ss_routines::Branch::Always => Ok(Branch::Always),
    }
}

/// A place with the numbers of its names.
fn resolve_place(scope: Scope<'_>, place: &ss_routines::Place) -> Result<Place, AllocError>
    requires { has_wrong_picture (view.place_view place.now) ≡ false }
    ensures { IfOk result
        (λ x. x ≡ in_scope scope.entry resolved.resolved_place (view.place_view place.now)) }
{
    match place {
        ss_routines::Place::Simple(simple) => resolve_simple(scope, simple),
        ss_routines::Place::Branch(branch) => Ok(Place::Branch(resolve_branch(scope, branch)?)),
        ss_routines::Place::Loop(turn) => Ok(Place::Looping(resolve_loop(scope, turn)?)),
        ss_routines::Place::End => Ok(Place::Control(Control::End)),
    }
}

/// The places of a section with the numbers of their names, in order. The text of a place is let go
/// as soon as the place is made.
pub(crate) fn resolve_places(
    scope: Scope<'_>,
    places: Vec<ss_routines::Spot>,
) -> Result<Vec<Spot>, AllocError>
    requires { list_any (λ s. has_wrong_picture s.place) (view.spots places.items) ≡ false }
    ensures { IfOk result
        (λ xs. xs.items
        ≡ map (in_scope scope.entry resolved.resolved_spot) (view.spots places.items)) }
{
    let mut list = Vec::with_capacity(scope.alloc, places.len())?;
    for spot in places {
        push_place(scope, &mut list, spot)?;
    }
    Ok(list)
}

/// Puts a place with the numbers of its names after others. Its text is let go by a call, before
/// the function may end: the proof of each end writes out the parts that are still held there.
fn push_place(
    scope: Scope<'_>,
    list: &mut Vec<Spot>,
    spot: ss_routines::Spot,
) -> Result<(), AllocError>
    requires { has_wrong_picture (view.spot_view spot).place ≡ false }
    ensures { OnOk result (list.new.items
        ≡ list.old.items
        ++ in_scope scope.entry resolved.resolved_spot (view.spot_view spot) ∷ []) }
{
    let line = spot.line;
    let place = resolve_place(scope, &spot.place);
    drop(spot);
    list.push(Spot {
        line,
        place: place?,
    })?;
    Ok(())
}
