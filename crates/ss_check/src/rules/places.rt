//! The rules on the places of sections, by the statements around them.

ghost use Rattle.std.specs.Prelude.{◌≡◌, ◌++◌, map, IfOk, OnOk};
ghost use Rattle.ss_routines.specs.View as view;
ghost use Rattle.ss_check.specs.PlaceRules as rules;
ghost use Rattle.ss_check.specs.Statements.{lowest};
ghost use Rattle.ss_check.specs.UseView.{use_view};

use crate::declared::tables::Tables;
use crate::fault::CheckRule;
use crate::rules::fields::{has_decimal_field, has_field_count};
use crate::rules::uses::any_breaks;
use crate::uses::places::add_place;
use crate::uses::use_list::{Use, UseList};
use ss_routines::{Branch, Exchange, Loop, Place, Question, Simple, Spot, Timing};
use std::alloc::{AllocError, Global};

/// The lowest rule that a place breaks, in MAIN or not, directly after a FIND or not, with others
/// after it.
pub(crate) fn place_rule(
    alloc: Global,
    whole: &Tables,
    in_main: bool,
    behind_find: bool,
    spot: &Spot,
    behind: &[Spot],
) -> Result<Option<CheckRule>, AllocError>
    ensures { IfOk result (λ r. r ≡ rules.place_rule whole.now in_main behind_find
        (view.spot_view spot.now) (view.spots behind.now)) }
{
    let mut uses = UseList::new(alloc);
    add_statement(&mut uses, &spot.place, behind)?;
    if let Some(rule) = use_rule(whole, uses.as_slice()) {
        Ok(Some(rule))
    } else if has_wrong_picture(&spot.place) {
        Ok(Some(CheckRule::WrongPicture))
    } else {
        Ok(standing_rule(in_main, behind_find, &spot.place))
    }
}

/// Adds the uses of the statement at a place with others after it: COMPUTE is one of two places.
pub(crate) fn add_statement<'a>(
    uses: &mut UseList<'a>,
    place: &'a Place,
    behind: &'a [Spot],
) -> Result<(), AllocError>
    ensures { OnOk result
        (uses.new ≡ uses.old
        ++ rules.uses_from (view.place_view place.now) (view.spots behind.now)) }
{
    add_place(uses, place)?;
    match (place, behind.first()) {
        (Place::Loop(Loop::Gather(_)), Some(next)) => add_place(uses, &next.place),
        _ => Ok(()),
    }
}

/// The lowest rule on names that these uses break.
pub(crate) fn use_rule(whole: &Tables, uses: &[Use<'_>]) -> Option<CheckRule>
    ensures { result ≡ lowest (rules.use_breaks whole.now (map use_view uses.now)) }
{
    if any_breaks(whole, CheckRule::WrongClass, uses) {
        Some(CheckRule::WrongClass)
    } else if any_breaks(whole, CheckRule::WrongUse, uses) {
        Some(CheckRule::WrongUse)
    } else if any_breaks(whole, CheckRule::WrongCount, uses) {
        Some(CheckRule::WrongCount)
    } else if any_breaks(whole, CheckRule::FixedTarget, uses) {
        Some(CheckRule::FixedTarget)
    } else {
        None
    }
}

/// Whether it is a PRINT whose values are not as many as its fields, or that has a decimal field.
fn has_wrong_picture(place: &Place) -> bool
    ensures { result ≡ rules.has_wrong_picture (view.place_view place.now) }
{
    match place {
        Place::Simple(
            Simple::Exchange(
                Exchange::Print {
                    values,
                    picture,
                    ..
                },
            ),
        ) => { !has_field_count(picture, values.len()) || has_decimal_field(picture) }
        _ => false,
    }
}

/// The rule on the surroundings of a place that it breaks, in MAIN or not, and directly after a
/// FIND or not.
pub(crate) fn standing_rule(in_main: bool, behind_find: bool, place: &Place) -> Option<CheckRule>
    ensures { result ≡ lowest
        (rules.standing_breaks in_main behind_find (view.place_view place.now)) }
{
    if is_start(place) && !in_main {
        Some(CheckRule::StartOutsideMain)
    } else if asks_find(place) && !behind_find {
        Some(CheckRule::WithoutFind)
    } else {
        None
    }
}

/// Whether it is START SIMULATION.
fn is_start(place: &Place) -> bool
    ensures { result ≡ rules.is_start (view.place_view place.now) }
{
    match place {
        Place::Simple(Simple::Time(timing)) => matches!(**timing, Timing::StartSimulation),
        _ => false,
    }
}

/// Whether it asks for the answer of a FIND.
fn asks_find(place: &Place) -> bool
    ensures { result ≡ rules.asks_find (view.place_view place.now) }
{
    matches!(
        place,
        Place::Branch(Branch::If(Question::Found | Question::NoneFound))
    )
}

/// Whether it is FIND FIRST CASE.
pub(crate) fn is_find(place: &Place) -> bool
    ensures { result ≡ rules.is_find (view.place_view place.now) }
{
    matches!(place, Place::Loop(Loop::Find))
}
