//! Adding the uses of names at places that are no simple statement.

ghost use Rattle.std.specs.Prelude.{◌≡◌, ◌++◌, map, OnOk};
ghost use Rattle.std.specs.List.{flat_map};
ghost use Rattle.ss_words.specs.Reading.{option_view};
ghost use Rattle.ss_routines.specs.View as view;
ghost use Rattle.ss_check.specs.Uses as uses_of;

use crate::declared::class_need::ClassNeed;
use crate::uses::conditions::add_condition;
use crate::uses::expressions::{add_expr, add_option, add_set, add_target};
use crate::uses::statements::{add_class, add_simple};
use crate::uses::use_list::{Use, UseList};
use ss_routines::{Branch, Computed, Loop, Phrase, Place, Qualifier, Question, Range, WalkStart};
use ss_words::Name;
use std::alloc::AllocError;

/// Adds the uses of a place.
pub(crate) fn add_place<'a>(uses: &mut UseList<'a>, place: &'a Place) -> Result<(), AllocError>
    ensures { OnOk result (uses.new ≡ uses.old ++ uses_of.uses (view.place_view place.now)) }
{
    match place {
        Place::Simple(simple) => add_simple(uses, simple),
        Place::Branch(branch) => add_branch(uses, branch),
        Place::Loop(turn) => add_loop(uses, turn),
        Place::End => Ok(()),
    }
}

fn add_branch<'a>(uses: &mut UseList<'a>, branch: &'a Branch) -> Result<(), AllocError>
    ensures { OnOk result
        (uses.new ≡ uses.old ++ uses_of.uses_branch (view.branch_view branch.now)) }
{
    match branch {
        Branch::If(Question::Holds(condition)) => add_condition(uses, condition),
        Branch::If(Question::Found | Question::NoneFound) | Branch::Else | Branch::Always => Ok(()),
    }
}

fn add_loop<'a>(uses: &mut UseList<'a>, turn: &'a Loop) -> Result<(), AllocError>
    ensures { OnOk result (uses.new ≡ uses.old ++ uses_of.uses_loop (view.loop_view turn.now)) }
{
    match turn {
        Loop::For { phrase, .. } => add_phrase(uses, phrase),
        Loop::Next | Loop::Find => Ok(()),
        Loop::Gather(value) => add_expr(uses, value),
        Loop::Compute(targets) => {
            add_target(uses, &targets.first.target)?;
            add_computed(uses, &targets.others)
        }
    }
}

fn add_computed<'a>(uses: &mut UseList<'a>, targets: &'a [Computed]) -> Result<(), AllocError>
    ensures { OnOk result
        (uses.new ≡ uses.old
        ++ flat_map (λ t. uses_of.uses_target t.target) (map view.computed_view targets.now)) }
{
    for computed in targets {
        add_target(uses, &computed.target)?;
    }
    Ok(())
}

fn add_phrase<'a>(uses: &mut UseList<'a>, phrase: &'a Phrase) -> Result<(), AllocError>
    ensures { OnOk result
        (uses.new ≡ uses.old ++ uses_of.uses_phrase (view.phrase_view phrase.now)) }
{
    add_range(uses, &phrase.range)?;
    add_qualifiers(uses, &phrase.qualifiers)
}

fn add_qualifiers<'a>(uses: &mut UseList<'a>, all: &'a [Qualifier]) -> Result<(), AllocError>
    ensures { OnOk result
        (uses.new ≡ uses.old
        ++ flat_map (λ q. uses_of.uses_condition q.condition) (map view.qualifier_view all.now)) }
{
    for qualifier in all {
        add_condition(uses, &qualifier.condition)?;
    }
    Ok(())
}

fn add_range<'a>(uses: &mut UseList<'a>, range: &'a Range) -> Result<(), AllocError>
    ensures { OnOk result (uses.new ≡ uses.old ++ uses_of.uses_range (view.range_view range.now)) }
{
    match range {
        Range::Counting {
            variable,
            first,
            last,
            step,
            ..
        } => {
            uses.add(Use::LoopVariable(variable.bytes()))?;
            add_expr(uses, first)?;
            add_expr(uses, last)?;
            add_option(uses, step)
        }
        Range::Each { class, variable } => {
            add_class(uses, ClassNeed::Permanent, class.bytes())?;
            add_loop_variable(uses, variable)
        }
        Range::Walking {
            variable,
            set,
            start,
            ..
        } => {
            uses.add(Use::LoopVariable(variable.bytes()))?;
            add_set(uses, set)?;
            add_start(uses, start)
        }
    }
}

fn add_loop_variable<'a>(
    uses: &mut UseList<'a>,
    variable: &'a Option<Name>,
) -> Result<(), AllocError>
    ensures { OnOk result
        (uses.new ≡ uses.old ++ uses_of.uses_loop_variable (option_view (λ n. n) variable.now)) }
{
    match variable {
        Some(name) => uses.add(Use::LoopVariable(name.bytes())),
        None => Ok(()),
    }
}

fn add_start<'a>(uses: &mut UseList<'a>, start: &'a WalkStart) -> Result<(), AllocError>
    ensures { OnOk result
        (uses.new ≡ uses.old ++ uses_of.uses_start (view.walk_start_view start.now)) }
{
    match start {
        WalkStart::AtEnd => Ok(()),
        WalkStart::From(member) | WalkStart::After(member) => add_expr(uses, member),
    }
}
