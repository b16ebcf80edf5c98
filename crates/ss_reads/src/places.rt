//! What statements look at, by their kinds.
ghost use Rattle.std.specs.Prelude.{◌≡◌, ◌++◌, OnOk, option_map, [], ◌∷◌};
ghost use Rattle.ss_program.specs.Program.{section_of};
ghost use Rattle.ss_program.specs.ProgramSound.{IsTarget, AreTargets, AreSoundExprs, IsSoundAssign};
ghost use Rattle.ss_program.specs.ProgramSound.{IsSoundMaking, IsSoundPosition, IsSoundFiling, IsSoundOutput};
ghost use Rattle.ss_program.specs.ProgramSound.{IsSoundNotice, IsSoundWhen, IsSoundTiming, IsSoundPlace};
ghost use Rattle.ss_events.specs.Agenda.{least};
ghost use Rattle.ss_events.specs.Rules.{rules_of};
ghost use Rattle.ss_state.specs.Statements.Timing.{event_section};
ghost use Rattle.ss_reads.specs.Scenes.{InScene, IsSoundScene};
ghost use Rattle.ss_reads.specs.SceneView.{scene_of};
ghost use Rattle.ss_reads.specs.Places.{target_reads, old_reads, targets_reads, values_reads, assign_reads};
ghost use Rattle.ss_reads.specs.Places.{making_reads, position_reads, filing_reads, output_reads, notice_reads};
ghost use Rattle.ss_reads.specs.Places.{when_reads, schedule_reads, attribute_read, attributes_reads};
ghost use Rattle.ss_reads.specs.Places.{start_reads, timing_reads, place_reads};

use crate::control_flow::{see_branch, see_control, see_looping};
use crate::expressions::{see_expression, see_item, see_list, see_subscript, see_variable};
use crate::part::{Item, Part};
use crate::read::Read;
use crate::scene::Scene;
use ss_links::SetBoard;
use ss_machine::Machine;
use ss_program::{
    Assign, ClassKind, Filing, Listing, Making, Notice, Output, Place, Position, Program, Schedule,
    Target, Targets, Timing, Values, Variable, When,
};
use std::alloc::AllocError;

/// Of a target only what its subscript names is looked at.
pub(crate) fn see_target<S: SetBoard>(
    scene: &Scene<'_, S>,
    reads: &mut Vec<Read>,
    target: &Target,
) -> Result<(), AllocError>
    requires scene { IsSoundScene (scene_of scene.now) }
    requires sound { InScene (scene_of scene.now) IsTarget target.now }
    ensures { OnOk result (reads.new.items
        ≡ reads.old.items ++ target_reads (scene_of scene.now) target.now) }
{
    match target {
        Target::Variable(_) => Ok(()),
        Target::Attribute { index, .. } => see_subscript(scene, reads, &index.subscript),
    }
}

/// Looks at the old value of a target.
fn see_old<S: SetBoard>(
    scene: &Scene<'_, S>,
    reads: &mut Vec<Read>,
    target: &Target,
) -> Result<(), AllocError>
    requires scene { IsSoundScene (scene_of scene.now) }
    requires sound { InScene (scene_of scene.now) IsTarget target.now }
    ensures { OnOk result (reads.new.items
        ≡ reads.old.items ++ old_reads (scene_of scene.now) target.now) }
{
    match target {
        Target::Variable(x) => see_variable(scene, reads, *x),
        Target::Attribute {
            class,
            attribute,
            index,
        } => {
            let item = Item::Attribute {
                class: *class,
                attribute: *attribute,
            };
            see_item(scene, reads, item, &index.subscript)
        }
    }
}

fn see_targets<S: SetBoard>(
    scene: &Scene<'_, S>,
    reads: &mut Vec<Read>,
    targets: &Targets,
) -> Result<(), AllocError>
    requires scene { IsSoundScene (scene_of scene.now) }
    requires sound { InScene (scene_of scene.now) AreTargets targets.now }
    ensures { OnOk result (reads.new.items
        ≡ reads.old.items ++ targets_reads (scene_of scene.now) targets.now) }
{
    for target in &targets.list {
        see_target(scene, reads, target)?;
    }
    Ok(())
}

fn see_values<S: SetBoard>(
    scene: &Scene<'_, S>,
    reads: &mut Vec<Read>,
    values: &Values,
) -> Result<(), AllocError>
    requires scene { IsSoundScene (scene_of scene.now) }
    requires sound { InScene (scene_of scene.now) AreSoundExprs values.now }
    ensures { OnOk result (reads.new.items
        ≡ reads.old.items ++ values_reads (scene_of scene.now) values.now) }
{
    for value in &values.list {
        see_expression(scene, reads, value)?;
    }
    Ok(())
}

/// ADD and SUBTRACT look at their target, too.
fn see_assign<S: SetBoard>(
    scene: &Scene<'_, S>,
    reads: &mut Vec<Read>,
    assign: &Assign,
) -> Result<(), AllocError>
    requires scene { IsSoundScene (scene_of scene.now) }
    requires sound { InScene (scene_of scene.now) IsSoundAssign assign.now }
    ensures { OnOk result (reads.new.items
        ≡ reads.old.items ++ assign_reads (scene_of scene.now) assign.now) }
{
    match assign {
        Assign::Let { target, value, .. } => {
            see_target(scene, reads, target)?;
            see_expression(scene, reads, value)
        }
        Assign::Add { value, target } | Assign::Subtract { value, target } => {
            see_expression(scene, reads, value)?;
            see_old(scene, reads, target)
        }
    }
}

/// CREATE EVERY looks at N.c, or at the number that is written.
fn see_making<S: SetBoard>(
    scene: &Scene<'_, S>,
    reads: &mut Vec<Read>,
    making: &Making,
) -> Result<(), AllocError>
    requires scene { IsSoundScene (scene_of scene.now) }
    requires sound { InScene (scene_of scene.now) IsSoundMaking making.now }
    ensures { OnOk result (reads.new.items
        ≡ reads.old.items ++ making_reads (scene_of scene.now) making.now) }
{
    match making {
        Making::Create { target, .. } => see_target(scene, reads, target),
        Making::CreateEvery { number, count, .. } => match number {
            None => see_variable(scene, reads, Variable::Global(*count)),
            Some(e) => see_expression(scene, reads, e),
        },
        Making::Destroy { entity, .. } => see_expression(scene, reads, entity),
    }
}

fn see_position<S: SetBoard>(
    scene: &Scene<'_, S>,
    reads: &mut Vec<Read>,
    position: &Position,
) -> Result<(), AllocError>
    requires scene { IsSoundScene (scene_of scene.now) }
    requires sound { InScene (scene_of scene.now) IsSoundPosition position.now }
    ensures { OnOk result (reads.new.items
        ≡ reads.old.items ++ position_reads (scene_of scene.now) position.now) }
{
    match position {
        Position::ByRule | Position::AtEnd(_) => Ok(()),
        Position::Before(e) | Position::After(e) => see_expression(scene, reads, e),
    }
}

/// FILE and REMOVE look at their list.
fn see_filing<S: SetBoard>(
    scene: &Scene<'_, S>,
    reads: &mut Vec<Read>,
    filing: &Filing,
) -> Result<(), AllocError>
    requires scene { IsSoundScene (scene_of scene.now) }
    requires sound { InScene (scene_of scene.now) IsSoundFiling filing.now }
    ensures { OnOk result (reads.new.items
        ≡ reads.old.items ++ filing_reads (scene_of scene.now) filing.now) }
{
    match filing {
        Filing::File {
            member,
            position,
            set,
        } => {
            see_expression(scene, reads, member)?;
            see_position(scene, reads, position)?;
            see_list(scene, reads, set)
        }
        Filing::FileAt { member, set, .. } | Filing::Remove { member, set } => {
            see_expression(scene, reads, member)?;
            see_list(scene, reads, set)
        }
        Filing::RemoveAt { target, set, .. } => {
            see_target(scene, reads, target)?;
            see_list(scene, reads, set)
        }
    }
}

fn see_output<S: SetBoard>(
    scene: &Scene<'_, S>,
    reads: &mut Vec<Read>,
    output: &Output,
) -> Result<(), AllocError>
    requires scene { IsSoundScene (scene_of scene.now) }
    requires sound { InScene (scene_of scene.now) IsSoundOutput output.now }
    ensures { OnOk result (reads.new.items
        ≡ reads.old.items ++ output_reads (scene_of scene.now) output.now) }
{
    match output {
        Output::Print { values, .. } => see_values(scene, reads, values),
        Output::Skip(e) => see_expression(scene, reads, e),
    }
}

fn see_notice<S: SetBoard>(
    scene: &Scene<'_, S>,
    reads: &mut Vec<Read>,
    notice: &Notice,
) -> Result<(), AllocError>
    requires scene { IsSoundScene (scene_of scene.now) }
    requires sound { InScene (scene_of scene.now) IsSoundNotice notice.now }
    ensures { OnOk result (reads.new.items
        ≡ reads.old.items ++ notice_reads (scene_of scene.now) notice.now) }
{
    match notice {
        Notice::New { target, .. } => see_target(scene, reads, target),
        Notice::Known { notice: e, .. } => see_expression(scene, reads, e),
    }
}

fn see_when<S: SetBoard>(
    scene: &Scene<'_, S>,
    reads: &mut Vec<Read>,
    when: &When,
) -> Result<(), AllocError>
    requires scene { IsSoundScene (scene_of scene.now) }
    requires sound { InScene (scene_of scene.now) IsSoundWhen when.now }
    ensures { OnOk result (reads.new.items
        ≡ reads.old.items ++ when_reads (scene_of scene.now) when.now) }
{
    match when {
        When::At(e) | When::In(e) => see_expression(scene, reads, e),
        When::Now => Ok(()),
    }
}

/// The notice and the arguments as they are written, then the time.
fn see_schedule<S: SetBoard>(
    scene: &Scene<'_, S>,
    reads: &mut Vec<Read>,
    schedule: &Schedule,
) -> Result<(), AllocError>
    requires scene { IsSoundScene (scene_of scene.now) }
    requires notice { InScene (scene_of scene.now) IsSoundNotice schedule.now.notice }
    requires arguments { InScene (scene_of scene.now) AreSoundExprs schedule.now.arguments }
    requires when { InScene (scene_of scene.now) IsSoundWhen schedule.now.when }
    ensures { OnOk result (reads.new.items
        ≡ reads.old.items ++ schedule_reads (scene_of scene.now) schedule.now) }
{
    match schedule.listing {
        Listing::InParentheses => {
            see_values(scene, reads, &schedule.arguments)?;
            see_notice(scene, reads, &schedule.notice)?;
        }
        Listing::Given => {
            see_notice(scene, reads, &schedule.notice)?;
            see_values(scene, reads, &schedule.arguments)?;
        }
    }
    see_when(scene, reads, &schedule.when)
}

/// Looks at an attribute of a notice of a class.
fn see_attribute(
    reads: &mut Vec<Read>,
    class: usize,
    notice: u32,
    attribute: usize,
) -> Result<(), AllocError>
    ensures { OnOk result (reads.new.items
        ≡ reads.old.items ++ (attribute_read class notice attribute ∷ [])) }
{
    let item = Item::Attribute { class, attribute };
    reads.push(Read::Part(Part::Of(item, i64::from(notice))))?;
    Ok(())
}

/// Looks at attributes of a notice of a class, as many as there are given parameters.
fn see_attributes(
    reads: &mut Vec<Read>,
    class: usize,
    notice: u32,
    given: usize,
) -> Result<(), AllocError>
    ensures { OnOk result (reads.new.items
        ≡ reads.old.items ++ attributes_reads class notice 0 given) }
{
    for attribute in 0..given {
        see_attribute(reads, class, notice, attribute)?;
    }
    Ok(())
}

/// The number of the section of an event class, 0 if it is none.
fn event_section(program: &Program, class: usize) -> usize
    ensures { result ≡ event_section program.now class }
{
    match program.classes.get(class) {
        None => 0,
        Some(class) => {
            match &class.kind {
                ClassKind::Event(event) => event.section,
                ClassKind::Permanent { .. } | ClassKind::Temporary => 0,
            }
        }
    }
}

/// How many given parameters a section has, 0 if there is none.
fn given_of(program: &Program, section: usize) -> usize
    ensures { result ≡ (section_of program.now section).given }
{
    match program.sections.get(section) {
        None => 0,
        Some(section) => section.given,
    }
}

/// The class and the number of the notice that is due next, if one is pending.
fn next_notice<S: SetBoard>(machine: &Machine<S>) -> Option<(usize, u32)>
    ensures { result ≡ option_map (λ n. (n.class, n.notice))
        (least (rules_of machine.now.input.program) machine.now.state.agenda.pending) }
{
    let agenda = machine.agenda();
    agenda.known();
    let mut listing = agenda.listing();
    let notice = agenda.list_next(&mut listing)?;
    let slot = agenda.slot(notice)?;
    Some((slot.class, notice))
}

/// START SIMULATION looks at the notice that is due next, and at its attributes that go to
/// parameters, if it starts its event.
#[tactic(auto, using(crate::proofs::Notices::reads_of_next))]
fn see_start<S: SetBoard>(machine: &Machine<S>, reads: &mut Vec<Read>) -> Result<(), AllocError>
    ensures { OnOk result (reads.new.items ≡ reads.old.items
        ++ start_reads machine.now.input.program machine.now.state) }
{
    if machine.loads_entry() {
        return Ok(());
    }
    let Some((class, notice)) = next_notice(machine) else {
        return Ok(());
    };
    reads.push(Read::Notice(class, notice))?;
    let program = machine.program();
    let given = given_of(program, event_section(program, class));
    see_attributes(reads, class, notice, given)
}

fn see_timing<S: SetBoard>(
    scene: &Scene<'_, S>,
    reads: &mut Vec<Read>,
    timing: &Timing,
) -> Result<(), AllocError>
    requires scene { IsSoundScene (scene_of scene.now) }
    requires sound { InScene (scene_of scene.now) IsSoundTiming timing.now }
    ensures { OnOk result (reads.new.items
        ≡ reads.old.items ++ timing_reads (scene_of scene.now) timing.now) }
{
    match timing {
        Timing::Schedule(schedule) => see_schedule(scene, reads, schedule),
        Timing::Cancel { notice, .. } => see_expression(scene, reads, notice),
        Timing::Start => see_start(scene.machine, reads),
    }
}

/// Looks at what a statement names as values, in written order.
pub fn see_place<S: SetBoard>(
    scene: &Scene<'_, S>,
    reads: &mut Vec<Read>,
    place: &Place,
) -> Result<(), AllocError>
    requires scene { IsSoundScene (scene_of scene.now) }
    requires sound { InScene (scene_of scene.now) IsSoundPlace place.now }
    ensures { OnOk result (reads.new.items
        ≡ reads.old.items ++ place_reads (scene_of scene.now) place.now) }
{
    match place {
        Place::Assign(assign) => see_assign(scene, reads, assign),
        Place::Making(making) => see_making(scene, reads, making.value()),
        Place::Filing(filing) => see_filing(scene, reads, filing.value()),
        Place::Output(output) => see_output(scene, reads, output.value()),
        Place::Control(control) => see_control(scene, reads, *control),
        Place::Branch(branch) => see_branch(scene, reads, branch),
        Place::Looping(looping) => see_looping(scene, reads, looping),
        Place::Call(call) => see_values(scene, reads, &call.value().given),
        Place::Timing(timing) => see_timing(scene, reads, timing.value()),
        Place::Read(targets) => see_targets(scene, reads, targets),
    }
}
