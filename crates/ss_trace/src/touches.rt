//! How much a step may change of the parts of a state that no glance shows. The definitions name
//! the types, only for proofs.
ghost use Rattle.std.specs.Prelude.{◌≡◌};
ghost use Rattle.ss_machine.specs.Moment.{position};
ghost use Rattle.ss_trace.specs.Touches.{touched_target, touched_assign, touched_removal, touched_filing};
ghost use Rattle.ss_trace.specs.Touches.{touched_control, touched_looping, touched_entities, touched_making};
ghost use Rattle.ss_trace.specs.Touches.{makes_a_class};
ghost use Rattle.ss_trace.specs.Touches.{touched_lists, touched_notices, touched_part, touched_in, touched_at, part_of};

use crate::question::Question;
use ss_debug::{Debugger, Question as Shown};
use ss_links::SetBoard;
use ss_program::{Assign, Control, Filing, Looping, Making, Place, Target};

/// A part of a state at which a question looks, next to its glance.
#[derive(Clone, Copy)]
pub enum Part {
    /// Any part.
    Anything,
    /// None: its glance shows all.
    Nothing,
    /// Entities with their attributes and the lists of sets, whose numbers are compared then.
    Entities,
    /// The lists of sets, whose members are counted at a glance.
    Lists,
    /// The pending notices.
    Notices,
}

/// How much a step may change of the part at which a question looks.
#[derive(Clone, Copy)]
pub enum Touch {
    /// Nothing of it.
    Nothing,
    /// One attribute of a class, by the class and its number there.
    Attribute(usize, usize),
    /// Attributes.
    Attributes,
    /// A list of one set, by a member more or less.
    Set(usize),
    /// Entities, and lists by a member more or less.
    Entities,
    /// Anything.
    Anything,
}

/// The part at which a question looks.
pub fn part_of(question: &Question) -> Part
    ensures { result ≡ part_of question.now }
{
    match question {
        Question::Shown(Shown::Where) => Part::Anything,
        Question::Shown(Shown::Entity(_, _)) => Part::Entities,
        Question::Shown(Shown::Set(_, _)) => Part::Lists,
        Question::Shown(Shown::Events) => Part::Notices,
        _ => Part::Nothing,
    }
}

/// The touch of an assigned value.
fn touched_target(target: &Target) -> Touch
    ensures { result ≡ touched_target target.now }
{
    match target {
        Target::Variable(_) => Touch::Nothing,
        Target::Attribute {
            class,
            attribute,
            ..
        } => Touch::Attribute(*class, *attribute),
    }
}

fn touched_assign(assign: &Assign) -> Touch
    ensures { result ≡ touched_assign assign.now }
{
    match assign {
        Assign::Let { target, .. } | Assign::Add { target, .. } | Assign::Subtract { target, .. } =>
            { touched_target(target) }
    }
}

/// The touch of a removal from a list of a set, if the member goes to a target.
fn touched_removal(target: &Target, set: usize) -> Touch
    ensures { result ≡ touched_removal target.now set }
{
    match target {
        Target::Variable(_) => Touch::Set(set),
        Target::Attribute { .. } => Touch::Entities,
    }
}

fn touched_filing(filing: &Filing) -> Touch
    ensures { result ≡ touched_filing filing.now }
{
    match filing {
        Filing::File { set, .. } | Filing::FileAt { set, .. } | Filing::Remove { set, .. } => {
            Touch::Set(set.set)
        }
        Filing::RemoveAt { target, set, .. } => touched_removal(target, set.set),
    }
}

/// The end of a section assigns the value that it yields.
fn touched_control(control: Control) -> Touch
    ensures { result ≡ touched_control control }
{
    match control {
        Control::Stop => Touch::Nothing,
        Control::Return | Control::End => Touch::Attributes,
    }
}

/// A statement that goes through cases assigns the statistics that it gives.
fn touched_looping(looping: &Looping) -> Touch
    ensures { result ≡ touched_looping looping.now }
{
    match looping {
        Looping::Tell(_) => Touch::Attributes,
        _ => Touch::Nothing,
    }
}

/// Whether a statement that makes or ends entities makes all of a class.
fn makes_a_class(making: &Making) -> bool
    ensures { result ≡ makes_a_class making.now }
{
    matches!(making, Making::CreateEvery { .. })
}

/// The touch of a statement that makes or ends entities.
fn touched_making(making: &Making) -> Touch
    ensures { result ≡ touched_making making.now }
{
    if makes_a_class(making) {
        Touch::Anything
    } else {
        Touch::Entities
    }
}

/// How much the step of a place may change of entities and lists.
fn touched_entities(place: &Place) -> Touch
    ensures { result ≡ touched_entities place.now }
{
    match place {
        Place::Assign(assign) => touched_assign(assign),
        Place::Making(making) => touched_making(making.value()),
        Place::Filing(filing) => touched_filing(filing.value()),
        Place::Control(control) => touched_control(*control),
        Place::Looping(looping) => touched_looping(looping),
        Place::Read(_) => Touch::Attributes,
        Place::Output(_) | Place::Branch(_) | Place::Call(_) => Touch::Nothing,
        Place::Timing(_) => Touch::Entities,
    }
}

/// How much the step of a place may change of lists, otherwise than by a member more or less.
fn touched_lists(place: &Place) -> Touch
    ensures { result ≡ touched_lists place.now }
{
    match place {
        Place::Making(making) if makes_a_class(making.value()) => Touch::Anything,
        _ => Touch::Nothing,
    }
}

/// How much the step of a place may change of the pending notices.
fn touched_notices(place: &Place) -> Touch
    ensures { result ≡ touched_notices place.now }
{
    match place {
        Place::Timing(_) => Touch::Anything,
        _ => Touch::Nothing,
    }
}

/// How much the step of a place may change of a part.
fn touched_part(part: Part, place: &Place) -> Touch
    ensures { result ≡ touched_part part place.now }
{
    match part {
        Part::Anything => Touch::Anything,
        Part::Nothing => Touch::Nothing,
        Part::Entities => touched_entities(place),
        Part::Lists => touched_lists(place),
        Part::Notices => touched_notices(place),
    }
}

/// How much the step of the debugger's present place may change of a part.
#[inline(always)]
fn touched_by_place<S: SetBoard>(debugger: &Debugger<S>, part: Part) -> Touch
    ensures { result
        ≡ touched_in debugger.now.machine.input.program part debugger.now.machine.state }
{
    let machine = debugger.machine();
    machine.known();
    let (section, place) = machine.place();
    touched_part(part, &machine.program().spot(section, place).place)
}

/// How much the debugger's next step may change of a part.
#[inline(always)]
pub fn touched_here<S: SetBoard>(debugger: &Debugger<S>, part: Part) -> Touch
    ensures { result
        ≡ touched_at debugger.now.machine.input part (position debugger.now.machine) }
{
    debugger.machine().known();
    match part {
        Part::Anything => Touch::Anything,
        Part::Nothing => Touch::Nothing,
        Part::Entities | Part::Lists | Part::Notices => touched_by_place(debugger, part),
    }
}
