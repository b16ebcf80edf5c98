//! What the statements of control flow look at: branches, loops and the ends of routines.
ghost use Rattle.std.specs.Prelude.{◌≡◌, ◌++◌, ◌+◌, ◌-◌, ◌≤◌, ◌<◌, ◌^◌, OnOk};
ghost use Rattle.ss_program.specs.ProgramSound.{AreSoundTellings, IsSoundBranch, IsSoundBegin, IsSoundPhrase};
ghost use Rattle.ss_program.specs.ProgramSound.{AreSoundQualifiers, IsSoundLooping};
ghost use Rattle.ss_state.specs.Loops.{innermost, loop_of_phrase, loop_variable};
ghost use Rattle.ss_reads.specs.Scenes.{InScene, IsSoundScene};
ghost use Rattle.ss_reads.specs.SceneView.{scene_of};
ghost use Rattle.ss_reads.specs.Places.{tellings_reads, branch_reads, begin_reads, entry_reads};
ghost use Rattle.ss_reads.specs.Places.{qualifiers_reads, turn_reads, phrase_reads, looping_reads};
ghost use Rattle.ss_reads.specs.Places.{locals_reads, yields_reads, control_reads};

use crate::expressions::{see_condition, see_expression, see_list, see_variable};
use crate::part::Part;
use crate::places::see_target;
use crate::read::Read;
use crate::scene::{Given, Scene};
use ss_links::SetBoard;
use ss_program::{
    Begin, Branch, Control, ForPhrase, Looping, Phrase, Qualifiers, Question, Section, SectionKind,
    Tellings, Variable,
};
use std::alloc::AllocError;

/// A branch looks at what its condition names.
pub(crate) fn see_branch<S: SetBoard>(
    scene: &Scene<'_, S>,
    reads: &mut Vec<Read>,
    branch: &Branch,
) -> Result<(), AllocError>
    requires scene { IsSoundScene (scene_of scene.now) }
    requires sound { InScene (scene_of scene.now) IsSoundBranch branch.now }
    ensures { OnOk result (reads.new.items
        ≡ reads.old.items ++ branch_reads (scene_of scene.now) branch.now) }
{
    match branch {
        Branch::If(Question::Whether(c)) => see_condition(scene, reads, c),
        Branch::If(Question::WasFound | Question::WasNone) => Ok(()),
        Branch::Else | Branch::Always => Ok(()),
    }
}

fn see_begin<S: SetBoard>(
    scene: &Scene<'_, S>,
    reads: &mut Vec<Read>,
    begin: &Begin,
) -> Result<(), AllocError>
    requires scene { IsSoundScene (scene_of scene.now) }
    requires sound { InScene (scene_of scene.now) IsSoundBegin begin.now }
    ensures { OnOk result (reads.new.items
        ≡ reads.old.items ++ begin_reads (scene_of scene.now) begin.now) }
{
    match begin {
        Begin::AtTheEnd => Ok(()),
        Begin::From(e) | Begin::After(e) => see_expression(scene, reads, e),
    }
}

/// A phrase whose loop is not open looks at its bounds, or at its list and the member at which it
/// begins.
fn see_entry<S: SetBoard>(
    scene: &Scene<'_, S>,
    reads: &mut Vec<Read>,
    phrase: &Phrase,
) -> Result<(), AllocError>
    requires scene { IsSoundScene (scene_of scene.now) }
    requires sound { InScene (scene_of scene.now) IsSoundPhrase phrase.now }
    ensures { OnOk result (reads.new.items
        ≡ reads.old.items ++ entry_reads (scene_of scene.now) phrase.now) }
{
    match phrase {
        Phrase::Counting {
            first,
            last,
            step,
            ..
        } => {
            see_expression(scene, reads, first)?;
            see_expression(scene, reads, last)?;
            match step {
                None => Ok(()),
                Some(e) => see_expression(scene, reads, e),
            }
        }
        Phrase::Each { count, .. } => see_variable(scene, reads, Variable::Global(*count)),
        Phrase::Walking { set, begin, .. } => {
            see_list(scene, reads, set)?;
            see_begin(scene, reads, begin)
        }
    }
}

/// The variable of a loop.
fn loop_variable(phrase: &Phrase) -> Variable
    ensures { result ≡ loop_variable phrase.now }
{
    match phrase {
        Phrase::Counting { variable, .. }
        | Phrase::Each { variable, .. }
        | Phrase::Walking { variable, .. } => *variable,
    }
}

fn see_qualifiers<S: SetBoard>(
    scene: &Scene<'_, S>,
    reads: &mut Vec<Read>,
    qualifiers: &Qualifiers,
) -> Result<(), AllocError>
    requires scene { IsSoundScene (scene_of scene.now) }
    requires sound { InScene (scene_of scene.now) AreSoundQualifiers qualifiers.now }
    ensures { OnOk result (reads.new.items
        ≡ reads.old.items ++ qualifiers_reads (scene_of scene.now) qualifiers.now) }
{
    for qualifier in &qualifiers.list {
        see_condition(scene, reads, &qualifier.condition)?;
    }
    Ok(())
}

/// A phrase whose loop is open looks at the candidate that comes next, then at what its qualifiers
/// name with that candidate in the loop's variable.
#[tactic(auto, using(crate::proofs::Statements::phrase_settable))]
fn see_turn<S: SetBoard>(
    scene: &Scene<'_, S>,
    reads: &mut Vec<Read>,
    phrase: &ForPhrase,
    candidate: Option<i64>,
) -> Result<(), AllocError>
    requires scene { IsSoundScene (scene_of scene.now) }
    requires phrase { InScene (scene_of scene.now) IsSoundPhrase phrase.now.phrase }
    requires qualifiers { InScene (scene_of scene.now) AreSoundQualifiers
        phrase.now.qualifiers }
    ensures { OnOk result (reads.new.items
        ≡ reads.old.items ++ turn_reads (scene_of scene.now) phrase.now candidate) }
{
    let variable = loop_variable(&phrase.phrase);
    reads.push(Read::Candidate(variable, candidate))?;
    let Some(value) = candidate else {
        return Ok(());
    };
    let turn = Scene {
        machine: scene.machine,
        given: Some(Given { variable, value }),
    };
    see_qualifiers(&turn, reads, &phrase.qualifiers)
}

fn see_phrase<S: SetBoard>(
    scene: &Scene<'_, S>,
    reads: &mut Vec<Read>,
    phrase: &ForPhrase,
) -> Result<(), AllocError>
    requires scene { IsSoundScene (scene_of scene.now) }
    requires phrase { InScene (scene_of scene.now) IsSoundPhrase phrase.now.phrase }
    requires qualifiers { InScene (scene_of scene.now) AreSoundQualifiers
        phrase.now.qualifiers }
    ensures { OnOk result (reads.new.items ≡ reads.old.items
        ++ phrase_reads (scene_of scene.now) phrase.now
        (loop_of_phrase scene.now.machine.now.state.frame.place
        (innermost scene.now.machine.now.state.frame.loops))) }
{
    match scene.machine.candidate_here() {
        None => see_entry(scene, reads, &phrase.phrase),
        Some(candidate) => see_turn(scene, reads, phrase, candidate),
    }
}

fn see_tellings<S: SetBoard>(
    scene: &Scene<'_, S>,
    reads: &mut Vec<Read>,
    tellings: &Tellings,
) -> Result<(), AllocError>
    requires scene { IsSoundScene (scene_of scene.now) }
    requires sound { InScene (scene_of scene.now) AreSoundTellings tellings.now }
    ensures { OnOk result (reads.new.items
        ≡ reads.old.items ++ tellings_reads (scene_of scene.now) tellings.now) }
{
    for telling in &tellings.list {
        see_target(scene, reads, &telling.target)?;
    }
    Ok(())
}

/// A phrase looks at what its loop comes to, COMPUTE at what it gathers and at its targets.
pub(crate) fn see_looping<S: SetBoard>(
    scene: &Scene<'_, S>,
    reads: &mut Vec<Read>,
    looping: &Looping,
) -> Result<(), AllocError>
    requires scene { IsSoundScene (scene_of scene.now) }
    requires sound { InScene (scene_of scene.now) IsSoundLooping looping.now }
    ensures { OnOk result (reads.new.items
        ≡ reads.old.items ++ looping_reads (scene_of scene.now) looping.now) }
{
    match looping {
        Looping::For(phrase) => see_phrase(scene, reads, phrase.value()),
        Looping::Loop | Looping::Find => Ok(()),
        Looping::Gather(e) => see_expression(scene, reads, e.value()),
        Looping::Tell(tellings) => see_tellings(scene, reads, tellings),
    }
}

/// Looks at a local variable.
fn see_local(reads: &mut Vec<Read>, local: usize) -> Result<(), AllocError>
    ensures { OnOk result (reads.new.items ≡ reads.old.items ++ locals_reads local 1) }
{
    reads.push(Read::Part(Part::Variable(Variable::Local(local))))?;
    Ok(())
}

/// Looks at local variables, from one number on and before another.
fn see_locals(reads: &mut Vec<Read>, first: usize, end: usize) -> Result<(), AllocError>
    requires { first ≤ end }
    ensures { OnOk result (reads.new.items
        ≡ reads.old.items ++ locals_reads first (end - first)) }
{
    for local in first..end {
        see_local(reads, local)?;
    }
    Ok(())
}

/// The end of a routine looks at what it yields.
fn see_yields(reads: &mut Vec<Read>, section: &Section) -> Result<(), AllocError>
    requires { section.now.given + section.now.yielded < 2 ^ 64 }
    ensures { OnOk result (reads.new.items ≡ reads.old.items ++ yields_reads section.now) }
{
    match section.kind {
        SectionKind::Main | SectionKind::Event => Ok(()),
        SectionKind::Routine => {
            see_locals(reads, section.given, section.given + section.yielded)
        }
    }
}

/// The end of a routine looks at what it yields, STOP at nothing.
#[tactic(auto, using(crate::proofs::Statements::few_parameters))]
pub(crate) fn see_control<S: SetBoard>(
    scene: &Scene<'_, S>,
    reads: &mut Vec<Read>,
    control: Control,
) -> Result<(), AllocError>
    requires scene { IsSoundScene (scene_of scene.now) }
    ensures { OnOk result (reads.new.items
        ≡ reads.old.items ++ control_reads (scene_of scene.now) control) }
{
    match control {
        Control::Stop => Ok(()),
        Control::Return | Control::End => {
            let program = scene.machine.program();
            program.known();
            let (section, _) = scene.machine.place();
            see_yields(reads, program.section(section))
        }
    }
}
