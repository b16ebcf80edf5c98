//! Sets into which nothing is filed, and events that nothing schedules.
ghost use Rattle.std.specs.Prelude.{◌≡◌, ◌++◌, OnOk, map};
ghost use Rattle.ss_words.specs.Plain.{plain_at};
ghost use Rattle.ss_names.specs.Unused as spec;

use crate::once::push_warning;
use crate::unstarted::push_unstarted;
use ss_program::{Class, ClassKind, Filing, Place, Program, Section, Timing};
use ss_words::{Plain, PlainWord, TextFault, plain_words, words};
use std::alloc::{AllocError, Global};

/// The text about a set into which nothing is filed. The definitions read these texts too.
pub const UNFILED: &[u8] = b" is a set into which nothing is filed.\n";

/// The text about an event that nothing schedules.
pub const UNSCHEDULED: &[u8] = b" is an event that nothing schedules.\n";

#[tactic(auto, unfolding(crate::specs::Unused::files_into))]
fn files_into(place: &Place, set: usize) -> bool
    ensures { result ≡ spec.files_into set place.now }
{
    let Place::Filing(filing) = place else {
        return false;
    };
    match filing.value() {
        Filing::File { set: filed, .. } | Filing::FileAt { set: filed, .. } => filed.set == set,
        Filing::RemoveAt { .. } | Filing::Remove { .. } => false,
    }
}

#[tactic(auto, unfolding(crate::specs::Unused::schedules_class))]
fn schedules_class(place: &Place, class: usize) -> bool
    ensures { result ≡ spec.schedules_class class place.now }
{
    let Place::Timing(timing) = place else {
        return false;
    };
    match timing.value() {
        Timing::Schedule(schedule) => schedule.class == class,
        Timing::Cancel { .. } | Timing::Start => false,
    }
}

#[tactic(auto, unfolding(crate::specs::Unused::section_files))]
fn section_files(section: &Section, set: usize) -> bool
    ensures { result ≡ spec.section_files set section.now }
{
    section
        .places
        .iter()
        .any(|spot| files_into(&spot.place, set))
}

#[tactic(auto, unfolding(crate::specs::Unused::section_schedules))]
fn section_schedules(section: &Section, class: usize) -> bool
    ensures { result ≡ spec.section_schedules class section.now }
{
    section
        .places
        .iter()
        .any(|spot| schedules_class(&spot.place, class))
}

#[tactic(auto, unfolding(crate::specs::Unused::any_files))]
fn any_files(sections: &[Section], set: usize) -> bool
    ensures { result ≡ spec.any_files set sections.now }
{
    sections.iter().any(|s| section_files(s, set))
}

#[tactic(auto, unfolding(crate::specs::Unused::any_schedules))]
fn any_schedules(sections: &[Section], class: usize) -> bool
    ensures { result ≡ spec.any_schedules class sections.now }
{
    sections.iter().any(|s| section_schedules(s, class))
}

/// Whether nothing is filed into the set with this number.
fn is_unfiled(program: &Program, set: usize) -> bool
    ensures { result ≡ spec.is_unfiled program.now set }
{
    !any_files(&program.sections, set)
}

fn is_event(class: &Class) -> bool
    ensures { result ≡ is_event class.now.kind }
{
    matches!(class.kind, ClassKind::Event(_))
}

ghost use Rattle.ss_program.specs.Program.{is_event};

/// Whether a class, with this number, is one of events that neither a place nor the data schedule.
fn is_unscheduled(program: &Program, number: usize, class: &Class) -> bool
    ensures { result ≡ spec.is_unscheduled program.now number class.now }
{
    if !is_event(class) || class.is_external() {
        return false;
    }
    !any_schedules(&program.sections, number)
}

/// The line on which a name occurs first among words, 0 if it does not occur.
#[tactic(auto, unfolding(crate::specs::Unused::first_line))]
fn first_line(told: &[u8], words: &[PlainWord<'_>]) -> usize
    ensures { result ≡ spec.first_line told.now (map plain_at words.now) }
{
    let mut rest = words;
    while let [word, behind @ ..] = rest {
        if let Plain::Name(name) = word.kind() {
            if name.bytes() == told {
                return word.line();
            }
        }
        rest = behind;
    }
    0
}

/// Appends each set into which nothing is filed.
#[tactic(auto, unfolding(crate::specs::Unused::unfiled_text))]
fn push_unfiled(
    text: &mut Vec<u8>,
    program: &Program,
    words: &[PlainWord<'_>],
) -> Result<(), AllocError>
    ensures { OnOk result (text.new.items ≡ text.old.items
        ++ spec.unfiled_text program.now (map plain_at words.now) 0 program.now.sets) }
{
    for (number, set) in program.sets.iter().enumerate() {
        if is_unfiled(program, number) {
            let name = &set.name.bytes;
            push_warning(text, first_line(name, words), name, UNFILED)?;
        }
    }
    Ok(())
}

/// Appends each event class that nothing schedules.
#[tactic(auto, unfolding(crate::specs::Unused::unscheduled_text))]
fn push_unscheduled(
    text: &mut Vec<u8>,
    program: &Program,
    words: &[PlainWord<'_>],
) -> Result<(), AllocError>
    ensures { OnOk result (text.new.items ≡ text.old.items
        ++ spec.unscheduled_text program.now (map plain_at words.now) 0 program.now.classes) }
{
    for (number, class) in program.classes.iter().enumerate() {
        if is_unscheduled(program, number, class) {
            let name = &class.name.bytes;
            push_warning(text, first_line(name, words), name, UNSCHEDULED)?;
        }
    }
    Ok(())
}

/// Appends the warnings of a model that its program gives (docs/SENTENCES.md), each with the line
/// on which the name occurs first: the sets into which nothing is filed, the events that neither a
/// SCHEDULE nor the data schedule, and the first SCHEDULE of a program that never starts the
/// simulation. The only error is that memory was refused.
pub fn push_program_warnings(
    alloc: Global,
    program: &Program,
    model: &[u8],
    text: &mut Vec<u8>,
) -> Result<(), AllocError>
    ensures { OnOk result (text.new.items
        ≡ text.old.items ++ spec.program_warnings program.now model.now) }
{
    match words(alloc, model) {
        Ok(words) => {
            let plain = plain_words(alloc, &words)?;
            push_unfiled(text, program, &plain)?;
            push_unscheduled(text, program, &plain)?;
            push_unstarted(text, program)
        }
        Err(TextFault::Memory) => Err(AllocError),
        Err(TextFault::Refused { .. }) => Ok(()),
    }
}
