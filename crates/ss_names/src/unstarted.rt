//! A model that schedules, and never starts the simulation.
ghost use Rattle.std.specs.Prelude.{◌≡◌, ◌++◌, OnOk};
ghost use Rattle.ss_names.specs.Unstarted as spec;

use crate::once::push_warning;
use ss_program::{Place, Program, Section, Spot, Timing};
use std::alloc::AllocError;

/// The text about the first SCHEDULE then. The definitions read these texts too.
pub const SCHEDULING_WORD: &[u8] = b"SCHEDULE";

pub const UNSTARTED: &[u8] = b" is here, and START SIMULATION nowhere: no event occurs.\n";

#[tactic(auto, unfolding(crate::specs::Unstarted::starts))]
fn starts(place: &Place) -> bool
    ensures { result ≡ spec.starts place.now }
{
    let Place::Timing(timing) = place else {
        return false;
    };
    match timing.value() {
        Timing::Start => true,
        Timing::Schedule(_) | Timing::Cancel { .. } => false,
    }
}

#[tactic(auto, unfolding(crate::specs::Unstarted::schedules))]
fn schedules(place: &Place) -> bool
    ensures { result ≡ spec.schedules place.now }
{
    let Place::Timing(timing) = place else {
        return false;
    };
    match timing.value() {
        Timing::Schedule(_) => true,
        Timing::Start | Timing::Cancel { .. } => false,
    }
}

#[tactic(auto, unfolding(crate::specs::Unstarted::section_starts))]
fn section_starts(section: &Section) -> bool
    ensures { result ≡ spec.section_starts section.now }
{
    section.places.iter().any(|spot| starts(&spot.place))
}

#[tactic(auto, unfolding(crate::specs::Unstarted::any_starts))]
fn any_starts(sections: &[Section]) -> bool
    ensures { result ≡ spec.any_starts sections.now }
{
    sections.iter().any(|section| section_starts(section))
}

/// The line of the first of these places that schedules.
#[tactic(auto, unfolding(crate::specs::Unstarted::scheduling_spot))]
fn scheduling_spot(mut spots: &[Spot]) -> Option<usize>
    ensures { result ≡ spec.scheduling_spot spots.entry.now }
{
    while let [spot, behind @ ..] = spots {
        if schedules(&spot.place) {
            return Some(spot.line);
        }
        spots = behind;
    }
    None
}

/// The line of the first place of these sections that schedules.
#[tactic(auto, unfolding(crate::specs::Unstarted::scheduling_line))]
fn scheduling_line(mut sections: &[Section]) -> Option<usize>
    ensures { result ≡ spec.scheduling_line sections.entry.now }
{
    while let [section, behind @ ..] = sections {
        if let Some(line) = scheduling_spot(&section.places) {
            return Some(line);
        }
        sections = behind;
    }
    None
}

/// Appends the first SCHEDULE of a program that never starts the simulation.
pub fn push_unstarted(text: &mut Vec<u8>, program: &Program) -> Result<(), AllocError>
    ensures { OnOk result (text.new.items ≡ text.old.items ++ spec.unstarted_text program.now) }
{
    if any_starts(&program.sections) {
        return Ok(());
    }
    match scheduling_line(&program.sections) {
        Some(line) => push_warning(text, line, SCHEDULING_WORD, UNSTARTED),
        None => Ok(()),
    }
}
