//! The section of a word: its name, and the line of its head.
ghost use Rattle.std.specs.Prelude.{◌≡◌};
ghost use Rattle.ss_words.specs.Plain.{plain_at};
ghost use Rattle.ss_names.specs.Landmarks as spec;

use crate::here::Here;
use ss_words::{Mark, Plain, PlainWord, Reserved};

/// The section of a word.
#[derive(Clone, Copy)]
pub struct InSection<'a> {
    /// Its name; empty in MAIN and before the first named section.
    pub name: &'a [u8],
    /// The line on which the head of the last named section begins.
    pub head: usize,
}

/// Whether a name here is that of a section, after ROUTINE or EVENT.
fn names_section(here: Here) -> bool
    ensures { result ≡ spec.names_section here }
{
    !here.in_preamble
        && matches!(
            here.before,
            Some(Mark::Reserved(Reserved::Routine | Reserved::Event))
        )
}

/// The section after a word: that of its name, if it is that of a section; without one after MAIN.
pub fn section_behind<'a>(section: InSection<'a>, here: Here, word: &PlainWord<'a>) -> InSection<'a>
    ensures { spec.section_at result
        ≡ spec.section_behind (spec.section_at section.entry) here (plain_at word.now) }
{
    match word.kind() {
        Plain::Name(name) if names_section(here) => InSection {
            name: name.bytes(),
            head: here.line,
        },
        Plain::Mark(Mark::Reserved(Reserved::Main)) => InSection {
            name: b"",
            head: section.head,
        },
        _ => section,
    }
}
