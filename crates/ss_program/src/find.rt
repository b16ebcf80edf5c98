//! The search for a name in a program, and the meanings that it can have.
ghost use Rattle.std.specs.Prelude.{◌≡◌, ◌<◌, ◌^◌, length, position, bytes_eq, slice_get, is_some, IfSome};
ghost use Rattle.std.specs.Option.{ForSome};
ghost use Rattle.ss_program.specs.Program.{locals_of};
ghost use Rattle.ss_program.specs.NameMeaning.{is_any, meaning_of, numbers_of};

use crate::name::Name;
use crate::names::is_clock;
use crate::program::Program;
use crate::section::Section;
use crate::tables::{Class, Set};

/// The meaning of a name: its number in the table of the global variables, of the classes and of
/// the sets. The name of a class has the first two.
#[derive(Clone, Copy, Debug, PartialEq, Eq)]
pub struct Named {
    pub variable: Option<u32>,
    pub class: Option<u32>,
    pub set: Option<u32>,
}

impl Named {
    fn is_any(self) -> bool
        ensures { result ≡ is_any self }
    {
        self.variable.is_some() || self.class.is_some() || self.set.is_some()
    }
}

impl Program {
    /// The meaning of this name, in upper case. `None` if it is no global variable, no class and
    /// no set; so for TIME.V.
    pub fn find(&self, name: &[u8]) -> Option<Named>
        ensures { result ≡ meaning_of self.now name.now }
    {
        if is_clock(name) {
            return None;
        }
        let numbers = self.numbers(name);
        if numbers.is_any() {
            Some(numbers)
        } else {
            None
        }
    }

    fn numbers(&self, name: &[u8]) -> Named
        ensures { result ≡ numbers_of self.now name.now }
    {
        Named {
            variable: number(variable_number(&self.globals, name)),
            class: number(class_number(&self.classes, name)),
            set: number(set_number(&self.sets, name)),
        }
    }

    /// The number of the section of this name, in upper case. `None` if no section has it.
    pub fn find_section(&self, name: &[u8]) -> Option<usize>
        ensures section { result ≡ position (λ s. bytes_eq name.now s.name) self.now.sections }
        ensures within { IfSome result (λ n. n < length self.now.sections) }
    {
        section_number(&self.sections, name)
    }

    /// The place of this name, in upper case, in the table of the local variables of the section
    /// with this number. `None` if it is none of them.
    pub fn local(&self, section: usize, name: &[u8]) -> Option<usize>
        requires { section < length self.now.sections }
        ensures { result ≡ position (bytes_eq name.now)
            (locals_of (slice_get self.now.sections section)) }
    {
        variable_number(&self.sections[section].locals, name)
    }
}

/// The place of a name in a table of variables.
fn variable_number(variables: &[Name], name: &[u8]) -> Option<usize>
    ensures value { result ≡ position (bytes_eq name.now) variables.now }
    ensures within { IfSome result (λ i. i < length variables.now) }
{
    variables
        .iter()
        .position(|variable| name == variable.bytes.as_slice())
}

/// The place of a class in their table.
fn class_number(classes: &[Class], name: &[u8]) -> Option<usize>
    ensures value { result ≡ position (λ c. bytes_eq name.now c.name) classes.now }
    ensures within { IfSome result (λ i. i < length classes.now) }
{
    classes
        .iter()
        .position(|class| name == class.name.bytes.as_slice())
}

/// The place of a set in their table.
fn set_number(sets: &[Set], name: &[u8]) -> Option<usize>
    ensures value { result ≡ position (λ s. bytes_eq name.now s.name) sets.now }
    ensures within { IfSome result (λ i. i < length sets.now) }
{
    sets.iter()
        .position(|set| name == set.name.bytes.as_slice())
}

/// The place of a section in their table.
fn section_number(sections: &[Section], name: &[u8]) -> Option<usize>
    ensures value { result ≡ position (λ s. bytes_eq name.now s.name) sections.now }
    ensures within { IfSome result (λ i. i < length sections.now) }
{
    sections
        .iter()
        .position(|section| name == section.name.bytes.as_slice())
}

/// A place in a table of fewer than 2^32 names.
fn number(place: Option<usize>) -> Option<u32>
    requires { ForSome place (λ i. i < 2 ^ 32) }
    ensures { result ≡ place }
{
    match place {
        Some(i) => Some(i as u32),
        None => None,
    }
}
