//! The values in the rows of a program's tables, read by number without a failure.
ghost use Rattle.std.specs.Prelude.{◌≡◌, [], option_map, slice_index_or};
ghost use Rattle.ss_program.specs.Program.{class_of, section_of, set_of, spot_at};

use crate::kinds::Owner;
use crate::name::Name;
use crate::place::Spot;
use crate::program::Program;

/// The name with this number in a table, an empty one if there is none.
pub fn name_at(names: &[Name], number: usize) -> &[u8]
    ensures { result.now ≡ slice_index_or names.now number [] }
{
    match names.get(number) {
        None => b"",
        Some(name) => &name.bytes,
    }
}

impl Program {
    /// The name of the class with this number, an empty one if there is none.
    pub fn class_name(&self, class: usize) -> &[u8]
        ensures { result.now ≡ (class_of self.now class).name }
    {
        match self.classes.get(class) {
            None => b"",
            Some(class) => &class.name.bytes,
        }
    }

    /// The number of the variable of the class with this number, 0 if there is none.
    pub fn class_variable(&self, class: usize) -> usize
        ensures { result ≡ (class_of self.now class).variable }
    {
        match self.classes.get(class) {
            None => 0,
            Some(class) => class.variable,
        }
    }

    /// The names of the attributes of the class with this number.
    pub fn attributes(&self, class: usize) -> &[Name]
        ensures { result.now ≡ (class_of self.now class).attributes }
    {
        match self.classes.get(class) {
            None => &[],
            Some(class) => &class.attributes,
        }
    }

    /// The name of the set with this number, an empty one if there is none.
    pub fn set_name(&self, set: usize) -> &[u8]
        ensures { result.now ≡ (set_of self.now set).name }
    {
        match self.sets.get(set) {
            None => b"",
            Some(set) => &set.name.bytes,
        }
    }

    /// The owner of the lists of the set with this number, the system if there is none.
    pub fn set_owner(&self, set: usize) -> Owner
        ensures { result ≡ (set_of self.now set).owner }
    {
        match self.sets.get(set) {
            None => Owner::System,
            Some(set) => set.owner,
        }
    }

    /// The class of the members of the set with this number, 0 if there is none.
    pub fn member_class(&self, set: usize) -> usize
        ensures { result ≡ (set_of self.now set).member }
    {
        match self.sets.get(set) {
            None => 0,
            Some(set) => set.member,
        }
    }

    /// The name of the section with this number, an empty one if there is none.
    pub fn section_name(&self, section: usize) -> &[u8]
        ensures { result.now ≡ (section_of self.now section).name }
    {
        match self.sections.get(section) {
            None => b"",
            Some(section) => &section.name.bytes,
        }
    }

    /// The names of the locals of the section with this number.
    pub fn locals(&self, section: usize) -> &[Name]
        ensures { result.now ≡ (section_of self.now section).locals }
    {
        match self.sections.get(section) {
            None => &[],
            Some(section) => &section.locals,
        }
    }

    /// The place with this number of the section with this number, if there is one.
    pub fn spot_at(&self, section: usize, place: usize) -> Option<&Spot>
        ensures { option_map (λ spot. spot.now) result ≡ spot_at self.now section place }
    {
        self.sections.get(section)?.places.get(place)
    }
}
