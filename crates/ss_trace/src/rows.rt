//! Attributes of a class by their names.
ghost use Rattle.std.specs.Prelude.{◌≡◌, position, bytes_eq};
ghost use Rattle.ss_program.specs.Program.{class_of};

use ss_program::{Name, Program};

fn number_of_name(names: &[Name], name: &[u8]) -> Option<usize>
    ensures { result ≡ position (bytes_eq name.now) names.now }
{
    names.iter().position(|n| name == n.bytes.as_slice())
}

/// The number of the attribute of this name in the class with this number.
pub fn find_attribute(program: &Program, class: usize, name: &[u8]) -> Option<usize>
    ensures { result ≡ position (bytes_eq name.now) (class_of program.now class).attributes }
{
    number_of_name(program.attributes(class), name)
}
