//! The parts of a state to which the references of an editor refer.
ghost use Rattle.std.specs.Prelude.{◌≡◌, ◌<◌};
ghost use Rattle.ss_scopes.specs.References.{class_reference, set_reference, fixed_group, row_group, group_of};

/// How many references a row has: one for each number that an entity may have, and for 0.
pub const ROW: u32 = 1_048_576;

/// No class and no set with a number from this one on has references.
pub const MOST_ROWS: usize = 1_000;

/// The reference of the locals of the last frame.
pub const FIRST_LOCALS: u32 = 7;

/// The part of a state to which a reference refers.
#[derive(Clone, Copy)]
pub enum Group {
    Nothing,
    /// The global variables.
    Globals,
    /// The classes.
    Classes,
    /// The sets.
    Sets,
    /// The pending notices.
    Events,
    /// The pieces of the data that are taken.
    Data,
    /// The clock and the position of the run.
    Run,
    /// The locals of the frame with this number of frames above it.
    Locals(u32),
    /// The entities of the class with this number.
    Class(usize),
    /// An entity of the class with this number.
    Entity(usize, u32),
    /// The lists of the set with this number, or its members, if the system owns it.
    Set(usize),
    /// The list of the set with this number for the owner with this number.
    Members(usize, u32),
}

/// The reference of an entity of the class with this number, or, for number 0, of the class.
pub fn class_reference(class: usize, number: u32) -> u64
    ensures { result ≡ class_reference class number }
{
    if class < MOST_ROWS && number < ROW {
        return (2 * class as u64 + 1) * u64::from(ROW) + u64::from(number);
    }
    0
}

/// The reference of the list of a set for the owner with this number, or, for number 0, of the set.
pub fn set_reference(set: usize, owner: u32) -> u64
    ensures { result ≡ set_reference set owner }
{
    if set < MOST_ROWS && owner < ROW {
        return (2 * set as u64 + 2) * u64::from(ROW) + u64::from(owner);
    }
    0
}

/// The part to which a reference below `ROW` refers.
fn fixed_group(number: u32) -> Group
    ensures { result ≡ fixed_group number }
{
    match number {
        0 => Group::Nothing,
        1 => Group::Globals,
        2 => Group::Classes,
        3 => Group::Sets,
        4 => Group::Events,
        5 => Group::Data,
        6 => Group::Run,
        _ => Group::Locals(number - FIRST_LOCALS),
    }
}

/// The part to which a reference of a row refers.
fn row_group(row: u32, number: u32) -> Group
    requires { 0 < row }
    ensures { result ≡ row_group row number }
{
    let half = (row / 2) as usize;
    if row % 2 == 1 {
        if number == 0 {
            return Group::Class(half);
        }
        return Group::Entity(half, number);
    }
    if number == 0 {
        return Group::Set(half - 1);
    }
    Group::Members(half - 1, number)
}

/// The part to which a reference refers.
pub fn group_of(reference: u64) -> Group
    ensures { result ≡ group_of reference }
{
    let Ok(number) = u32::try_from(reference) else {
        return Group::Nothing;
    };
    if number < ROW {
        return fixed_group(number);
    }
    row_group(number / ROW, number % ROW)
}
