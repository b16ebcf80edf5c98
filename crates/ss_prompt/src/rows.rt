//! Rows of entities: some attributes of each, in one line.
ghost use Rattle.std.specs.Prelude.{◌≡◌, ◌++◌, ◌<◌, length, codes, decimal, OnOk, IfOk};
ghost use Rattle.ss_program.specs.Program.{set_of};
ghost use Rattle.ss_machine.specs.Moment.{position};
ghost use Rattle.ss_debug.specs.CommandLines.{command_words};
ghost use Rattle.ss_debug.specs.Entities.{set_text};
ghost use Rattle.ss_prompt.specs.Rows.{cell, cell_of, further_cells, cells, row, rows};
ghost use Rattle.ss_prompt.specs.Rows.{owner_asked, members_for, member_rows_text};
ghost use Rattle.ss_prompt.specs.Rows.{living_rows_text};

use crate::pieces::next_word;
use ss_debug::{
    Debugger, Name, Question, class_value, find_class, find_set, push_integer, push_number,
};
use ss_inspect::{living_numbers, members_page, push_living};
use ss_links::SetBoard;
use ss_machine::Machine;
use ss_program::Owner;
use ss_trace::attribute_named;
use std::alloc::{AllocError, Global};

/// Appends an attribute and its value, if it has one.
fn push_named(text: &mut Vec<u8>, name: &[u8], value: Option<i64>) -> Result<(), AllocError>
    ensures { OnOk result (text.new.items ≡ text.old.items ++ cell name.now value) }
{
    let Some(value) = value else {
        return Ok(());
    };
    text.extend_from_slice(name)?;
    text.extend_from_slice(b" = ")?;
    push_integer(text, value)
}

/// Appends the attribute of this name of an entity; nothing if there is none.
pub(crate) fn push_cell<S: SetBoard>(
    text: &mut Vec<u8>,
    machine: &Machine<S>,
    class: usize,
    number: u32,
    name: &[u8],
) -> Result<(), AllocError>
    ensures { OnOk result (text.new.items ≡ text.old.items
        ++ cell_of machine.now.input.program machine.now.state.store class number name.now) }
{
    push_named(
        text,
        name,
        attribute_named(machine, class, i64::from(number), name),
    )
}

/// Appends the attributes whose names are the words of a line, each after a comma.
fn push_further_cells<S: SetBoard>(
    text: &mut Vec<u8>,
    machine: &Machine<S>,
    class: usize,
    number: u32,
    names: &[u8],
) -> Result<(), AllocError>
    ensures { OnOk result (text.new.items ≡ text.old.items
        ++ further_cells machine.now.input.program machine.now.state.store class number
        (command_words names.now)) }
{
    let mut rest = names;
    while let Some((name, more)) = next_word(rest) {
        text.extend_from_slice(b", ")?;
        push_cell(text, machine, class, number, name)?;
        rest = more;
    }
    Ok(())
}

/// Appends the attributes whose names are the words of a line, a comma between.
fn push_cells<S: SetBoard>(
    text: &mut Vec<u8>,
    machine: &Machine<S>,
    class: usize,
    number: u32,
    names: &[u8],
) -> Result<(), AllocError>
    ensures { OnOk result (text.new.items ≡ text.old.items
        ++ cells machine.now.input.program machine.now.state.store class number
        (command_words names.now)) }
{
    let Some((name, more)) = next_word(names) else {
        return Ok(());
    };
    push_cell(text, machine, class, number, name)?;
    push_further_cells(text, machine, class, number, more)
}

/// Appends the beginning of a row: the class of an entity and its number.
pub(crate) fn push_row_head(text: &mut Vec<u8>, class: &[u8], number: u32) -> Result<(), AllocError>
    ensures { OnOk result (text.new.items
        ≡ text.old.items ++ class.now ++ codes " " ++ decimal number ++ codes ": ") }
{
    text.extend_from_slice(class)?;
    text.extend_from_slice(b" ")?;
    push_number(text, u64::from(number))?;
    text.extend_from_slice(b": ")
}

/// Appends the row of an entity with the attributes whose names are the words of a line.
fn push_row<S: SetBoard>(
    text: &mut Vec<u8>,
    machine: &Machine<S>,
    class: usize,
    number: u32,
    names: &[u8],
) -> Result<(), AllocError>
    ensures { OnOk result (text.new.items ≡ text.old.items
        ++ row machine.now.input.program machine.now.state.store class
        (command_words names.now) number) }
{
    push_row_head(text, machine.program().class_name(class), number)?;
    push_cells(text, machine, class, number, names)?;
    text.extend_from_slice(b"\n")
}

/// Appends a row for each of some entities.
fn push_rows<S: SetBoard>(
    text: &mut Vec<u8>,
    machine: &Machine<S>,
    class: usize,
    numbers: &[u32],
    names: &[u8],
) -> Result<(), AllocError>
    ensures { OnOk result (text.new.items ≡ text.old.items
        ++ rows machine.now.input.program machine.now.state.store class
        (command_words names.now) numbers.now) }
{
    for number in numbers {
        push_row(text, machine, class, *number, names)?;
    }
    Ok(())
}

/// The number that names the owner of the list that SHOW SET asks for, any for the system; `None`
/// if a number is given for the system.
fn owner_asked<S: SetBoard>(machine: &Machine<S>, set: usize, owner: Option<i64>) -> Option<i64>
    requires { set < length machine.now.input.program.sets }
    ensures { result ≡ owner_asked machine.now.input.program machine.now.state owner
        (set_of machine.now.input.program set).owner }
{
    let program = machine.program();
    program.known();
    match (program.set_owner(set), owner) {
        (Owner::System, None) => Some(0),
        (Owner::System, Some(_)) => None,
        (Owner::OwnedBy(class), owner) => Some(owner.unwrap_or(class_value(machine, class))),
    }
}

/// The members of the list of a set for the owner that a number names; none if there is no such
/// owner.
#[tactic(auto, using(ss_debug::proofs::Tables::sets_kept, crate::proofs::RowTexts::whole_page))]
fn members_for<S: SetBoard>(
    alloc: Global,
    machine: &Machine<S>,
    set: usize,
    owner: Option<i64>,
) -> Result<Vec<u32>, AllocError>
    requires { set < length machine.now.input.program.sets }
    ensures { IfOk result (λ members. members.items ≡ members_for machine.now.input.program
        machine.now.state.store set owner) }
{
    let Some(x) = owner else {
        return Ok(Vec::new(alloc));
    };
    match machine.store().count(set, x) {
        Ok(count) => members_page(alloc, machine, set, x, 0, count as usize),
        Err(_) => Ok(Vec::new(alloc)),
    }
}

/// Appends the answer to SHOW SET s, or to SHOW SET s k.
fn push_list<S: SetBoard>(
    text: &mut Vec<u8>,
    debugger: &Debugger<S>,
    set: Name,
    owner: Option<i64>,
) -> Result<(), AllocError>
    ensures { OnOk result (text.new.items ≡ text.old.items ++ set_text set owner
        debugger.now.machine.input (position debugger.now.machine)) }
{
    let list = debugger.answer_to(&Question::Set(set, owner))?;
    text.extend_from_slice(&list)
}

/// Appends the answer to SHOW SET s [k] a ..: a row for each member of the list, in its order, with
/// the attributes whose names are the words of a line, in theirs; the answer to SHOW SET if the list
/// has no members or is not there.
#[tactic(auto, unfolding(crate::specs::Rows::member_rows_text), using(ss_debug::proofs::Tables::set_within))]
pub(crate) fn push_member_rows<S: SetBoard>(
    text: &mut Vec<u8>,
    debugger: &Debugger<S>,
    set: Name,
    owner: Option<i64>,
    names: &[u8],
) -> Result<(), AllocError>
    ensures { OnOk result (text.new.items ≡ text.old.items
        ++ member_rows_text set owner (command_words names.now) debugger.now.machine.input
        (position debugger.now.machine)) }
{
    let machine = debugger.machine();
    machine.known();
    let Some(number) = find_set(machine.program(), set.as_slice()) else {
        return push_list(text, debugger, set, owner);
    };
    let asked = owner_asked(machine, number, owner);
    let members = members_for(*text.allocator(), machine, number, asked)?;
    if members.is_empty() {
        return push_list(text, debugger, set, owner);
    }
    let class = machine.program().member_class(number);
    push_rows(text, machine, class, &members, names)
}

/// Appends the answer to SHOW c a ..: a row for each entity of the class that lives, the least
/// number first, with the attributes whose names are the words of a line, in their order; the answer
/// to SHOW c if there is none.
#[tactic(auto, unfolding(crate::specs::Rows::living_rows_text))]
pub(crate) fn push_living_rows<S: SetBoard>(
    text: &mut Vec<u8>,
    machine: &Machine<S>,
    class: &[u8],
    names: &[u8],
) -> Result<(), AllocError>
    ensures { OnOk result (text.new.items ≡ text.old.items
        ++ living_rows_text class.now (command_words names.now) machine.now.input
        (position machine.now)) }
{
    machine.known();
    let Some(number) = find_class(machine.program(), class) else {
        return push_living(*text.allocator(), text, machine, class);
    };
    let living = living_numbers(*text.allocator(), machine, number)?;
    if living.is_empty() {
        return push_living(*text.allocator(), text, machine, class);
    }
    push_rows(text, machine, number, &living, names)
}
