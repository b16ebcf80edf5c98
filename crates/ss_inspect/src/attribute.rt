//! The answers to SHOW c v and SHOW c v a.
ghost use Rattle.std.specs.Prelude.{◌≡◌, ◌++◌, OnOk};
ghost use Rattle.std.specs.Option.{option_map};
ghost use Rattle.ss_machine.specs.Moment.{position};
ghost use Rattle.ss_state.specs.Readings.{variable_in};
ghost use Rattle.ss_debug.specs.Answer.{variable_named};
ghost use Rattle.ss_debug.specs.Entities.{class_named, class_text};
ghost use Rattle.ss_inspect.specs.Attribute.{by_variable_text};

use crate::texts::{push_no_entity, push_no_such};
use ss_debug::{find_class, find_variable, push_entity, push_integer};
use ss_links::SetBoard;
use ss_machine::Machine;
use ss_trace::push_attribute;
use std::alloc::AllocError;

/// Appends an entity whole, or which of class and entity isn't there.
fn push_whole<S: SetBoard>(
    text: &mut Vec<u8>,
    machine: &Machine<S>,
    class_name: &[u8],
    x: i64,
) -> Result<(), AllocError>
    ensures { OnOk result (text.new.items ≡ text.old.items
        ++ class_text class_name.now x machine.now.input.program machine.now.state.store
        (class_named machine.now.input.program class_name.now)) }
{
    let Some(class) = find_class(machine.program(), class_name) else {
        return push_no_such(text, b"CLASS", class_name);
    };
    if !machine.store().exists(class, x) {
        return push_no_entity(text, class_name, x);
    }
    text.extend_from_slice(class_name)?;
    text.extend_from_slice(b" ")?;
    push_integer(text, x)?;
    text.extend_from_slice(b"\n")?;
    push_entity(text, machine, class, x)
}

/// The value of the variable of this name: TIME.V, else a global variable, else a local of the last
/// frame; `None` if there is none.
pub fn variable_value<S: SetBoard>(machine: &Machine<S>, name: &[u8]) -> Option<i64>
    ensures { result ≡ option_map (variable_in machine.now.state)
        (variable_named machine.now.input (position machine.now) name.now) }
{
    machine.known();
    let variable = find_variable(machine, name)?;
    Some(machine.variable(variable))
}

/// Appends the answer to SHOW c v, or to SHOW c v a if an attribute is named (kept ones as well).
/// The answer is that to SHOW c k or SHOW c k a, in which k is the value of the variable v, or
/// `NO VARIABLE v`.
#[tactic(auto, unfolding(crate::specs::Attribute::by_variable_text, ss_trace::specs::Question::attribute_text))]
pub fn push_by_variable<S: SetBoard>(
    text: &mut Vec<u8>,
    machine: &Machine<S>,
    class: &[u8],
    variable: &[u8],
    attribute: Option<&[u8]>,
) -> Result<(), AllocError>
    ensures { OnOk result (text.new.items ≡ text.old.items
        ++ by_variable_text class.now variable.now (option_map (λ name. name.now) attribute.entry)
        machine.now.input (position machine.now)) }
{
    machine.known();
    let Some(x) = variable_value(machine, variable) else {
        return push_no_such(text, b"VARIABLE", variable);
    };
    match attribute {
        Some(name) => push_attribute(text, machine, class, x, name),
        None => push_whole(text, machine, class, x),
    }
}
