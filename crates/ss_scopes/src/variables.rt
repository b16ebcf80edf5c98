//! The variables that a reference has.
ghost use Rattle.std.specs.Prelude.{◌≡◌, ◌++◌, IfOk, OnOk};
ghost use Rattle.ss_machine.specs.Moment.{position};
ghost use Rattle.ss_trace.specs.Value.{value_at};
ghost use Rattle.ss_scopes.specs.Variables.{question_item, run_items, data_items, group_text, is_indexed, passes};
ghost use Rattle.ss_scopes.specs.Variables.{variables_text};

use crate::entities::{push_class, push_entity_variables};
use crate::events::push_events;
use crate::frames::{push_globals, push_locals};
use crate::group::{Group, group_of};
use crate::pages::Page;
use crate::sets::{push_classes, push_list_page, push_set, push_sets};
use ss_debug::{Debugger, Question as Shown};
use ss_links::SetBoard;
use ss_messages::{Filter, Wanted, variable_item};
use ss_trace::{Question, push_value};
use std::alloc::{AllocError, Global};

/// The value of a question, as a row and a watch of it show it.
pub fn question_value<S: SetBoard>(
    alloc: Global,
    debugger: &Debugger<S>,
    question: &Question,
) -> Result<Vec<u8>, AllocError>
    ensures { IfOk result (λ value. value.items
        ≡ value_at debugger.now.machine.input question.now (position debugger.now.machine)) }
{
    let mut value = Vec::new(alloc);
    push_value(debugger, question, &mut value)?;
    Ok(value)
}

/// Appends the value of a question of the debugger, under a name.
fn push_question<S: SetBoard>(
    out: &mut Vec<u8>,
    debugger: &Debugger<S>,
    name: &'static [u8],
    question: Shown,
) -> Result<(), AllocError>
    ensures { OnOk result (out.new.items ≡ out.old.items
        ++ question_item name.now debugger.now.machine.input (position debugger.now.machine)
        question) }
{
    let alloc = *out.allocator();
    let value = question_value(alloc, debugger, &Question::Shown(question))?;
    let item = variable_item(alloc, name, &value, 0)?;
    out.extend_from_slice(&item)
}

/// Appends the clock, and the position of the run.
fn push_run<S: SetBoard>(out: &mut Vec<u8>, debugger: &Debugger<S>) -> Result<(), AllocError>
    ensures { OnOk result (out.new.items ≡ out.old.items
        ++ run_items debugger.now.machine.input (position debugger.now.machine)) }
{
    push_question(out, debugger, b"TIME.V", Shown::Clock)?;
    push_question(out, debugger, b"STATE", Shown::Where)
}

/// Appends how many pieces of the data are taken, and the entry.
fn push_data<S: SetBoard>(out: &mut Vec<u8>, debugger: &Debugger<S>) -> Result<(), AllocError>
    ensures { OnOk result (out.new.items ≡ out.old.items
        ++ data_items debugger.now.machine.input (position debugger.now.machine)) }
{
    push_question(out, debugger, b"TAKEN", Shown::Taken)?;
    push_question(out, debugger, b"ENTRY", Shown::Entry)
}

/// Appends the variables of a group: a page, if there may be many.
fn push_group<S: SetBoard>(
    out: &mut Vec<u8>,
    debugger: &Debugger<S>,
    group: Group,
    page: Page,
) -> Result<(), AllocError>
    ensures { OnOk result (out.new.items ≡ out.old.items
        ++ group_text debugger.now.machine.input (position debugger.now.machine) page.start
        page.count group) }
{
    let machine = debugger.machine();
    machine.known();
    match group {
        Group::Nothing => Ok(()),
        Group::Globals => push_globals(out, machine, page),
        Group::Classes => push_classes(out, machine),
        Group::Sets => push_sets(out, machine),
        Group::Events => push_events(out, machine),
        Group::Data => push_data(out, debugger),
        Group::Run => push_run(out, debugger),
        Group::Locals(depth) => push_locals(out, machine, depth as usize, page),
        Group::Class(class) => push_class(out, machine, class, page),
        Group::Entity(class, number) => push_entity_variables(out, machine, class, number),
        Group::Set(set) => push_set(out, machine, set, page),
        Group::Members(set, owner) => { push_list_page(out, machine, set, owner, page) }
    }
}

/// Whether the variables of a group have numbers, not names.
fn is_indexed(group: Group) -> bool
    ensures { result ≡ is_indexed group }
{
    match group {
        Group::Class(_) | Group::Set(_) | Group::Members(_, _) => true,
        _ => false,
    }
}

/// Whether a filter lets it pass.
fn passes(filter: Filter, indexed: bool) -> bool
    ensures { result ≡ passes filter indexed }
{
    match filter {
        Filter::All => true,
        Filter::Named => !indexed,
        Filter::Indexed => indexed,
    }
}

/// Appends the variables that are wanted at the debugger's position, each after a comma.
///
/// There are none if the reference refers to nothing, or the filter is one for others.
#[tactic(auto, unfolding(crate::specs::Variables::variables_text))]
pub fn push_variables<S: SetBoard>(
    out: &mut Vec<u8>,
    debugger: &Debugger<S>,
    wanted: Wanted,
) -> Result<(), AllocError>
    ensures { OnOk result (out.new.items ≡ out.old.items
        ++ variables_text debugger.now.machine.input (position debugger.now.machine) wanted) }
{
    let group = group_of(wanted.reference);
    if !passes(wanted.filter, is_indexed(group)) {
        return Ok(());
    }
    let page = Page {
        start: wanted.start as usize,
        count: wanted.count as usize,
    };
    push_group(out, debugger, group, page)
}
