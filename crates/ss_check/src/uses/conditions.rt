//! Adding the uses of names in conditions.

ghost use Rattle.std.specs.Prelude.{◌≡◌, ◌++◌, OnOk};
ghost use Rattle.ss_routines.specs.View.{condition_view, conjunction_view, relation_view};
ghost use Rattle.ss_check.specs.Uses as uses_of;

use crate::uses::expressions::{add_expr, add_set};
use crate::uses::use_list::UseList;
use ss_routines::{Condition, Conjunction, Relation};
use std::alloc::AllocError;

/// Adds the uses of a condition.
#[cycle(uses)]
pub(crate) fn add_condition<'a>(uses: &mut UseList<'a>, c: &'a Condition) -> Result<(), AllocError>
    ensures { OnOk result (uses.new ≡ uses.old ++ uses_of.uses_condition (condition_view c.now)) }
{
    add_conjunction(uses, &c.first)?;
    for further in &c.more {
        add_conjunction(uses, further)?;
    }
    Ok(())
}

#[cycle(uses)]
fn add_conjunction<'a>(uses: &mut UseList<'a>, c: &'a Conjunction) -> Result<(), AllocError>
    ensures { OnOk result
        (uses.new ≡ uses.old ++ uses_of.uses_conjunction (conjunction_view c.now)) }
{
    add_relation(uses, &c.first)?;
    for further in &c.more {
        add_relation(uses, further)?;
    }
    Ok(())
}

#[cycle(uses)]
fn add_relation<'a>(uses: &mut UseList<'a>, r: &'a Relation) -> Result<(), AllocError>
    ensures { OnOk result (uses.new ≡ uses.old ++ uses_of.uses_relation (relation_view r.now)) }
{
    match r {
        Relation::Compared { left, right, .. } => {
            add_expr(uses, left)?;
            add_expr(uses, right)
        }
        Relation::Empty { set, .. } => add_set(uses, set),
        Relation::Member { member, set, .. } => {
            add_expr(uses, member)?;
            add_set(uses, set)
        }
        Relation::Within(c) => add_condition(uses, c),
    }
}
