//! The members of a list.
ghost use Rattle.std.specs.Prelude.{◌≡◌, ◌<◌, length, IfOk, option_map};
ghost use Rattle.ss_store.specs.Tables.{tables_of, set_of};
ghost use Rattle.ss_store.specs.Store.{number_of, members_of};
ghost use Rattle.ss_reads.specs.Values.{members_seen};

use ss_inspect::members_page;
use ss_links::SetBoard;
use ss_machine::Machine;
use std::alloc::{AllocError, Global};

/// The members of the list of a set, which has this number of members.
#[tactic(auto, using(crate::proofs::Lists::whole_page))]
fn all_members<S: SetBoard>(
    alloc: Global,
    machine: &Machine<S>,
    set: usize,
    owner: i64,
    count: u32,
) -> Result<Vec<u32>, AllocError>
    requires set { set < length machine.now.input.program.sets }
    requires count { count ≡ length (members_of (set_of (tables_of machine.now.input.program) set)
        machine.now.state.store (number_of owner)) }
    ensures { IfOk result (λ members. members.items
        ≡ members_of (set_of (tables_of machine.now.input.program) set) machine.now.state.store
        (number_of owner)) }
{
    members_page(alloc, machine, set, owner, 0, count as usize)
}

/// The members of the list of a set for the owner that a value names; `None` if there is no such
/// owner.
#[tactic(auto, using(ss_debug::proofs::Tables::sets_kept, crate::proofs::Lists::counted))]
pub fn members_of<S: SetBoard>(
    alloc: Global,
    machine: &Machine<S>,
    set: usize,
    owner: i64,
) -> Result<Option<Vec<u32>>, AllocError>
    requires { set < length machine.now.input.program.sets }
    ensures { IfOk result (λ members. option_map (λ ks. ks.items) members
        ≡ members_seen (set_of (tables_of machine.now.input.program) set)
        machine.now.state.store (number_of owner)) }
{
    match machine.store().count(set, owner) {
        Err(_) => Ok(None),
        Ok(count) => Ok(Some(all_members(alloc, machine, set, owner, count)?)),
    }
}
