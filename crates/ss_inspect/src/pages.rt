//! Parts of lists.
ghost use Rattle.std.specs.Prelude.{◌≡◌, ◌<◌, length, take, drop, slice_get, IfOk};
ghost use Rattle.ss_store.specs.Store.{number_of, members_of};
ghost use Rattle.ss_store.specs.Tables.{set_of};
ghost use Rattle.ss_inspect.specs.Lists.{members_page};

use ss_debug::member_behind;
use ss_links::SetBoard;
use ss_machine::Machine;
use ss_store::Store;
use std::alloc::{AllocError, Global};

/// The first member of a list, none if it is empty.
fn first_member<S: SetBoard>(store: &Store<S>, set: usize, owner: i64) -> Option<u32>
    requires { set < length store.now.tables.sets }
    ensures { result ≡ slice_get (members_of (set_of store.now.tables set) store.now.state
        (number_of owner)) 0 }
{
    store.walk_first(set, owner).unwrap_or(None)
}

/// The member of a list after the first `start`, none if there are not more than `start`.
fn member_at<S: SetBoard>(store: &Store<S>, set: usize, owner: i64, start: usize) -> Option<u32>
    requires { set < length store.now.tables.sets }
    ensures { result ≡ slice_get (members_of (set_of store.now.tables set) store.now.state
        (number_of owner)) start }
{
    store.known();
    let mut member = first_member(store, set, owner)?;
    for place in 0..start {
        let _ = place;
        member = member_behind(store, set, owner, member)?;
    }
    Some(member)
}

/// `count` members of a list, after the first `start`.
fn page_in<S: SetBoard>(
    alloc: Global,
    store: &Store<S>,
    set: usize,
    owner: i64,
    start: usize,
    count: usize,
) -> Result<Vec<u32>, AllocError>
    requires { set < length store.now.tables.sets }
    ensures { IfOk result (λ page. page.items ≡ take count (drop start
        (members_of (set_of store.now.tables set) store.now.state (number_of owner)))) }
{
    store.known();
    let mut page = Vec::new(alloc);
    let mut next = member_at(store, set, owner, start);
    for taken in 0..count {
        let _ = taken;
        match next {
            None => return Ok(page),
            Some(member) => {
                page.push(member)?;
                next = member_behind(store, set, owner, member);
            }
        }
    }
    Ok(page)
}

/// A part of the list of a set for the owner with this number: `count` members after the first
/// `start`, fewer if the list ends before. It is empty if there is no such owner. Any number names
/// the system. The call walks through the list once, up to the last of these members.
///
/// `AllocError` if the memory for them was refused.
#[tactic(auto, using(ss_debug::proofs::Tables::sets_kept))]
pub fn members_page<S: SetBoard>(
    alloc: Global,
    machine: &Machine<S>,
    set: usize,
    owner: i64,
    start: usize,
    count: usize,
) -> Result<Vec<u32>, AllocError>
    requires { set < length machine.now.input.program.sets }
    ensures { IfOk result (λ page. page.items ≡ members_page machine.now.input.program
        machine.now.state.store set owner start count) }
{
    page_in(alloc, machine.store(), set, owner, start, count)
}
