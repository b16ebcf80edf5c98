//! Kept attributes.
ghost use Rattle.std.specs.Prelude.{◌≡◌, ◌++◌, ◌<◌, length, OnOk};
ghost use Rattle.ss_store.specs.Tables.{set_of};
ghost use Rattle.ss_store.specs.Store.{number_of};
ghost use Rattle.ss_debug.specs.Entities.{member_read};
ghost use Rattle.ss_scopes.specs.Kept.{kept_item, owner_items, member_items};

use itoa::Buffer;
use ss_links::SetBoard;
use ss_messages::variable_item;
use ss_store::Store;
use ss_words::RunFault;
use std::alloc::AllocError;

/// Appends a kept attribute: the letter and period before the set's name, that name, and its value.
fn push_kept(
    out: &mut Vec<u8>,
    kept: &'static [u8],
    set: &[u8],
    value: u32,
) -> Result<(), AllocError>
    ensures { OnOk result (out.new.items
        ≡ out.old.items ++ kept_item kept.now set.now value) }
{
    let alloc = *out.allocator();
    let mut buffer = Buffer::new();
    let mut name = Vec::from_slice(alloc, kept)?;
    name.extend_from_slice(set)?;
    let item = variable_item(alloc, &name, buffer.format(value).as_bytes(), 0)?;
    out.extend_from_slice(&item)
}

/// The number of a member; 0 means none.
fn member_number(member: Result<Option<u32>, RunFault>) -> u32
    ensures { result ≡ member_read member }
{
    member.unwrap_or(None).unwrap_or(0)
}

/// Appends `F.s`, `L.s` and `N.s` of a set of this name for one of its owners.
pub fn push_owner_items<S: SetBoard>(
    out: &mut Vec<u8>,
    store: &Store<S>,
    name: &[u8],
    set: usize,
    owner: i64,
) -> Result<(), AllocError>
    requires { set < length store.now.tables.sets }
    ensures { OnOk result (out.new.items ≡ out.old.items
        ++ owner_items name.now (set_of store.now.tables set) store.now.state
        (number_of owner)) }
{
    let first = member_number(store.walk_first(set, owner));
    push_kept(out, b"F.", name, first)?;
    let last = member_number(store.walk_last(set, owner));
    push_kept(out, b"L.", name, last)?;
    push_kept(out, b"N.", name, store.count(set, owner).unwrap_or(0))
}

/// Appends `P.s`, `S.s` and `M.s` of a set of this name for an entity of its members' class.
pub fn push_member_items<S: SetBoard>(
    out: &mut Vec<u8>,
    store: &Store<S>,
    name: &[u8],
    set: usize,
    member: i64,
) -> Result<(), AllocError>
    requires { set < length store.now.tables.sets }
    ensures { OnOk result (out.new.items ≡ out.old.items
        ++ member_items name.now (set_of store.now.tables set) store.now.state
        (number_of member)) }
{
    let before = member_number(store.predecessor(set, member));
    push_kept(out, b"P.", name, before)?;
    let behind = member_number(store.successor(set, member));
    push_kept(out, b"S.", name, behind)?;
    let is_member = store.membership(set, member).unwrap_or(false);
    push_kept(out, b"M.", name, u32::from(is_member))
}
