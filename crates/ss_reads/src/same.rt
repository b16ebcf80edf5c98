//! Whether two things that a statement looks at are the same.
ghost use Rattle.std.specs.Prelude.{◌≡◌};
ghost use Rattle.ss_reads.specs.Same as spec;

use crate::part::{Item, Part};
use crate::read::Read;
use crate::scene::is_same_variable;
use ss_program::{MemberKept, OwnerKept};

fn is_same_owner_kept(one: OwnerKept, two: OwnerKept) -> bool
    ensures { result ≡ spec.is_same_owner_kept one two }
{
    match (one, two) {
        (OwnerKept::First, OwnerKept::First) => true,
        (OwnerKept::Last, OwnerKept::Last) => true,
        (OwnerKept::Count, OwnerKept::Count) => true,
        _ => false,
    }
}

fn is_same_member_kept(one: MemberKept, two: MemberKept) -> bool
    ensures { result ≡ spec.is_same_member_kept one two }
{
    match (one, two) {
        (MemberKept::Predecessor, MemberKept::Predecessor) => true,
        (MemberKept::Successor, MemberKept::Successor) => true,
        (MemberKept::Membership, MemberKept::Membership) => true,
        _ => false,
    }
}

fn is_same_item(one: Item, two: Item) -> bool
    ensures { result ≡ spec.is_same_item one two }
{
    match (one, two) {
        (
            Item::Attribute { class, attribute },
            Item::Attribute {
                class: other,
                attribute: another,
            },
        ) => class == other && attribute == another,
        (
            Item::OwnerKept { kept, set },
            Item::OwnerKept {
                kept: other,
                set: another,
            },
        ) => is_same_owner_kept(kept, other) && set == another,
        (
            Item::MemberKept { kept, set },
            Item::MemberKept {
                kept: other,
                set: another,
            },
        ) => is_same_member_kept(kept, other) && set == another,
        (Item::Members { set }, Item::Members { set: another }) => set == another,
        _ => false,
    }
}

fn is_same_part(one: Part, two: Part) -> bool
    ensures { result ≡ spec.is_same_part one two }
{
    match (one, two) {
        (Part::Variable(x), Part::Variable(y)) => is_same_variable(x, y),
        (Part::Of(item, x), Part::Of(other, y)) => is_same_item(item, other) && x == y,
        _ => false,
    }
}

fn is_same_read(one: &Read, two: &Read) -> bool
    ensures { result ≡ spec.is_same_read one.now two.now }
{
    match (one, two) {
        (Read::Part(p), Read::Part(q)) => is_same_part(*p, *q),
        (Read::Unvalued(s), Read::Unvalued(t)) => s.text.as_slice() == t.text.as_slice(),
        _ => false,
    }
}

/// Whether one of some is this one.
pub fn is_among(reads: &[Read], read: &Read) -> bool
    ensures { result ≡ spec.is_among reads.now read.now }
{
    reads.iter().any(|other| is_same_read(read, other))
}
