//! The kinds of names, and the tests on kinds that the rules ask.

ghost use Rattle.std.specs.Prelude.{◌≡◌, option_map};
ghost use Rattle.ss_check.specs.KindView.{kind_view, need_view};
ghost use Rattle.ss_check.specs.NameKinds as kinds;

use crate::declared::class_need::ClassNeed;
use crate::declared::function::Function;
use ss_preamble::Heading;
use ss_program::Name;
use ss_words::{MemberKept, OwnerKept};

/// The kind as which a name is declared (docs/LANGUAGE.md, "Rules of the checker"). A local
/// variable is not declared.
#[derive(Drop)]
pub enum NameKind {
    /// A class, with the heading over it; none if an item `EVERY` has none over it.
    Class(Option<Heading>),
    /// An attribute of the class of this name.
    Attribute(Name),
    /// A variable of the preamble.
    Variable,
    /// `N.class` of a permanent class.
    ClassCount,
    Set,
    Routine,
    /// `TIME.V`
    Clock,
    /// `F.set`, `L.set` or `N.set` of the set of this name.
    OwnerKept { kept: OwnerKept, set: Name },
    /// `P.set`, `S.set` or `M.set` of the set of this name.
    MemberKept { kept: MemberKept, set: Name },
    Function(Function),
}

/// Whether a name may be declared as both, one after the other.
pub(crate) fn may_repeat(first: &NameKind, second: &NameKind) -> bool
    ensures { result ≡ kinds.may_repeat (kind_view first.now) (kind_view second.now) }
{
    match (first, second) {
        (NameKind::Class(one), NameKind::Class(other)) => one == other,
        (NameKind::Set, NameKind::Set)
        | (NameKind::ClassCount, NameKind::ClassCount)
        | (NameKind::OwnerKept { .. }, NameKind::OwnerKept { .. })
        | (NameKind::MemberKept { .. }, NameKind::MemberKept { .. }) => true,
        _ => false,
    }
}

/// Whether a name's kind, if it is declared, keeps it from being declared as this.
pub(crate) fn conflicts(first: Option<&NameKind>, second: &NameKind) -> bool
    ensures { result ≡ kinds.conflicts (option_map (λ k. kind_view k.now) first.entry)
        (kind_view second.now) }
{
    match first {
        Some(first) => !may_repeat(first, second),
        None => false,
    }
}

/// Whether it is an attribute of this class.
pub(crate) fn is_attribute_of(class: &[u8], kind: &NameKind) -> bool
    ensures { result ≡ kinds.is_attribute_of class.now (kind_view kind.now) }
{
    match kind {
        NameKind::Attribute(owner) => class == owner.bytes.as_slice(),
        _ => false,
    }
}

/// Whether it is the name of a set.
pub(crate) fn names_set(kind: Option<&NameKind>) -> bool
    ensures { result ≡ kinds.names_set (option_map (λ k. kind_view k.now) kind.entry) }
{
    matches!(kind, Some(NameKind::Set))
}

/// Whether it is the name of a routine.
pub(crate) fn names_routine(kind: Option<&NameKind>) -> bool
    ensures { result ≡ kinds.names_routine (option_map (λ k. kind_view k.now) kind.entry) }
{
    matches!(kind, Some(NameKind::Routine))
}

/// Whether it is the name of a function.
pub(crate) fn names_function(kind: Option<&NameKind>) -> bool
    ensures { result ≡ kinds.names_function (option_map (λ k. kind_view k.now) kind.entry) }
{
    matches!(kind, Some(NameKind::Function(_)))
}

/// Whether it is the name of a variable; a name that is not declared is.
pub(crate) fn names_variable(kind: Option<&NameKind>) -> bool
    ensures { result ≡ kinds.names_variable (option_map (λ k. kind_view k.now) kind.entry) }
{
    matches!(
        kind,
        None | Some(NameKind::Variable | NameKind::ClassCount | NameKind::Class(_))
    )
}

/// Whether a name of this kind has a value and is never assigned.
pub(crate) fn names_fixed(kind: Option<&NameKind>) -> bool
    ensures { result ≡ kinds.names_fixed (option_map (λ k. kind_view k.now) kind.entry) }
{
    matches!(
        kind,
        Some(
            NameKind::OwnerKept { .. }
                | NameKind::MemberKept { .. }
                | NameKind::Clock
                | NameKind::Function(_)
        )
    )
}

/// Whether it is the name of a class of the kind needed.
pub(crate) fn serves(need: ClassNeed, kind: Option<&NameKind>) -> bool
    ensures { result ≡ kinds.serves (need_view need)
        (option_map (λ k. kind_view k.now) kind.entry) }
{
    let Some(NameKind::Class(Some(heading))) = kind else {
        return false;
    };
    match need {
        ClassNeed::Permanent => *heading == Heading::PermanentEntities,
        ClassNeed::Ending => *heading != Heading::PermanentEntities,
        ClassNeed::Event => *heading == Heading::EventNotices,
    }
}
