//! What is wrong with a statement that breaks a rule of the checker.
ghost use Rattle.std.specs.Prelude.{◌≡◌, option_map, IfOk};
ghost use Rattle.ss_check.specs.Statements.{about as about_it};

use ss_words::Name;
use std::alloc::{AllocError, Global};

/// Why a statement breaks a rule (docs/LANGUAGE.md, "Rules of the checker").
#[derive(Clone, Copy, Debug, PartialEq, Eq)]
pub enum Reason {
    /// C1: the name is declared before as a thing that does not go with it.
    DeclaredTwice,
    /// C1: the discipline of the set is given before.
    DisciplinedTwice,
    /// C1: the ties of the event class are broken before.
    BrokenTwice,
    /// C1: the event class is named external before.
    ExternalTwice,
    /// C1: two parameters of the head have this name.
    ParameterTwice,
    /// C2: the name is not the class that is needed.
    WrongClass,
    /// C3: the name is used as another kind than its own.
    WrongUse,
    /// C4: the set has no owner.
    Ownerless,
    /// C4: the set has an owner before.
    OwnedTwice,
    /// C5: the set has no class of members.
    Memberless,
    /// C5: the set has a class of members before.
    JoinedTwice,
    /// C5: the set is to have the system as its member.
    JoinedBySystem,
    /// C6: the key is no attribute of the class that is ranked.
    WrongKey,
    /// C7: the name has another count of values than it takes.
    WrongCount,
    /// C8: the event class has no section.
    NoSection,
    /// C8 and C12: the name is no event class.
    NoEvent,
    /// C9: the name cannot be assigned.
    Fixed,
    /// C9: the name of a loop's variable is no variable.
    NoVariable,
    /// C10: the picture's fields are not as many as the values, or one has decimals.
    WrongPicture,
    /// C11: no section is MAIN.
    NoMain,
    /// C11: there is a MAIN before.
    SecondMain,
    /// C12: the event class is in the order of priority before.
    OrderedTwice,
    /// C12: there is an order of priority before.
    SecondPriority,
    /// C13: START SIMULATION outside MAIN.
    StartOutsideMain,
    /// C14: IF FOUND or IF NONE is not directly after a FIND.
    WithoutFind,
}

/// What is wrong with a statement that breaks a rule.
#[derive(Debug, Drop)]
pub struct Wrong {
    pub reason: Reason,
    /// The name that the reason is about, if it is about one.
    pub name: Option<Name>,
}

/// This reason, with a copy of the name that it is about.
pub(crate) fn about(alloc: Global, reason: Reason, name: Option<&[u8]>) -> Result<Wrong, AllocError>
    ensures { IfOk result
        (λ wrong. wrong ≡ about_it reason (option_map (λ n. n.now) name.entry)) }
{
    match name {
        Some(bytes) => {
            let copy = Vec::from_slice(alloc, bytes)?;
            let name = Some(Name::new(alloc, copy)?);
            Ok(Wrong { reason, name })
        }
        None => Ok(Wrong { reason, name: None }),
    }
}
