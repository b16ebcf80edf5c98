//! The sights of a state, next to the questions.
use crate::line::Line;
use ss_debug::Name;
use ss_inspect::Overview;

/// A sight of a state that SHOW gives, next to its answers to questions (docs/PROMPT.md).
#[derive(Drop)]
pub enum Sight {
    /// An overview, as SHOW CALLS.
    Overview(Overview),
    /// SHOW c: the entities of the class of this name.
    Living(Name),
    /// SHOW c v, SHOW c v a: the entity whose number this variable holds, or this attribute of it.
    ByVariable(Name, Name, Option<Name>),
    /// SHOW IN c k: the lists in which this entity is, and when it is to happen.
    Places(Name, i64),
    /// SHOW SET s a .., SHOW SET s k a ..: the attributes with the names in this line, of each member
    /// of the list of this set, for the owner with this number or the owner that the variable of its
    /// class names.
    MemberRows(Name, Option<i64>, Line),
    /// SHOW c a ..: the attributes with the names in this line, of each entity of this class.
    LivingRows(Name, Line),
}
