//! The questions of RUN CHANGE, BACK CHANGE, WHY and HISTORY.
use ss_debug::{Name, Question as Shown};

/// A question whose answer may change from one state to the next. RUN CHANGE, BACK CHANGE, WHY and
/// HISTORY take one.
#[derive(Drop)]
pub enum Question {
    /// One of the debugger's.
    Shown(Shown),
    /// `c k a`: the attribute of this name, kept ones too, of the entity of this class with this
    /// number.
    Attribute(Name, i64, Name),
    /// `COUNT s [k]`: how many members the list of this set has, for the owner with this number or
    /// the owner that the variable of its class names.
    Count(Name, Option<i64>),
}
