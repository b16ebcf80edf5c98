//! What WHY CAUSE and BACK CAUSE do.

/// What is done with what brought the last frame about.
#[derive(Clone, Copy, PartialEq, Eq, Debug)]
pub enum CauseCommand {
    /// WHY CAUSE: it is answered.
    Why,
    /// BACK CAUSE: the debugger goes there.
    Back,
}
