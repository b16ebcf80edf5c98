//! Whether a session goes on after a command.
/// Whether a session goes on.
#[derive(Clone, Copy, Debug, PartialEq, Eq)]
pub enum Go {
    /// The next line is obeyed.
    On,
    /// The lines after the command are not obeyed.
    Quit,
}
