//! The external classes of a program, and the data that name them.
ghost use Rattle.std.specs.Prelude.{◌≡◌, slice_get};
ghost use Rattle.ss_program.specs.Program as programs;
ghost use Rattle.ss_state.specs.Statements.Timing as steps;

use ss_data::Feed;
use ss_program::Program;

/// Whether the data may name some class of a program.
pub fn has_external(program: &Program) -> bool
    ensures { result ≡ programs.has_external program.now }
{
    program.classes.iter().any(|class| class.is_external())
}

/// The class that the next piece of the data names.
pub fn external_class(program: &Program, feed: &Feed) -> Option<usize>
    ensures { result ≡ steps.external_class program.now (slice_get feed.now.items feed.now.taken) }
{
    program.classes.iter().position(|class| class.is_external()
        && feed.names(class.name.bytes.as_slice()))
}
