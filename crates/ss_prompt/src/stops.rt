//! Which movements go back, and of which all that they changed is shown.
ghost use Rattle.std.specs.Prelude.{◌≡◌};
ghost use Rattle.ss_prompt.specs.Left.{moves_whole};
ghost use Rattle.ss_prompt.specs.Stops.{goes_back, travels_back, is_whole, travels_whole};

use crate::commands::PromptCommand;
use ss_debug::{Command, Movement as PlainMovement};
use ss_trace::Movement;

/// Whether a movement of docs/DEBUGGER.md goes back.
pub(crate) fn goes_back(movement: PlainMovement) -> bool
    ensures { result ≡ goes_back movement }
{
    matches!(
        movement,
        PlainMovement::Back(_) | PlainMovement::BackEvent | PlainMovement::BackBreak
    )
}

/// Whether a movement that is none of docs/DEBUGGER.md goes back from a position.
pub(crate) fn travels_back(movement: &Movement, position: u64) -> bool
    ensures { result ≡ travels_back movement.now position }
{
    match movement {
        Movement::BackOver(_) | Movement::BackOut | Movement::BackTo(_) => true,
        Movement::BackChange(_) => true,
        Movement::Go(to) => *to < position,
        _ => false,
    }
}

/// Whether all that a movement of docs/DEBUGGER.md changed is shown at its stop.
pub(crate) fn is_whole(movement: PlainMovement) -> bool
    ensures { result ≡ is_whole movement }
{
    matches!(
        movement,
        PlainMovement::RunTo(_) | PlainMovement::Next | PlainMovement::BackEvent
    )
}

/// Whether all that a movement changed which is none of docs/DEBUGGER.md is shown at its stop.
pub(crate) fn travels_whole(movement: &Movement) -> bool
    ensures { result ≡ travels_whole movement.now }
{
    matches!(
        movement,
        Movement::Over(_)
            | Movement::Out
            | Movement::BackOver(_)
            | Movement::BackOut
            | Movement::BackTo(_)
    )
}

/// Whether a command is a movement of which all that it changed is shown.
pub(crate) fn moves_whole(command: &PromptCommand) -> bool
    ensures { result ≡ moves_whole command.now }
{
    match command {
        PromptCommand::Plain(Command::Move(movement)) => is_whole(*movement),
        PromptCommand::Travel(movement) => travels_whole(movement),
        _ => false,
    }
}
