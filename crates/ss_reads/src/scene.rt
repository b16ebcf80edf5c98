//! The state in which a statement looks, perhaps with another value of one variable.
ghost use Rattle.std.specs.Prelude.{◌≡◌};
ghost use Rattle.ss_program.specs.ProgramSound.{IsSoundVariable};
ghost use Rattle.ss_values.specs.Values.{variable_value};
ghost use Rattle.ss_reads.specs.Same.{is_same_variable};
ghost use Rattle.ss_reads.specs.Scenes.{sources, is_given, InScene, IsSoundScene};
ghost use Rattle.ss_reads.specs.SceneView.{scene_of};

use ss_links::SetBoard;
use ss_machine::Machine;
use ss_program::Variable;
use std::alloc::AllocError;

/// A variable, and the value that it has in place of its own.
#[derive(Clone, Copy)]
pub struct Given {
    pub variable: Variable,
    pub value: i64,
}

/// A machine's state, perhaps with another value of one variable.
pub struct Scene<'a, S: SetBoard> {
    pub machine: &'a Machine<S>,
    pub given: Option<Given>,
}

impl<S: SetBoard> Clone for Scene<'_, S> {
    fn clone(&self) -> Result<Self, AllocError> {
        Ok(*self)
    }
}

impl<S: SetBoard> Copy for Scene<'_, S> {}

/// Whether two variables are the same.
pub fn is_same_variable(one: Variable, two: Variable) -> bool
    ensures { result ≡ is_same_variable one two }
{
    match (one, two) {
        (Variable::Global(i), Variable::Global(j)) => i == j,
        (Variable::Local(i), Variable::Local(j)) => i == j,
        (Variable::Clock, Variable::Clock) => true,
        _ => false,
    }
}

/// Whether a variable is the one that has another value.
pub fn is_given<S: SetBoard>(scene: &Scene<'_, S>, variable: Variable) -> bool
    ensures { result ≡ is_given scene.now.given variable }
{
    match scene.given {
        None => false,
        Some(given) => is_same_variable(given.variable, variable),
    }
}

/// The value of a variable.
#[tactic(auto, using(crate::proofs::Scenes::values))]
pub fn variable_value<S: SetBoard>(scene: &Scene<'_, S>, variable: Variable) -> i64
    requires scene { IsSoundScene (scene_of scene.now) }
    requires sound { InScene (scene_of scene.now) IsSoundVariable variable }
    ensures { result ≡ variable_value (sources (scene_of scene.now)) variable }
{
    scene.machine.known();
    match scene.given {
        None => scene.machine.variable(variable),
        Some(given) => {
            if is_same_variable(given.variable, variable) {
                given.value
            } else {
                scene.machine.variable(variable)
            }
        }
    }
}
