//! Rows of a program's tables by their names, and the line of a place.
ghost use Rattle.std.specs.Prelude.{◌≡◌, ◌<◌, length, IfSome};
ghost use Rattle.ss_program.specs.Program.{spot_at};
ghost use Rattle.ss_debug.specs.Entities.{class_named, set_named};
ghost use Rattle.ss_debug.specs.Move.{spot_line};

use ss_program::Program;

/// The class of this name.
#[tactic(auto, using(crate::proofs::Tables::class_within))]
pub fn find_class(program: &Program, name: &[u8]) -> Option<usize>
    ensures class { result ≡ class_named program.now name.now }
    ensures within { IfSome result (λ c. c < length program.now.classes) }
{
    let class = program.find(name)?.class?;
    Some(class as usize)
}

/// The set of this name.
#[tactic(auto, using(crate::proofs::Tables::set_within))]
pub fn find_set(program: &Program, name: &[u8]) -> Option<usize>
    ensures set { result ≡ set_named program.now name.now }
    ensures within { IfSome result (λ s. s < length program.now.sets) }
{
    let set = program.find(name)?.set?;
    Some(set as usize)
}

/// The line of a place, 0 if there is none.
pub fn place_line(program: &Program, section: usize, place: usize) -> usize
    ensures { result ≡ spot_line (spot_at program.now section place) }
{
    match program.spot_at(section, place) {
        None => 0,
        Some(spot) => spot.line,
    }
}
