//! The names that the language gives.
ghost use Rattle.std.specs.Prelude.{◌≡◌};
ghost use Rattle.ss_names.specs.Names as spec;

use ss_columns::is_among;

/// The clock. The definitions read these tables too.
pub const CLOCK: [&[u8]; 1] = [b"TIME.V"];

/// The functions of the language.
pub const FUNCTIONS: [&[u8]; 5] = [b"ABS.F", b"MAX.F", b"MIN.F", b"DIV.F", b"MOD.F"];

/// The beginnings of the names that are kept of a class or a set.
pub const COMPANIONS: [&[u8]; 6] = [b"N.", b"F.", b"L.", b"P.", b"S.", b"M."];

fn is_companion(name: &[u8]) -> bool
    ensures { result ≡ spec.is_companion name.now }
{
    match name {
        [first, second, ..] => is_among(&[*first, *second], &COMPANIONS),
        _ => false,
    }
}

/// Whether the language gives this name: the clock, a function, or a name that is kept of a class
/// or a set.
#[tactic(auto, unfolding(crate::specs::Names::is_of_language))]
pub fn is_of_language(name: &[u8]) -> bool
    ensures { result ≡ spec.is_of_language name.now }
{
    is_among(name, &CLOCK) || is_among(name, &FUNCTIONS) || is_companion(name)
}
