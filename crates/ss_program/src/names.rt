//! The names that the language itself declares.
ghost use Rattle.std.specs.Prelude.{◌≡◌};
ghost use Rattle.ss_program.specs.Names as names;

/// Whether this is TIME.V, the name of the clock.
pub(crate) fn is_clock(name: &[u8]) -> bool
    ensures { result ≡ names.is_clock name.now }
{
    name == b"TIME.V".as_slice()
}
