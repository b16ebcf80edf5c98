//! The values of a change as unsigned numbers of 64 bits, and back, for the journal.

ghost use Rattle.std.specs.Prelude.{◌≡◌};
ghost use Rattle.ss_machine.specs.History.{signed_number, narrow_number, is_set, owner_of};

use ss_program::Owner;

/// A number with sign as one without: 0, -1, 1, -2, 2 as 0, 1, 2, 3, 4, so that small ones stay
/// small.
#[inline(always)]
pub fn fold(number: i64) -> u64
    ensures { signed_number result ≡ number }
{
    if number < 0 {
        2 * (-(number + 1)) as u64 + 1
    } else {
        2 * number as u64
    }
}

/// The number with sign that was folded into this one.
pub fn unfold(number: u64) -> i64
    ensures { result ≡ signed_number number }
{
    let half = (number / 2) as i64;
    if number % 2 == 0 { half } else { -half - 1 }
}

/// A number of 32 bits in 64.
pub fn widen(number: u32) -> u64
    ensures { narrow_number result ≡ number }
{
    u64::from(number)
}

/// The number of 32 bits in this one, of which no greater one is written.
pub fn narrow(number: u64) -> u32
    ensures { result ≡ narrow_number number }
{
    number.min(u64::from(u32::MAX)) as u32
}

/// A choice of two as 0 or 1.
pub fn flag(set: bool) -> u64
    ensures { is_set result ≡ set }
{
    if set { 1 } else { 0 }
}

/// An owner as two numbers: whether there is one, and its class.
pub fn owner_numbers(owner: Owner) -> (u64, u64)
    ensures { owner_of result.0 result.1 ≡ owner }
{
    match owner {
        Owner::System => (0, 0),
        Owner::OwnedBy(class) => (1, class as u64),
    }
}
