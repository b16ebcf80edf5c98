//! Numbers that rise, in which one is found quickly.
ghost use Rattle.std.specs.Prelude.{◌≡◌, ℕ, IfOk};
ghost use Rattle.std.specs.List.Sorted.{IsNonDecreasing};
ghost use Rattle.ss_links.specs.Seats.{has};
ghost use Rattle.ss_changes.specs.Snapshots.{numbers_of};

use crate::part::Part;
use std::alloc::{AllocError, Global};

/// Whether a number is among some that rise.
#[tactic(auto, using(crate::proofs::Rising::found))]
pub fn has_number(numbers: &[u32], number: u32) -> bool
    requires { IsNonDecreasing numbers.now }
    ensures { result ≡ has numbers.now number }
{
    numbers.binary_search(&number).is_ok()
}

/// The numbers of the notices among some parts.
fn numbers_of(alloc: Global, parts: &[Part]) -> Result<Vec<u32>, AllocError>
    ensures { IfOk result (λ numbers. numbers.items ≡ numbers_of parts.now) }
{
    let mut numbers = Vec::new(alloc);
    for part in parts {
        if let Part::Notice { notice, .. } = part {
            numbers.push(*notice)?;
        }
    }
    Ok(numbers)
}

/// The same numbers, the least first.
#[tactic(auto, using(crate::proofs::Rising::has_sorted))]
pub fn rising_numbers(alloc: Global, parts: &[Part]) -> Result<Vec<u32>, AllocError>
    ensures rising { IfOk result (λ numbers. IsNonDecreasing numbers.items) }
    ensures same { IfOk result (λ numbers. (k : ℕ)
        → has numbers.items k ≡ has (numbers_of parts.now) k) }
{
    let mut numbers = numbers_of(alloc, parts)?;
    numbers.sort_unstable();
    Ok(numbers)
}
