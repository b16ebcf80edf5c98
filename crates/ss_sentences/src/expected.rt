//! The list of the candidates that could be at a place, as it is printed.
ghost use Rattle.std.specs.Prelude.{◌≡◌, ◌++◌, true, OnOk};
ghost use Rattle.ss_sentences.specs.declared.expected.TheConstants.{FIRST_ROOM};
ghost use Rattle.ss_sentences.specs.Expected as spec;

use crate::candidate::Judgement;
use std::alloc::AllocError;

/// The text before the list of the candidates at a place. The definitions read these texts too.
pub const EXPECTED: &[u8] = b"Expected:";
/// The number of bytes that have room after that, with a comma.
pub const FIRST_ROOM: usize = 110;
/// The number of bytes that have room on each further line, with a comma.
pub const FURTHER_ROOM: usize = 117;

fn separator(is_first: bool) -> &'static [u8]
    ensures { result.now ≡ spec.separator is_first }
{
    if is_first { b" " } else { b", " }
}

/// Appends those of the candidates that fit, parted by commas, on lines of at most 120 bytes.
#[tactic(auto, unfolding(crate::specs::Expected::expected_text))]
pub fn push_expected(text: &mut Vec<u8>, judged: &[Judgement]) -> Result<(), AllocError>
    ensures { OnOk result (text.new.items ≡ text.old.items ++ spec.expected_text judged.now) }
{
    text.extend_from_slice(EXPECTED)?;
    push_listed(text, judged)
}

fn push_listed(text: &mut Vec<u8>, judged: &[Judgement]) -> Result<(), AllocError>
    ensures { OnOk result (text.new.items
        ≡ text.old.items ++ spec.fitting_list true FIRST_ROOM judged.now) }
{
    let mut is_first = true;
    let mut room = FIRST_ROOM;
    let mut rest = judged;
    while let [judgement, behind @ ..] = rest {
        if judgement.fits {
            let told = judgement.told;
            if room.saturating_sub(told.len()) < 2 {
                text.extend_from_slice(b",\n  ")?;
                room = FURTHER_ROOM.saturating_sub(told.len());
            } else {
                text.extend_from_slice(separator(is_first))?;
                room = room.saturating_sub(told.len()).saturating_sub(2);
            }
            text.extend_from_slice(told)?;
            is_first = false;
        }
        rest = behind;
    }
    text.extend_from_slice(b"\n")
}

/// Whether a candidate that is printed so fits.
pub fn fits(mut judged: &[Judgement], told: &[u8]) -> bool
    ensures { result ≡ spec.fits judged.entry.now told.now }
{
    while let [judgement, rest @ ..] = judged {
        if judgement.fits && judgement.told == told {
            return true;
        }
        judged = rest;
    }
    false
}
