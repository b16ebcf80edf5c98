//! How many values a list has.
ghost use Rattle.std.specs.Prelude.{◌≡◌, map};
ghost use Rattle.ss_words.specs.Plain.{plain_at};
ghost use Rattle.ss_names.specs.Values as spec;

use crate::here::depth_behind;
use ss_words::{Mark, PlainWord, Sign};

/// Values are counted up to this number. The definitions read it too.
pub const MOST_COUNTED: usize = 1000;

fn one_more(count: usize) -> usize
    ensures { result ≡ spec.one_more count }
{
    if count < MOST_COUNTED {
        count + 1
    } else {
        count
    }
}

fn depth_at(depth: u32, mark: Option<Mark>) -> u32
    ensures { result ≡ spec.depth_at depth mark }
{
    match mark {
        Some(Mark::Sign(sign)) => depth_behind(depth, sign),
        _ => depth,
    }
}

fn is_comma(mark: Option<Mark>) -> bool
    ensures { result ≡ spec.is_comma mark }
{
    matches!(mark, Some(Mark::Sign(Sign::Comma)))
}

/// How many values are in a list, up to the next reserved word.
#[tactic(auto, unfolding(crate::specs::Values::list_count))]
pub fn list_count(words: &[PlainWord<'_>]) -> usize
    ensures { result ≡ spec.list_count 0 1 (map plain_at words.now) }
{
    let mut depth: u32 = 0;
    let mut count: usize = 1;
    let mut rest = words;
    while let [word, behind @ ..] = rest {
        let mark = word.kind().mark();
        if is_reserved(mark) {
            return count;
        }
        if is_comma(mark) && depth == 0 {
            count = one_more(count);
        }
        depth = depth_at(depth, mark);
        rest = behind;
    }
    count
}

fn is_reserved(mark: Option<Mark>) -> bool
    ensures { result ≡ spec.is_reserved mark }
{
    matches!(mark, Some(Mark::Reserved(_)))
}
