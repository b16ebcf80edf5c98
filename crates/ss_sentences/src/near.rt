//! Words that differ by a letter or two.
ghost use Rattle.std.specs.Prelude.{◌≡◌, drop, map, option_map, length};
ghost use Rattle.ss_sentences.specs.Near as spec;

/// The least lengths from which a word may differ from the one that is meant by one letter, and by
/// two. The definitions read these numbers too.
pub const ONE_DIFFERS: usize = 4;

pub const TWO_DIFFER: usize = 6;

/// The rests of two words after the letters at their front that are the same.
#[tactic(auto, unfolding(crate::specs::Near::behind_same))]
fn behind_same<'a>(mut a: &'a [u8], mut b: &'a [u8]) -> (&'a [u8], &'a [u8])
    ensures { (result.0.now, result.1.now) ≡ spec.behind_same a.entry.now b.entry.now }
{
    while let [x, behind @ ..] = a {
        let [y, rest @ ..] = b else {
            return (a, b);
        };
        if *x != *y {
            return (a, b);
        }
        a = behind;
        b = rest;
    }
    (a, b)
}

/// A word without its first letter.
fn behind_first(word: &[u8]) -> &[u8]
    ensures { result.now ≡ drop 1 word.now }
{
    &word[1.min(word.len())..]
}

/// Whether two words are the same but for their first two letters, which are exchanged.
fn begins_exchanged(a: &[u8], b: &[u8]) -> bool
    ensures { result ≡ spec.begins_exchanged a.now b.now }
{
    let [x, y, behind @ ..] = a else {
        return false;
    };
    let [p, q, rest @ ..] = b else {
        return false;
    };
    *x == *q && *y == *p && behind == rest
}

/// Whether two words are the same, or one letter is changed, left out or put in, or two neighbours
/// are exchanged.
#[tactic(auto, unfolding(crate::specs::Near::differ_by_one))]
fn differ_by_one(a: &[u8], b: &[u8]) -> bool
    ensures { result ≡ spec.differ_by_one a.now b.now }
{
    let (a, b) = behind_same(a, b);
    begins_exchanged(a, b)
        || behind_first(a) == behind_first(b)
        || a == behind_first(b)
        || behind_first(a) == b
}

/// Whether two words differ by at most two such changes.
#[tactic(auto, unfolding(crate::specs::Near::differ_by_two))]
fn differ_by_two(a: &[u8], b: &[u8]) -> bool
    ensures { result ≡ spec.differ_by_two a.now b.now }
{
    let (a, b) = behind_same(a, b);
    differ_by_one(behind_first(a), behind_first(b))
        || differ_by_one(a, behind_first(b))
        || differ_by_one(behind_first(a), b)
}

/// Whether a word is nearly another one.
fn is_near(meant: &[u8], word: &[u8]) -> bool
    ensures { result ≡ spec.is_near meant.now word.now }
{
    if meant.len() >= TWO_DIFFER {
        return differ_by_two(meant, word);
    }
    meant.len() >= ONE_DIFFERS && differ_by_one(meant, word)
}

/// The first word of a table that a word nearly is.
pub fn nearest(word: &[u8], mut table: &'static [&'static [u8]]) -> Option<&'static [u8]>
    ensures { option_map (λ row. row.now) result
        ≡ spec.nearest word.now (map (λ row. row.now) table.entry.now) }
{
    while let [row, rest @ ..] = table {
        if is_near(row, word) {
            return Some(*row);
        }
        table = rest;
    }
    None
}
