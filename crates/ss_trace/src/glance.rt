//! The values that are read of a state at a glance. The definitions name the type, only for proofs.
ghost use Rattle.std.specs.Prelude.{◌≡◌};
ghost use Rattle.ss_trace.specs.Sight.{is_same_number, is_same_count, is_same_entry, is_same_glance};

use ss_state::Entry;

/// The values that are read of a state in place of the answer to a question.
#[derive(Clone, Copy)]
pub enum Glance {
    /// A number, or that there is none.
    Number(Option<i64>),
    /// How many items of the data are taken, or bytes the report has.
    Amount(usize),
    /// The entry of an external event.
    Entry(Entry),
    /// The number that names an owner, and how many members its list has, if it exists.
    Members(i64, Option<u32>),
}

fn is_same_number(x: Option<i64>, y: Option<i64>) -> bool
    ensures { result ≡ is_same_number x y }
{
    match (x, y) {
        (None, None) => true,
        (Some(x), Some(y)) => x == y,
        _ => false,
    }
}

fn is_same_count(n: Option<u32>, m: Option<u32>) -> bool
    ensures { result ≡ is_same_count n m }
{
    match (n, m) {
        (None, None) => true,
        (Some(n), Some(m)) => n == m,
        _ => false,
    }
}

fn is_same_entry(e: Entry, f: Entry) -> bool
    ensures { result ≡ is_same_entry e f }
{
    match (e, f) {
        (Entry::Absent, Entry::Absent) => true,
        (
            Entry::Waiting {
                class: c,
                notice: k,
            },
            Entry::Waiting {
                class: d,
                notice: j,
            },
        ) => c == d && k == j,
        (
            Entry::Running {
                class: c,
                notice: k,
            },
            Entry::Running {
                class: d,
                notice: j,
            },
        ) => c == d && k == j,
        _ => false,
    }
}

/// Whether two of them are the same.
pub fn is_same(a: Glance, b: Glance) -> bool
    ensures { result ≡ is_same_glance a b }
{
    match (a, b) {
        (Glance::Number(x), Glance::Number(y)) => is_same_number(x, y),
        (Glance::Amount(n), Glance::Amount(m)) => n == m,
        (Glance::Entry(e), Glance::Entry(f)) => is_same_entry(e, f),
        (Glance::Members(x, n), Glance::Members(y, m)) => x == y && is_same_count(n, m),
        _ => false,
    }
}
