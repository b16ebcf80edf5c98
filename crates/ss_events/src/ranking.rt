//! The comparison of two pending notices, and the search for a notice's place.
ghost use Rattle.std.specs.Prelude.{◌≡◌, ◌-◌, ◌<◌, ◌≤◌, IfOk, length, map, slice_index, unwrap_or};
ghost use Rattle.std.specs.Ordering.{is_lt, ordering_then};
ghost use Rattle.std.specs.declared.cmp.Ordering.{Ordering};
ghost use Rattle.std.specs.Option.{option_map, ForSome};
ghost use Rattle.ss_events.specs.State.{AreRanked};
ghost use Rattle.ss_events.specs.Agenda.{is_before};
ghost use Rattle.ss_program.specs.Keys.{by_keys};
ghost use Rattle.ss_events.specs.Views.{rule_of, notice_of};
ghost use Rattle.ss_events.specs.Rows.{row_at, IsEntry, IsGrown};

use crate::pending_notice::{PendingNotice, Row};
use crate::rule::ClassRule;
use ss_index::Order;
use ss_program::{Key, Rank};
use std::alloc::AllocError;

/// The entry of a notice, if it is pending.
pub(crate) fn entry_of(rows: &[Row], notice: u32) -> Option<&PendingNotice>
    requires { 0 < notice }
    ensures { option_map (λ entry. entry.now) result ≡ (row_at rows.now (notice - 1)).pending }
{
    match rows.get(notice as usize - 1) {
        None => None,
        Some(row) => row.pending.as_ref(),
    }
}

/// The notice of a seat, if there is a seat.
pub(crate) fn notice_if(notices: &[u32], seat: Option<u32>) -> Option<u32>
    requires { ForSome seat (λ x. x < length notices.now) }
    ensures { result ≡ option_map (λ x. slice_index notices.now x) seat }
{
    match seat {
        None => None,
        Some(seat) => Some(notices[seat as usize]),
    }
}

/// Makes rows, without seats and entries, up to a count.
pub(crate) fn grow(rows: &mut Vec<Row>, count: usize) -> Result<(), AllocError>
    ensures grown { IsGrown rows.old.items rows.new.items count }
    ensures ok { IfOk result (λ _. count ≤ length rows.new.items) }
{
    while rows.len() < count {
        rows.push(Row {
            seat: None,
            pending: None,
        })?;
    }
    Ok(())
}

/// Whether the keys of one entry come before those of another, or none if they are the same.
fn keys_decide(ties: &[Key], a: &[i64], b: &[i64]) -> Option<bool>
    requires a { length a.now ≡ length ties.now }
    requires b { length b.now ≡ length ties.now }
    ensures { (then : Ordering) →
        is_lt (ordering_then (by_keys ties.now a.now b.now) then) ≡ unwrap_or result (is_lt then) }
{
    for i in 0..ties.len() {
        let (x, y) = match ties[i].rank {
            Rank::High => (b[i], a[i]),
            Rank::Low => (a[i], b[i]),
        };
        if x < y {
            return Some(true);
        }
        if y < x {
            return Some(false);
        }
    }
    None
}

/// Whether the notice of one entry comes before that of another.
pub(crate) fn is_before(rules: &[ClassRule], a: &PendingNotice, b: &PendingNotice) -> bool
    requires a { IsEntry (map rule_of rules.now) a.now }
    requires b { IsEntry (map rule_of rules.now) b.now }
    requires ranked { AreRanked (map rule_of rules.now) }
    ensures { result ≡ is_before (map rule_of rules.now) (notice_of 0 a.now) (notice_of 0 b.now) }
{
    if a.time != b.time {
        return a.time < b.time;
    }
    if a.class != b.class {
        return rules[a.class].priority < rules[b.class].priority;
    }
    match keys_decide(&rules[a.class].ties, &a.keys, &b.keys) {
        Some(first) => first,
        None => a.filing < b.filing,
    }
}

/// The place of an entry among the pending notices of its class, as a place to search for in
/// their index: in front of all that it comes before.
#[derive(Clone, Copy)]
pub(crate) struct EntryRank<'a> {
    pub(crate) rules: &'a [ClassRule],
    pub(crate) rows: &'a [Row],
    pub(crate) notices: &'a [u32],
    pub(crate) times: &'a [i64],
    pub(crate) entry: &'a PendingNotice,
}

impl Order for EntryRank<'_> {
    ghost use Rattle.std.specs.Prelude.{map};
    ghost use Rattle.ss_events.specs.Views.{rule_of, notice_of};
    ghost use Rattle.ss_events.specs.Rows.{notices_from, AreDue};
    ghost use Rattle.ss_events.specs.Indexes.{IsComparable, comes_before};

    ghost knows = { λ p seat.
        IsComparable (map rule_of p.rules.now) (notices_from 1 p.rows.now) p.notices.now
        (notice_of 0 p.entry.now) seat × AreDue p.times.now p.notices.now p.rows.now };

    ghost behind = { λ p seat.
        comes_before (map rule_of p.rules.now) (notices_from 1 p.rows.now) p.notices.now
        (notice_of 0 p.entry.now) seat };

    fn is_behind(&self, seat: u32) -> bool {
        // The time decides most often, and is near: rows are far apart.
        let time = self.times[seat as usize];
        if self.entry.time != time {
            return self.entry.time < time;
        }
        let other = entry_of(self.rows, self.notices[seat as usize]).unwrap();
        is_before(self.rules, self.entry, other)
    }
}
