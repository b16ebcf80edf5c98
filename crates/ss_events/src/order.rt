//! The pending notices in order.
ghost use Rattle.std.specs.Prelude.{◌≡◌, ◌+◌, slice_get, is_some, if◌then◌else◌};
ghost use Rattle.std.specs.Option.{option_map};
ghost use Rattle.ss_events.specs.Agenda.{is_before, least};
ghost use Rattle.ss_events.specs.State.{order};
ghost use Rattle.ss_events.specs.Places.{IsTakenIfSome, earlier, pending_on};
ghost use Rattle.ss_events.specs.Listings.{IsListing};

use crate::agenda::Agenda;
use crate::listing::Listing;
use crate::ranking::is_before;
use ss_links::SetBoard;
use ss_words::limits::MOST_CLASSES;

impl<S: SetBoard> Agenda<S> {
    /// The seat of the earlier of perhaps one notice and perhaps another, given by their seats.
    fn earlier(&self, seat: Option<u32>, other: Option<u32>) -> Option<u32>
        requires seat { IsTakenIfSome self.now seat }
        requires other { IsTakenIfSome self.now other }
        ensures earlier { pending_on self.now result
            ≡ earlier (is_before self.now.rules) (pending_on self.now seat)
            (pending_on self.now other) }
        ensures taken { IsTakenIfSome self.now result }
    {
        let Some(one) = seat else {
            return other;
        };
        let Some(two) = other else {
            return seat;
        };
        if is_before(&self.rules, self.entry_on(two), self.entry_on(one)) {
            other
        } else {
            seat
        }
    }

    /// A listing of all pending notices in order, at its start.
    pub fn listing(&self) -> Listing
        ensures start { result.listed ≡ 0 }
        ensures listing { IsListing self.now result }
        ensures first { slice_get (order self.now) 0
            ≡ least self.now.rules self.now.agenda.pending }
    {
        let board = &self.board;
        let mut seats = [None; MOST_CLASSES];
        let mut head = 0;
        for class in 0..self.rules.len() {
            if self.rules[class].for_events {
                seats[class] = board.first(head);
                head += 1;
            }
        }
        Listing { seats, listed: 0 }
    }

    /// The seat of the notice that a listing lists next.
    fn listed_seat(&self, listing: &Listing) -> Option<u32>
        requires { IsListing self.now listing.now }
        ensures notice { pending_on self.now result
            ≡ slice_get (order self.now) listing.now.listed }
        ensures taken { IsTakenIfSome self.now result }
    {
        let mut least = None;
        for class in 0..self.rules.len() {
            least = self.earlier(least, listing.seats[class]);
        }
        least
    }

    /// The notice that a listing lists next, or none at its end. The listing then goes on after it.
    pub fn list_next(&self, listing: &mut Listing) -> Option<u32>
        requires { IsListing self.now listing.old }
        ensures notice { result
            ≡ option_map (λ e. e.notice) (slice_get (order self.now) listing.old.listed) }
        ensures count { listing.new.listed
            ≡ (if is_some result then listing.old.listed + 1 else listing.old.listed) }
        ensures listing { IsListing self.now listing.new }
    {
        let seat = self.listed_seat(listing)?;
        let class = self.entry_on(seat).class;
        listing.seats[class] = self.board.next(seat);
        listing.listed += 1;
        Some(self.notices[seat as usize])
    }

    /// The seat of the notice that is due before all others. Each class's first is compared, and no
    /// listing is begun.
    fn least_seat(&self) -> Option<u32>
        ensures notice { pending_on self.now result
            ≡ least self.now.rules self.now.agenda.pending }
        ensures taken { IsTakenIfSome self.now result }
    {
        let mut least = None;
        let mut list = 0;
        for class in 0..self.rules.len() {
            if self.rules[class].for_events {
                least = self.earlier(least, self.board.first(list));
                list += 1;
            }
        }
        least
    }

    /// The notice that is due before all others, or none if none is pending.
    pub fn next(&self) -> Option<u32>
        ensures { result
            ≡ option_map (λ e. e.notice) (least self.now.rules self.now.agenda.pending) }
    {
        let seat = self.least_seat()?;
        Some(self.notice(seat))
    }

    /// The notice with this number in the order of all pending ones, from 0.
    pub fn in_order(&self, index: usize) -> Option<u32>
        ensures { result ≡ option_map (λ e. e.notice) (slice_get (order self.now) index) }
    {
        let mut listing = self.listing();
        for _ in 0..index {
            self.list_next(&mut listing)?;
        }
        self.list_next(&mut listing)
    }
}
