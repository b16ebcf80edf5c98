//! Laws on the definitions. Each function does nothing, and its contract says the law.
ghost use Rattle.ss_index.specs.Laws.{FiledSeatLeaves, FiledSeatIsLinked, IncreasingListIsDivided};
ghost use Rattle.ss_index.specs.Laws.{FiledListIncreases, IncreasingListIsFiled};

/// A seat filed and taken out leaves the list as it was.
pub fn filed_seat_leaves()
    ensures { FiledSeatLeaves }
{}

/// A seat is filed directly after the last one passed, or first: `put` gives the seat after which a
/// board links it.
pub fn filed_seat_is_linked()
    ensures { FiledSeatIsLinked }
{}

/// A list that increases by an order is divided at the place of each seat.
pub fn increasing_list_is_divided()
    ensures { IncreasingListIsDivided }
{}

/// A list that increases does so with one more seat filed, and with one taken out.
pub fn filed_list_increases()
    ensures { FiledListIncreases }
{}

/// In a list that increases, each seat is at its place of filing among the others.
pub fn increasing_list_is_filed()
    ensures { IncreasingListIsFiled }
{}
