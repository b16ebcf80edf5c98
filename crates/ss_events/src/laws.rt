//! Laws on the definitions. Each function does nothing, and its contract says the law.
ghost use Rattle.ss_events.specs.Laws.{LastNumberIsGiven, NoneBehindTheLast, FilingNumbersEnd};

/// The filing number 2^40 is given, if nothing else forbids the scheduling.
pub fn last_filing_number_is_given()
    ensures { LastNumberIsGiven }
{}

/// No filing number is given after 2^40: the scheduling is refused with F20.
pub fn no_filing_number_behind_the_last()
    ensures { NoneBehindTheLast }
{}

/// The filing numbers of pending notices are at most 2^40.
pub fn filing_numbers_end()
    ensures { FilingNumbersEnd }
{}
