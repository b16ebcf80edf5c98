//! Changes of a board, and the lists that each leaves.
use ss_links::Place;

/// One change of a board. If it takes a seat off, it has the place that is to come back.
#[derive(Clone, Copy)]
pub enum Step {
    AddHead,
    AddSeat,
    TakeLastHead,
    TakeLastSeat,
    LinkFirst { head: u32, seat: u32 },
    LinkLast { head: u32, seat: u32 },
    LinkBefore { seat: u32, at: u32 },
    LinkAfter { seat: u32, at: u32 },
    Unlink { seat: u32, from: Place },
    Relink { seat: u32, to: Place },
    /// Taken off and put back.
    Return { seat: u32 },
    /// Put at a place and taken off.
    Visit { seat: u32, at: Place },
}

/// The lists that a board is to have, and its count of seats. Each list is the digits of its seats
/// and a semicolon; blanks are after the lists.
pub type Lists = ([u8; 8], u32);

/// Each change, with the lists and the count of seats that it leaves.
pub const STEPS: [(Step, Lists); 44] = [
    (Step::AddHead, (*b";       ", 0)),
    (Step::AddHead, (*b";;      ", 0)),
    (Step::AddSeat, (*b";;      ", 1)),
    (Step::AddSeat, (*b";;      ", 2)),
    (Step::AddSeat, (*b";;      ", 3)),
    (Step::AddSeat, (*b";;      ", 4)),
    (Step::AddSeat, (*b";;      ", 5)),
    // An only member, by each way in, and out again.
    (Step::LinkLast { head: 1, seat: 2 }, (*b";2;     ", 5)),
    (Step::Return { seat: 2 }, (*b";2;     ", 5)),
    (
        Step::Unlink {
            seat: 2,
            from: Place {
                head: 1,
                before: None,
            },
        },
        (*b";;      ", 5),
    ),
    (Step::LinkFirst { head: 0, seat: 2 }, (*b"2;;     ", 5)),
    (
        Step::Unlink {
            seat: 2,
            from: Place {
                head: 0,
                before: None,
            },
        },
        (*b";;      ", 5),
    ),
    (
        Step::Relink {
            seat: 2,
            to: Place {
                head: 1,
                before: None,
            },
        },
        (*b";2;     ", 5),
    ),
    (
        Step::Visit {
            seat: 4,
            at: Place {
                head: 0,
                before: None,
            },
        },
        (*b";2;     ", 5),
    ),
    // The four links, in two lists at once.
    (Step::LinkFirst { head: 1, seat: 0 }, (*b";02;    ", 5)),
    (Step::LinkLast { head: 0, seat: 3 }, (*b"3;02;   ", 5)),
    (Step::LinkAfter { seat: 4, at: 0 }, (*b"3;042;  ", 5)),
    (Step::LinkBefore { seat: 1, at: 3 }, (*b"13;042; ", 5)),
    (Step::AddSeat, (*b"13;042; ", 6)),
    (Step::LinkAfter { seat: 5, at: 2 }, (*b"13;0425;", 6)),
    // Off and back at each place: first, in the middle, last.
    (Step::Return { seat: 0 }, (*b"13;0425;", 6)),
    (Step::Return { seat: 4 }, (*b"13;0425;", 6)),
    (Step::Return { seat: 5 }, (*b"13;0425;", 6)),
    (Step::Return { seat: 3 }, (*b"13;0425;", 6)),
    (
        Step::Unlink {
            seat: 5,
            from: Place {
                head: 1,
                before: Some(2),
            },
        },
        (*b"13;042; ", 6),
    ),
    (
        Step::Unlink {
            seat: 4,
            from: Place {
                head: 1,
                before: Some(0),
            },
        },
        (*b"13;02;  ", 6),
    ),
    (
        Step::Unlink {
            seat: 0,
            from: Place {
                head: 1,
                before: None,
            },
        },
        (*b"13;2;   ", 6),
    ),
    (Step::LinkBefore { seat: 4, at: 2 }, (*b"13;42;  ", 6)),
    (Step::LinkBefore { seat: 5, at: 2 }, (*b"13;452; ", 6)),
    (
        Step::Visit {
            seat: 0,
            at: Place {
                head: 0,
                before: Some(1),
            },
        },
        (*b"13;452; ", 6),
    ),
    (
        Step::Visit {
            seat: 0,
            at: Place {
                head: 0,
                before: Some(3),
            },
        },
        (*b"13;452; ", 6),
    ),
    (
        Step::Visit {
            seat: 0,
            at: Place {
                head: 1,
                before: None,
            },
        },
        (*b"13;452; ", 6),
    ),
    (
        Step::Relink {
            seat: 0,
            to: Place {
                head: 1,
                before: Some(5),
            },
        },
        (*b"13;4502;", 6),
    ),
    (
        Step::Unlink {
            seat: 2,
            from: Place {
                head: 1,
                before: Some(0),
            },
        },
        (*b"13;450; ", 6),
    ),
    (
        Step::Relink {
            seat: 2,
            to: Place {
                head: 0,
                before: Some(3),
            },
        },
        (*b"132;450;", 6),
    ),
    // Heads and seats taken off, last first, and made again.
    (
        Step::Unlink {
            seat: 5,
            from: Place {
                head: 1,
                before: Some(4),
            },
        },
        (*b"132;40; ", 6),
    ),
    (Step::TakeLastSeat, (*b"132;40; ", 5)),
    (
        Step::Unlink {
            seat: 4,
            from: Place {
                head: 1,
                before: None,
            },
        },
        (*b"132;0;  ", 5),
    ),
    (
        Step::Unlink {
            seat: 0,
            from: Place {
                head: 1,
                before: None,
            },
        },
        (*b"132;;   ", 5),
    ),
    (Step::TakeLastHead, (*b"132;    ", 5)),
    (Step::TakeLastSeat, (*b"132;    ", 4)),
    (Step::AddHead, (*b"132;;   ", 4)),
    (Step::AddSeat, (*b"132;;   ", 5)),
    (Step::LinkLast { head: 1, seat: 4 }, (*b"132;4;  ", 5)),
];
