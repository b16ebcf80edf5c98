//! The parts of a state that are compared from step to step.

/// A part of a state that a step may change. Frames and places are none of them.
#[derive(Clone, Copy)]
pub enum Part {
    /// The global variable with this number.
    Global {
        number: usize,
    },
    /// The local with this number of the frame with `below` frames below it.
    Local {
        below: usize,
        number: usize,
    },
    /// An attribute of an entity of a class.
    Attribute {
        class: usize,
        entity: u32,
        attribute: usize,
    },
    /// An entity of a class itself.
    Entity {
        class: usize,
        entity: u32,
    },
    /// The list of a set for an owner, 0 for the system.
    List {
        set: usize,
        owner: u32,
    },
    /// A notice of a class: when it is due.
    Notice {
        class: usize,
        notice: u32,
    },
    /// How many values of the data are taken.
    Taken,
    /// The entry of an external event.
    Entry,
    /// The clock.
    Clock,
    /// The report.
    Report,
}
