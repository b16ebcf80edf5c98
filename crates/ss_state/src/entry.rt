//! The state of the entry of the data that an external event comes from.
/// The entry of the data that makes an external event.
#[derive(Clone, Copy, PartialEq, Eq)]
pub enum Entry {
    /// There is none.
    Absent,
    /// Its notice, of this class, is pending.
    Waiting { class: usize, notice: u32 },
    /// The event of its notice, of this class, runs.
    Running { class: usize, notice: u32 },
}
