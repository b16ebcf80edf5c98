//! The rows that an agenda keeps for its notices.
/// The entry of a pending notice: the values that its order needs.
#[derive(Drop)]
pub struct PendingNotice {
    /// When it is due.
    pub time: i64,
    pub class: usize,
    /// The values of the class's keys, as they were when it was scheduled.
    pub keys: Vec<i64>,
    /// Its filing number, which no other scheduling has.
    pub filing: u64,
}

/// The row of a notice's number, whether or not the notice is pending.
#[derive(Drop)]
pub struct Row {
    /// The notice's seat, if it has one.
    pub seat: Option<u32>,
    /// The entry of the notice, if it is pending.
    pub pending: Option<PendingNotice>,
}
