//! A notice that is scheduled.

/// A notice with its time, its class and its keys.
#[derive(Clone, Copy)]
pub struct Plain {
    pub notice: u32,
    pub time: i64,
    pub class: usize,
    pub keys: [i64; 2],
}

/// A notice of a class, with one key.
pub fn with_key(notice: u32, time: i64, class: usize, key: i64) -> Plain {
    Plain {
        notice,
        time,
        class,
        keys: [key, 0],
    }
}
