//! The meter of a run, which somebody at a terminal sees.
use ss_run::Progress;

/// Says on standard error how far a run is, if somebody looks at it.
#[derive(Drop)]
pub struct Meter<'a, R: Eprint> {
    rt: &'a R,
    is_seen: bool,
}

impl<'a, R: Eprint> Meter<'a, R> {
    /// A meter that prints if `is_seen`.
    pub fn new(rt: &'a R, is_seen: bool) -> Self {
        Meter { rt, is_seen }
    }
}

impl<R: Eprint> Progress for Meter<'_, R> {
    fn reached(&mut self, position: u64, clock: i64) {
        if self.is_seen {
            let _ = eprintln!(self.rt; "STATE {position} CLOCK {clock}");
        }
    }
}
