//! The part of a run that values are read from, as one value that is cheap to hand on.
use ss_links::SetBoard;
use ss_store::Store;
use std::alloc::AllocError;

/// The sources of values: the store, the global variables, the locals of the last frame, and
/// the clock.
pub struct View<'a, S: SetBoard> {
    pub store: &'a Store<S>,
    pub variables: &'a [i64],
    pub locals: &'a [i64],
    pub clock: i64,
}

impl<S: SetBoard> Clone for View<'_, S> {
    fn clone(&self) -> Result<Self, AllocError> {
        Ok(*self)
    }
}

impl<S: SetBoard> Copy for View<'_, S> {}
