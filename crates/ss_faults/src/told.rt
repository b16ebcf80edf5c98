//! The finding about a part of a statement, and about parts in order.
ghost use Rattle.std.specs.Prelude.{◌≡◌};
ghost use Rattle.ss_faults.specs.Readings as spec;

/// The finding about a part of a statement in a state.
#[derive(Clone, Copy)]
pub enum Told {
    /// Its value.
    Value(i64),
    /// Each entity that it names is there; its value is not known.
    Untold,
    /// The first entity that it names and that is missing.
    Missing { class: usize, number: i64 },
    /// Nothing is known: neither its value, nor whether an entity that it names is missing.
    Unclear,
}

impl Told {
    /// The finding about this part after others.
    pub fn behind(self) -> Told
        ensures { result ≡ spec.behind self }
    {
        match self {
            Told::Value(_) => Told::Untold,
            other => other,
        }
    }

    /// The finding about this part and the next one.
    pub fn and(self, next: Told) -> Told
        ensures { result ≡ spec.both self next }
    {
        match self {
            Told::Value(_) | Told::Untold => next.behind(),
            other => other,
        }
    }
}
