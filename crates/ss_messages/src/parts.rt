//! The parts of a request.
use std::alloc::{AllocError, Global};
use std::marker::Model;

/// A text of a request.
#[derive(Drop)]
pub struct Text {
    bytes: Vec<u8>,
}

impl Model for Text {
    ghost use Rattle.std.specs.Prelude.{List, ℕ};

    ghost Value = { List ℕ };

    ghost view = { λ t. t.bytes.items };
}

impl Text {
    ghost use Rattle.std.specs.Prelude.{◌≡◌, IfOk};

    /// A text of these bytes.
    pub fn of(alloc: Global, bytes: &[u8]) -> Result<Text, AllocError>
        ensures { IfOk result (λ text. text ≡ bytes.now) }
    {
        let bytes = bytes.to_vec(alloc)?;
        Ok(Text { bytes })
    }

    /// Its bytes.
    pub fn as_slice(&self) -> &[u8]
        ensures { result.now ≡ self.now }
    {
        &self.bytes
    }
}

/// A break point on a line of a source.
#[derive(Drop)]
pub struct LinePoint {
    /// The line, as the editor counts.
    pub line: u64,
    /// The condition on which alone it stops; empty if it has none.
    pub condition: Text,
    /// Whether it has no count of hits, and no message in place of a stop.
    pub is_simple: bool,
}

/// Break points on lines of a source, in the order in which a request names them.
#[derive(Drop)]
pub struct LinePoints {
    points: Vec<LinePoint>,
}

impl Model for LinePoints {
    ghost use Rattle.std.specs.Prelude.{List};
    ghost use Rattle.ss_messages.specs.declared.parts.LinePoint.{LinePoint};

    ghost Value = { List LinePoint };

    ghost view = { λ l. l.points.items };
}

impl LinePoints {
    ghost use Rattle.std.specs.Prelude.{◌≡◌};

    /// These break points.
    pub fn of(points: Vec<LinePoint>) -> LinePoints
        ensures { result ≡ points.items }
    {
        LinePoints { points }
    }

    /// Them in order.
    pub fn as_slice(&self) -> &[LinePoint]
        ensures { result.now ≡ self.now }
    {
        &self.points
    }
}

/// Texts of break points, in the order in which a request names them; `None` for one that would not
/// stop each time.
#[derive(Drop)]
pub struct Texts {
    texts: Vec<Option<Text>>,
}

impl Model for Texts {
    ghost use Rattle.std.specs.Prelude.{List, Option, ℕ};

    ghost Value = { List (Option (List ℕ)) };

    ghost view = { λ t. t.texts.items };
}

impl Texts {
    ghost use Rattle.std.specs.Prelude.{◌≡◌};

    /// These texts.
    pub fn of(texts: Vec<Option<Text>>) -> Texts
        ensures { result ≡ texts.items }
    {
        Texts { texts }
    }

    /// Them in order.
    pub fn as_slice(&self) -> &[Option<Text>]
        ensures { result.now ≡ self.now }
    {
        &self.texts
    }
}
