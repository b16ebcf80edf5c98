//! The two journals on which a history is written: numbers, and parts kept as they are.

ghost use Rattle.std.specs.Prelude.{◌≡◌, ◌+◌, ◌<◌, ◌≤◌, ◌∷◌, ◌++◌, length};
ghost use Rattle.ss_machine.specs.History.{
  change_of,
  number_count,
  kept_count,
  changes_of,
  HasKept,
  IsWritten,
  IsNoted,
  IsHeaded,
};

use crate::history::kinds::ChangeKind;
use crate::history::numbers::Numbers;
use crate::state::change::Change;
use crate::state::frame::FrameBox;
use crate::state::locals::MOST_WITHIN;
use crate::state::loops::ClosedLoop;
use ss_byte_journal::SparseJournal;
use ss_state::Status;

/// A part of a change that is kept as it is, in addition to the numbers that give the rest: a part
/// that owns memory, or a status.
#[derive(Drop)]
pub enum Owned {
    /// The values of an entity that ended, or the keys of a notice that was taken off.
    Values(Vec<i64>),
    /// A loop that was closed.
    Loop(ClosedLoop),
    /// A frame that was dropped.
    Frame(FrameBox),
    /// The locals of a small frame that was dropped.
    Locals([i64; MOST_WITHIN]),
    /// A status.
    Status(Status),
}

/// The tape on which changes are written: numbers, and in addition the parts kept as they are.
///
/// A change is the number of its kind and, after it, the numbers of this kind. If it owns memory,
/// its kept part is in the same step of the kept parts.
#[derive(Drop)]
pub struct Tape {
    pub numbers: Numbers,
    pub kept: SparseJournal<Owned>,
}

impl Tape {
    /// Writes a change of a kind of which nothing is kept.
    #[inline(always)]
    pub fn write(&mut self, kind: ChangeKind, fields: &[u64])
        requires count { length fields.now ≡ number_count kind }
        requires few { length fields.now ≤ 7 }
        requires kept { kept_count kind ≡ 0 }
        requires has { HasKept kind self.old.kept.current }
        requires numbers { 7 < self.old.numbers.notes }
        ensures { IsNoted
            (change_of kind (fields.now ++ self.old.numbers.current) self.old.kept.current)
            self.old self.new }
    {
        put(&mut self.numbers, kind, fields);
    }

    /// Writes a change of a kind, and keeps the part of it that is to be kept.
    #[inline(always)]
    pub fn write_kept(&mut self, kind: ChangeKind, fields: &[u64], kept: Owned)
        requires count { length fields.now ≡ number_count kind }
        requires few { length fields.now ≤ 7 }
        requires kept { kept_count kind ≡ 1 }
        requires has { HasKept kind (kept ∷ self.old.kept.current) }
        requires numbers { 7 < self.old.numbers.notes }
        requires room { 0 < self.old.kept.notes }
        ensures { IsNoted
            (change_of kind (fields.now ++ self.old.numbers.current) (kept ∷ self.old.kept.current))
            self.old self.new }
    {
        put(&mut self.numbers, kind, fields);
        self.kept.note(kept);
    }
}

/// Notes numbers, the first one last, and then that of a kind.
#[inline(always)]
fn put(numbers: &mut Numbers, kind: ChangeKind, fields: &[u64])
    requires { length fields.now < numbers.old.notes }
    ensures steps { numbers.new.steps ≡ numbers.old.steps }
    ensures current { IsHeaded kind fields.now numbers.old.current numbers.new.current }
    ensures notes { numbers.old.notes ≤ numbers.new.notes + length fields.now + 1 }
    ensures closes { numbers.new.closes ≡ numbers.old.closes }
{
    let mut left = fields.len();
    while left > 0 {
        left -= 1;
        numbers.note(fields[left]);
    }
    numbers.note(kind.number());
}
