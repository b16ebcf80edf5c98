//! The feed of a run's data: READ and external events take its pieces, and a step back gives them
//! back.
use crate::entry::{PieceKind, is_mark, kind_of, writes_name};
use crate::number::parse_number;
use crate::pieces::Pieces;
use ss_words::RunFault;
use ss_words::characters::{BLANK, CARRIAGE_RETURN, LINE_FEED, TAB};
use std::alloc::{AllocError, Global};
use std::marker::Model;

/// The data of a run, from which READ takes numbers (docs/LANGUAGE.md, "READ and the data").
///
/// Blanks, tabs, carriage returns and line feeds separate its pieces. All pieces are kept, so taken
/// pieces can be given back.
#[derive(Drop)]
pub struct Feed {
    pieces: Pieces,
    taken: usize,
}

impl Model for Feed {
    ghost use Rattle.std.specs.Prelude.{map, length, ◌≤◌};
    ghost use Rattle.ss_data.specs.Items.{DataRead, item};

    ghost Value = { DataRead };

    ghost view = { λ f. record { items = map item f.pieces; taken = f.taken } };

    ghost invariant = { λ f. f.taken ≤ length f.pieces };
}

impl Feed {
    ghost use Rattle.std.specs.Prelude.{◌≡◌, ◌≢◌, ◌+◌, ◌<◌, ◌≤◌, true, length, map, Ok, Err, IfOk, OnOk, OnErr};
    ghost use Rattle.std.specs.Prelude.{MatchOption};
    ghost use Rattle.ss_data.specs.Items.{data_at_start, item, next_value, with_taken};
    ghost use Rattle.ss_data.specs.Entries.{next_kind, next_writes, place_behind_mark};

    /// Cuts data into its pieces, in one pass; nothing is taken yet.
    ///
    /// # Errors
    ///
    /// `AllocError` if memory is refused.
    pub fn new(alloc: Global, text: &[u8]) -> Result<Feed, AllocError>
        ensures { IfOk result (λ feed. feed ≡ data_at_start text.now) }
    {
        let pieces = cut_pieces(alloc, text)?;
        Ok(Feed { pieces, taken: 0 })
    }

    /// Shows its caller that each item is that of its bytes.
    pub fn known(&self)
        ensures { self.now.items ≡ map (λ i. item i.bytes) self.now.items }
    {
        // The view of a feed is known at the places that read a field.
        let _ = &self.pieces;
    }

    /// Takes the number of the next piece.
    ///
    /// # Errors
    ///
    /// `NoMoreData` if no piece is left, and `NotANumber` if the next piece writes no number from
    /// -2^63 to 2^63 - 1. Then nothing is taken.
    pub fn take(&mut self) -> Result<i64, RunFault>
        ensures value { result ≡ next_value self.old }
        ensures ok { OnOk result (self.new ≡ with_taken self.old (self.old.taken + 1)) }
        ensures err { OnErr result (self.new ≡ self.old) }
    {
        let piece = self.pieces.get(self.taken).ok_or(RunFault::NoMoreData)?;
        let value = parse_number(piece).ok_or(RunFault::NotANumber)?;
        self.pass();
        Ok(value)
    }

    /// The kind of the next piece.
    pub fn kind(&self) -> PieceKind
        ensures kind { result ≡ next_kind self.now }
        ensures left { result ≢ PieceKind.End → self.now.taken < length self.now.items }
    {
        match self.pieces.get(self.taken) {
            None => PieceKind::End,
            Some(piece) => kind_of(piece),
        }
    }

    /// Whether the next piece is this name: a run of letters, digits and stops with a letter, of at
    /// most 80 bytes, that is the name but for capitals and the stops at its end.
    pub fn names(&self, name: &[u8]) -> bool
        ensures writes { result ≡ next_writes name.now self.now }
        ensures left { result ≡ true → self.now.taken < length self.now.items }
    {
        let Some(piece) = self.pieces.get(self.taken) else {
            return false;
        };
        writes_name(piece, name)
    }

    /// Passes the next piece, whatever it is.
    pub fn pass(&mut self)
        requires { self.old.taken < length self.old.items }
        ensures { self.new ≡ with_taken self.old (self.old.taken + 1) }
    {
        if self.taken < self.pieces.len() {
            self.taken += 1;
        }
    }

    /// Passes all pieces up to and with the next mark `*`, whatever they are.
    ///
    /// # Errors
    ///
    /// `OutsideEntry` (F22) if no mark is left. Then nothing is taken.
    pub fn pass_entry(&mut self) -> Result<(), RunFault>
        ensures { MatchOption (place_behind_mark self.old)
            ((result ≡ Err RunFault.OutsideEntry) × (self.new ≡ self.old))
            (λ place. (result ≡ Ok tt) × (self.new ≡ with_taken self.old place)) }
    {
        self.taken = behind_mark(&self.pieces, self.taken).ok_or(RunFault::OutsideEntry)?;
        Ok(())
    }

    /// How many pieces are taken.
    pub fn taken(&self) -> usize
        ensures taken { result ≡ self.now.taken }
        ensures within { result ≤ length self.now.items }
    {
        self.taken
    }

    /// Gives back all that was taken or passed since `old_taken` pieces were, which is at most
    /// `taken` now.
    pub fn undo(&mut self, old_taken: usize)
        requires { old_taken ≤ self.old.taken }
        ensures { self.new ≡ with_taken self.old old_taken }
    {
        self.taken = old_taken;
    }
}

ghost use Rattle.std.specs.Prelude.{◌≡◌, ◌≤◌, map, length, IfOk, IfSome};
ghost use Rattle.ss_data.specs.Pieces.{is_separator, pieces};
ghost use Rattle.ss_data.specs.Items.{item};
ghost use Rattle.ss_data.specs.Entries.{behind_mark};

/// The pieces of data, in order.
fn cut_pieces(alloc: Global, text: &[u8]) -> Result<Pieces, AllocError>
    ensures { IfOk result (λ all. all ≡ pieces text.now) }
{
    let mut pieces = Pieces::new(alloc);
    for part in text.split(is_separator) {
        if !part.is_empty() {
            pieces.push(part)?;
        }
    }
    Ok(pieces)
}

fn is_separator(byte: &u8) -> bool
    ensures { result ≡ is_separator byte.now }
{
    matches!(*byte, BLANK | TAB | CARRIAGE_RETURN | LINE_FEED)
}

/// The place after the next mark, from a place on.
fn behind_mark(pieces: &Pieces, from: usize) -> Option<usize>
    ensures place { result ≡ behind_mark (map item pieces.now) from }
    ensures within { IfSome result (λ place. place ≤ length pieces.now) }
{
    let mut place = from;
    while let Some(piece) = pieces.get(place) {
        place += 1;
        if is_mark(piece) {
            return Some(place);
        }
    }
    None
}
