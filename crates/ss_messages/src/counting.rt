//! From which numbers an editor counts lines and columns.
ghost use Rattle.std.specs.Prelude.{◌≡◌};
ghost use Rattle.ss_messages.specs.Counting.{shown, meant, from_one};

/// From which numbers an editor counts lines and columns: from 1 on, or from 0 on. Here both count
/// from 1 on.
#[derive(Clone, Copy, Debug, PartialEq, Eq)]
pub struct Counting {
    /// Whether its first line is line 1.
    pub lines_from_one: bool,
    /// Whether its first column is column 1.
    pub columns_from_one: bool,
}

/// A number, as one shows it who counts from 1 on, or from 0 on.
fn shown(from_one: bool, number: u64) -> u64
    ensures { result ≡ shown from_one number }
{
    if from_one {
        number
    } else {
        number.saturating_sub(1)
    }
}

/// The number that one means who counts so; the greatest one means itself.
fn meant(from_one: bool, number: u64) -> u64
    ensures { result ≡ meant from_one number }
{
    if from_one {
        number
    } else {
        number.saturating_add(1)
    }
}

impl Counting {
    /// From 1 on, as an editor counts that says nothing of it.
    pub fn from_one() -> Self
        ensures { result ≡ from_one }
    {
        Counting {
            lines_from_one: true,
            columns_from_one: true,
        }
    }

    /// A line, as the editor counts.
    pub fn shown_line(self, line: u64) -> u64
        ensures { result ≡ shown self.lines_from_one line }
    {
        shown(self.lines_from_one, line)
    }

    /// A column, as the editor counts.
    pub fn shown_column(self, column: u64) -> u64
        ensures { result ≡ shown self.columns_from_one column }
    {
        shown(self.columns_from_one, column)
    }

    /// The line that the editor means by a number.
    pub fn meant_line(self, number: u64) -> u64
        ensures { result ≡ meant self.lines_from_one number }
    {
        meant(self.lines_from_one, number)
    }

    /// The column that the editor means by a number.
    pub fn meant_column(self, number: u64) -> u64
        ensures { result ≡ meant self.columns_from_one number }
    {
        meant(self.columns_from_one, number)
    }
}
