//! The lines of the commands, the words of a line, and the numbers that digits say.
ghost use Rattle.std.specs.Prelude.{◌≡◌, ◌<◌, ◌≤◌, ◌≢◌, length, ◌-◌, ◌^◌, ◌∷◌, [], MatchOption, IfSome, SomeIff};
ghost use Rattle.std.specs.List.{list_all, before_first, after_first, position_or_len};
ghost use Rattle.std.specs.Char.{is_ascii_digit};
ghost use Rattle.ss_words.specs.TextRuns.{number_of};
ghost use Rattle.ss_debug.specs.CommandLines.{separates, word_separators, line_separators, command_words};
ghost use Rattle.ss_debug.specs.CommandLines.{number_within};

/// The place of the first of these separators, or the length.
#[tactic(auto, using(std::proofs::lemmas::List::Sums::position_or_len_is))]
fn separator_at(text: &[u8], separators: &[u8]) -> usize
    ensures place { result ≡ position_or_len (separates separators.now) text.now }
    ensures within { result ≤ length text.now }
{
    for (i, b) in text.iter().enumerate() {
        if separators.contains(b) {
            return i;
        }
    }
    text.len()
}

/// The text before the first of these separators, and the text after it; all and nothing if there
/// is none.
fn split_at_separator<'a>(text: &'a [u8], separators: &[u8]) -> (&'a [u8], &'a [u8])
    ensures before { result.0.now ≡ before_first (separates separators.now) text.now }
    ensures after { result.1.now ≡ after_first (separates separators.now) text.now }
    ensures less { text.now ≢ [] → length result.1.now < length text.now }
{
    let n = separator_at(text, separators);
    if n == text.len() {
        return (text, &text[n..]);
    }
    (&text[..n], &text[n + 1..])
}

/// The first line of the commands, and the text after its line feed (docs/DEBUGGER.md, "Lines").
pub fn split_line(commands: &[u8]) -> (&[u8], &[u8])
    ensures before { result.0.now ≡ before_first (separates line_separators) commands.now }
    ensures after { result.1.now ≡ after_first (separates line_separators) commands.now }
    ensures less { commands.now ≢ [] → length result.1.now < length commands.now }
{
    split_at_separator(commands, b"\n")
}

/// The first word of a line, and the text after it; none if the line has no words.
#[tactic(auto, using(crate::proofs::Splits::words_first, crate::proofs::Splits::words_none))]
pub(crate) fn next_word(line: &[u8]) -> Option<(&[u8], &[u8])>
    ensures { MatchOption result (command_words line.now ≡ [])
        (λ r. command_words line.now ≡ r.0.now ∷ command_words r.1.now) }
{
    let mut rest = line;
    while !rest.is_empty() {
        let (word, more) = split_at_separator(rest, b" \t\r");
        if !word.is_empty() {
            return Some((word, more));
        }
        rest = more;
    }
    None
}

fn is_all_digits(word: &[u8]) -> bool
    ensures { result ≡ list_all is_ascii_digit word.now }
{
    word.iter().all(|b| b.is_ascii_digit())
}

/// The number that digits say, if it is not above the limit.
fn value_up_to(digits: &[u8], limit: u64) -> Option<u64>
    requires { limit < 2 ^ 64 - 1 }
    ensures { SomeIff result (number_of digits.now ≤ limit) (number_of digits.now) }
{
    let mut value = 0u64;
    for b in digits {
        value = value
            .saturating_mul(10)
            .saturating_add(u64::from(b.saturating_sub(b'0')));
        if value > limit {
            return None;
        }
    }
    Some(value)
}

/// The number that the digits of a word say, if it is from low to high; none if the word has
/// another byte.
#[tactic(auto, unfolding(crate::specs::CommandLines::number_within))]
pub(crate) fn number(word: &[u8], low: u64, high: u64) -> Option<u64>
    requires { high < 2 ^ 64 - 1 }
    ensures number { result ≡ number_within low high word.now }
    ensures within { IfSome result (λ n. n ≤ high) }
{
    if word.is_empty() || !is_all_digits(word) {
        return None;
    }
    let value = value_up_to(word, high)?;
    if low <= value { Some(value) } else { None }
}
