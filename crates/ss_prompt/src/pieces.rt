//! The words of a line.
ghost use Rattle.std.specs.Prelude.{◌≡◌, ◌+◌, ◌<◌, ◌≤◌, length, ◌∷◌, [], None, Some, MatchOption, IfSome};
ghost use Rattle.std.specs.List.{before_first, after_first, position_or_len};
ghost use Rattle.ss_debug.specs.CommandLines.{separates, word_separators, command_words};
ghost use Rattle.ss_prompt.specs.Words.{after_words};

/// The place of the first separator of words, or the length.
#[tactic(auto, using(std::proofs::lemmas::List::Sums::position_or_len_is))]
fn separator_at(text: &[u8]) -> usize
    ensures place { result ≡ position_or_len (separates word_separators) text.now }
    ensures within { result ≤ length text.now }
{
    for (i, b) in text.iter().enumerate() {
        if b" \t\r".contains(b) {
            return i;
        }
    }
    text.len()
}

/// The text before the first separator of words, and the text after it; all and nothing if there is
/// none.
fn split_at_separator(text: &[u8]) -> (&[u8], &[u8])
    ensures before { result.0.now ≡ before_first (separates word_separators) text.now }
    ensures after { result.1.now ≡ after_first (separates word_separators) text.now }
    ensures all { length result.0.now + length result.1.now ≤ length text.now }
    ensures less { 0 < length text.now → length result.1.now < length text.now }
{
    let n = separator_at(text);
    if n == text.len() {
        return (text, &text[n..]);
    }
    (&text[..n], &text[n + 1..])
}

/// The first word of a line, and the text after it; none if the line has no words.
#[tactic(auto, using(ss_debug::proofs::Splits::words_first, ss_debug::proofs::Splits::words_none))]
pub(crate) fn next_word(line: &[u8]) -> Option<(&[u8], &[u8])>
    ensures words { MatchOption result (command_words line.now ≡ [])
        (λ r. command_words line.now ≡ r.0.now ∷ command_words r.1.now) }
    ensures some { IfSome result (λ r. 0 < length r.0.now) }
    ensures less { IfSome result (λ r. length r.1.now < length line.now) }
{
    let mut rest = line;
    while !rest.is_empty() {
        let (word, more) = split_at_separator(rest);
        if !word.is_empty() {
            return Some((word, more));
        }
        rest = more;
    }
    None
}

/// The text after the words of another, if a line begins with these words.
pub(crate) fn after_words<'a>(words: &[u8], line: &'a [u8]) -> Option<&'a [u8]>
    ensures { MatchOption result
        (after_words (command_words words.now) (command_words line.now) ≡ None)
        (λ rest. after_words (command_words words.now) (command_words line.now)
        ≡ Some (command_words rest.now)) }
{
    let mut left = words;
    let mut rest = line;
    while let Some((word, more)) = next_word(left) {
        let (other, behind) = next_word(rest)?;
        if word != other {
            return None;
        }
        left = more;
        rest = behind;
    }
    Some(rest)
}
