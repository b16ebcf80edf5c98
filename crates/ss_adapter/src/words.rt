//! The last word of a text.
ghost use Rattle.std.specs.Prelude.{◌≡◌, ◌≤◌, length};
ghost use Rattle.ss_adapter.specs.Words.{word_at, before_word, last_word};

/// The place at which the last word of a text begins: after its last blank.
#[tactic(auto, unfolding(crate::specs::Words::word_at))]
pub fn word_at(text: &[u8]) -> usize
    ensures place { result ≡ word_at text.now }
    ensures within { result ≤ length text.now }
{
    let mut begin = 0;
    let mut behind = 0;
    for byte in text {
        behind += 1;
        if *byte == b' ' {
            begin = behind;
        }
    }
    begin
}

/// The text before the last word of a text.
pub fn before_word(text: &[u8]) -> &[u8]
    ensures { result.now ≡ before_word text.now }
{
    &text[..word_at(text)]
}

/// The last word of a text, an empty one after a blank.
pub fn last_word(text: &[u8]) -> &[u8]
    ensures { result.now ≡ last_word text.now }
{
    &text[word_at(text)..]
}
