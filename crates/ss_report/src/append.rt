//! Appending to bytes that have room, so that a print cannot fail halfway.
ghost use Rattle.std.specs.Prelude.{◌≡◌, ◌+◌, ◌≤◌, ◌++◌, length, replicate, vec_len, vec_capacity};

/// Appends bytes for which there is room.
pub(crate) fn append(bytes: &mut Vec<u8>, text: &[u8])
    requires { vec_len bytes.old + length text.now ≤ vec_capacity bytes.old }
    ensures items { bytes.new.items ≡ bytes.old.items ++ text.now }
    ensures len { vec_len bytes.new ≡ vec_len bytes.old + length text.now }
    ensures capacity { vec_capacity bytes.old ≤ vec_capacity bytes.new }
{
    // With room this cannot fail.
    let _ = bytes.extend_from_slice(text);
}

/// Appends a byte `times` times; there is room.
pub(crate) fn append_times(bytes: &mut Vec<u8>, byte: u8, times: usize)
    requires { vec_len bytes.old + times ≤ vec_capacity bytes.old }
    ensures items { bytes.new.items ≡ bytes.old.items ++ replicate times byte }
    ensures len { vec_len bytes.new ≡ vec_len bytes.old + times }
    ensures capacity { vec_capacity bytes.old ≤ vec_capacity bytes.new }
{
    // With room this cannot fail.
    let _ = bytes.resize(bytes.len() + times, byte);
}
