//! Texts as JSON strings.
ghost use Rattle.std.specs.Prelude.{◌≡◌, ◌++◌, ◌<◌, flat_map, OnOk};
ghost use Rattle.ss_messages.specs.Escapes.{hex_digit, escape, escaped_byte, escaped_wide_byte};
ghost use Rattle.ss_messages.specs.Escapes.{quoted_bytes, quoted_text};

use std::alloc::AllocError;

/// A digit to base 16.
fn hex_digit(n: u8) -> u8
    requires { n < 16 }
    ensures { result ≡ hex_digit n }
{
    if n < 10 { b'0' + n } else { b'W' + n }
}

/// Appends a character below 256 by its number.
fn push_escape(out: &mut Vec<u8>, byte: u8) -> Result<(), AllocError>
    ensures { OnOk result (out.new.items ≡ out.old.items ++ escape byte) }
{
    out.extend_from_slice(b"\\u00")?;
    out.extend_from_slice(&[hex_digit(byte / 16), hex_digit(byte % 16)])
}

/// Appends a byte of a string.
fn push_byte(out: &mut Vec<u8>, byte: u8) -> Result<(), AllocError>
    ensures { OnOk result (out.new.items ≡ out.old.items ++ escaped_byte byte) }
{
    if byte == b'"' || byte == b'\\' {
        return out.extend_from_slice(&[b'\\', byte]);
    }
    if byte < b' ' {
        return push_escape(out, byte);
    }
    out.extend_from_slice(&[byte])
}

/// Appends a byte of a string; a byte past ASCII is written by its number.
fn push_wide_byte(out: &mut Vec<u8>, byte: u8) -> Result<(), AllocError>
    ensures { OnOk result (out.new.items ≡ out.old.items ++ escaped_wide_byte byte) }
{
    if byte > b'~' {
        return push_escape(out, byte);
    }
    push_byte(out, byte)
}

/// Appends the bytes of a string.
fn push_bytes(out: &mut Vec<u8>, text: &[u8]) -> Result<(), AllocError>
    ensures { OnOk result (out.new.items ≡ out.old.items ++ flat_map escaped_byte text.now) }
{
    for byte in text {
        push_byte(out, *byte)?;
    }
    Ok(())
}

/// Appends the bytes of a string, those past ASCII by their numbers.
fn push_wide_bytes(out: &mut Vec<u8>, text: &[u8]) -> Result<(), AllocError>
    ensures { OnOk result (out.new.items ≡ out.old.items ++ flat_map escaped_wide_byte text.now) }
{
    for byte in text {
        push_wide_byte(out, *byte)?;
    }
    Ok(())
}

/// Appends a text in UTF-8 as a JSON string.
#[tactic(auto, unfolding(crate::specs::Escapes::quoted_text))]
pub fn push_quoted_text(out: &mut Vec<u8>, text: &[u8]) -> Result<(), AllocError>
    ensures { OnOk result (out.new.items ≡ out.old.items ++ quoted_text text.now) }
{
    out.extend_from_slice(b"\"")?;
    push_bytes(out, text)?;
    out.extend_from_slice(b"\"")
}

/// Appends bytes as a JSON string; those past ASCII are the characters of their numbers.
#[tactic(auto, unfolding(crate::specs::Escapes::quoted_bytes))]
pub fn push_quoted(out: &mut Vec<u8>, bytes: &[u8]) -> Result<(), AllocError>
    ensures { OnOk result (out.new.items ≡ out.old.items ++ quoted_bytes bytes.now) }
{
    out.extend_from_slice(b"\"")?;
    push_wide_bytes(out, bytes)?;
    out.extend_from_slice(b"\"")
}
