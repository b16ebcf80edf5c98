//! Writes whole texts and prompts at a console, which takes them in pieces.
ghost use Rattle.std.specs.Prelude.{◌≡◌, ◌+◌, ◌-◌, ◌^◌, ◌<◌, ◌≤◌, ◌++◌, [], length, take, drop, map, codes, decimal};
ghost use Rattle.std.specs.Prelude.{OnOk, OnErr, IfOk};
ghost use Rattle.ss_console.specs.Event.{Adds, write_events};
ghost use Rattle.ss_console.specs.Faults.{one_more_put};
ghost use Rattle.ss_console.specs.Puts.{AddsPart, joined_texts};
ghost use Rattle.ss_console.specs.Dialogue.{prompt};

use crate::console::{Console, PutFault};
use itoa::Buffer;

/// Writes a part of the bytes from `at` on: at least one byte, or it fails and has written none.
fn put_some<C: Console>(console: &mut C, bytes: &[u8], at: usize) -> Result<usize, PutFault>
    requires left { at < length bytes.now }
    requires count { (C.faults console.old).puts < 2 ^ 64 - 1 }
    ensures ok { IfOk result (λ n. (0 < n) × (at + n ≤ length bytes.now)
        × Adds (C.log console.old) (C.log console.new) (write_events (take n (drop at bytes.now)))
        × (C.faults console.new ≡ C.faults console.old)) }
    ensures err { OnErr result (Adds (C.log console.old) (C.log console.new) []
        × (C.faults console.new ≡ one_more_put (C.faults console.old))) }
    ensures lines { C.left console.new ≡ C.left console.old }
    ensures terminal { C.terminal console.new ≡ C.terminal console.old }
{
    match console.put(&bytes[at..])? {
        0 => Err(PutFault),
        n => Ok(n),
    }
}

/// Writes all of the bytes, in as many pieces as they are taken in, until one call fails.
#[tactic(auto, using(crate::proofs::Parts::in_pieces))]
pub fn put_all<C: Console>(console: &mut C, bytes: &[u8]) -> Result<(), PutFault>
    requires { (C.faults console.old).puts < 2 ^ 64 - 1 }
    ensures ok { OnOk result (Adds (C.log console.old) (C.log console.new) (write_events bytes.now)
        × (C.faults console.new ≡ C.faults console.old)) }
    ensures err { OnErr result (AddsPart bytes.now (C.log console.old) (C.log console.new)
        × (C.faults console.new ≡ one_more_put (C.faults console.old))) }
    ensures lines { C.left console.new ≡ C.left console.old }
    ensures terminal { C.terminal console.new ≡ C.terminal console.old }
{
    let mut at = 0;
    while at < bytes.len() {
        at += put_some(console, bytes, at)?;
    }
    Ok(())
}

/// Writes some texts, one after the other, in as many pieces as they are taken in, until one call
/// fails.
#[tactic(auto, using(crate::proofs::Parts::with_others), unfolding(crate::specs::Puts::joined_texts))]
pub fn put_texts<C: Console>(console: &mut C, texts: &[&[u8]]) -> Result<(), PutFault>
    requires { (C.faults console.old).puts < 2 ^ 64 - 1 }
    ensures ok { OnOk result (Adds (C.log console.old) (C.log console.new)
        (write_events (joined_texts (map (λ text. text.now) texts.now)))
        × (C.faults console.new ≡ C.faults console.old)) }
    ensures err { OnErr result (AddsPart (joined_texts (map (λ text. text.now) texts.now))
        (C.log console.old) (C.log console.new)
        × (C.faults console.new ≡ one_more_put (C.faults console.old))) }
    ensures lines { C.left console.new ≡ C.left console.old }
    ensures terminal { C.terminal console.new ≡ C.terminal console.old }
{
    let Some((text, behind)) = texts.split_first() else {
        return Ok(());
    };
    put_all(console, text)?;
    put_texts(console, behind)
}

/// Writes the prompt of a position, in parentheses.
#[tactic(auto, unfolding(crate::specs::Puts::joined_texts))]
fn put_position<C: Console>(console: &mut C, position: u64) -> Result<(), PutFault>
    requires { (C.faults console.old).puts < 2 ^ 64 - 1 }
    ensures ok { OnOk result (Adds (C.log console.old) (C.log console.new)
        (write_events (codes "(" ++ decimal position ++ codes ") "))
        × (C.faults console.new ≡ C.faults console.old)) }
    ensures err { OnErr result (AddsPart (codes "(" ++ decimal position ++ codes ") ")
        (C.log console.old) (C.log console.new)
        × (C.faults console.new ≡ one_more_put (C.faults console.old))) }
    ensures lines { C.left console.new ≡ C.left console.old }
    ensures terminal { C.terminal console.new ≡ C.terminal console.old }
{
    let mut buffer = Buffer::new();
    put_texts(console, &[b"(", buffer.format(position).as_bytes(), b") "])
}

/// Writes the prompt, if the console is a terminal.
#[tactic(auto, using(crate::proofs::Parts::no_prompt))]
pub(crate) fn put_prompt<C: Console>(console: &mut C, position: u64) -> Result<(), PutFault>
    requires { (C.faults console.old).puts < 2 ^ 64 - 1 }
    ensures ok { OnOk result (Adds (C.log console.old) (C.log console.new)
        (write_events (prompt (C.terminal console.old) position))
        × (C.faults console.new ≡ C.faults console.old)) }
    ensures err { OnErr result (AddsPart (prompt (C.terminal console.old) position)
        (C.log console.old) (C.log console.new)
        × (C.faults console.new ≡ one_more_put (C.faults console.old))) }
    ensures lines { C.left console.new ≡ C.left console.old }
    ensures terminal { C.terminal console.new ≡ C.terminal console.old }
{
    if console.is_terminal() {
        put_position(console, position)
    } else {
        Ok(())
    }
}
