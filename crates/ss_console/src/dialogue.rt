//! The dialogue itself: the loop of prompt, line and answer.
ghost use Rattle.std.specs.Prelude.{◌≡◌, ◌⊎◌, ◌-◌, ◌^◌, ◌<◌, Err, OnOk};
ghost use Rattle.std.specs.Vec.{vec_capacity};
ghost use Rattle.ss_console.specs.Dialogue.{EndsByInput, EndsByLine, EndsByRead, EndsInPrompt, EndsInAnswer};
ghost use Rattle.ss_console.specs.Dialogue.{EndsByCount};
ghost use Rattle.ss_console.specs.Reply.{IsReply};
ghost use Rattle.ss_console.specs.Cut.{faults_after};
ghost use Rattle.ss_console.specs.declared.lines.TheConstants.{LONGEST_LINE};

use crate::answerer::{Answerer, Go};
use crate::console::Console;
use crate::cut::Cut;
use crate::puts::put_prompt;
use crate::reply::{Reply, put_reply};

/// Lets the answerer do the work of a line; its answer is left in `answer`.
fn reply<A: Answerer>(answerer: &mut A, line: &[u8], answer: &mut Vec<u8>) -> Reply
    ensures { IsReply A.meaning (A.state answerer.old) (A.state answerer.new) line.now
        answer.new.items result }
{
    answer.clear();
    match answerer.answer(line, answer) {
        Ok(go) => Reply::Said(go),
        Err(_) => Reply::Refused,
    }
}

/// Reads lines from a console and answers them there.
///
/// Each answer is written whole before the next line is read. Nothing else is written, except the
/// prompts of a terminal. The dialogue ends with the line that ends it, or with the input. `line`
/// has its room before the call. If an answer needs memory and gets none, the answerer writes its
/// refusal, and the dialogue goes on.
pub fn converse<A: Answerer, C: Console>(
    answerer: &mut A,
    console: &mut C,
    line: &mut Vec<u8>,
    answer: &mut Vec<u8>,
) -> Result<(), Cut>
    requires room { LONGEST_LINE < vec_capacity line.old }
    requires reads { (C.faults console.old).reads < 2 ^ 64 - 1 }
    requires puts { (C.faults console.old).puts < 2 ^ 64 - 1 }

    ensures ok { OnOk result (EndsByInput A.meaning (C.terminal console.old)
        (A.state answerer.old) (A.state answerer.new) (C.left console.old) (C.left console.new)
        (C.log console.old) (C.log console.new)
        ⊎ EndsByLine A.meaning (C.terminal console.old)
        (A.state answerer.old) (A.state answerer.new) (C.left console.old) (C.left console.new)
        (C.log console.old) (C.log console.new)) }
    ensures read { result ≡ Err Cut.Read → EndsByRead A.meaning (C.terminal console.old)
        (A.state answerer.old) (A.state answerer.new) (C.left console.old)
        (C.log console.old) (C.log console.new) }
    ensures write { result ≡ Err Cut.Write → EndsInPrompt A.meaning (C.terminal console.old)
        (A.state answerer.old) (A.state answerer.new) (C.left console.old) (C.left console.new)
        (C.log console.old) (C.log console.new)
        ⊎ EndsInAnswer A.meaning (C.terminal console.old)
        (A.state answerer.old) (A.state answerer.new) (C.left console.old) (C.left console.new)
        (C.log console.old) (C.log console.new) }
    ensures count { result ≡ Err Cut.Count → EndsByCount A.meaning (C.terminal console.old)
        (A.state answerer.old) (A.state answerer.new) (C.left console.old) (C.left console.new)
        (C.log console.old) (C.log console.new) }

    // The line keeps its room.
    ensures room { LONGEST_LINE < vec_capacity line.new }

    // It is cut short by exactly the one call that failed.
    ensures faults { C.faults console.new ≡ faults_after result (C.faults console.old) }
{
    for _ in 0..u64::MAX {
        put_prompt(console, answerer.position())?;
        if !console.read_line(line)? {
            return Ok(());
        }
        let reply = reply(answerer, line, answer);
        put_reply(answerer, console, reply, answer)?;
        if reply.ends() {
            return Ok(());
        }
    }
    Err(Cut::Count)
}
