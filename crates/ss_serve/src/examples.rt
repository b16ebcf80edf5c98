//! Small streams: each function is a law, proved by computing.
#![tactic(auto)]

ghost use Rattle.std.specs.Prelude.{◌≡◌, [], ◌∷◌, ◌++◌, codes, take};
ghost use Rattle.ss_console.specs.Event.{read, write_events};
ghost use Rattle.ss_messages.specs.Frames.{first_message, ended, cut, malformed};
ghost use Rattle.ss_serve.specs.Session.{events};
ghost use Rattle.ss_serve.specs.Examples as e;

/// A stream is at its end, is cut within a head, or has a head that says no length.
fn streams_end()
    ensures end { first_message [] ≡ ended }
    ensures head_cut { first_message (take 20 e.asked_message) ≡ cut }
    ensures no_length { first_message (codes "Host: x\r\n\r\n{}") ≡ malformed }
{}

/// Two requests are answered in order, each before the next is read; their messages are numbered.
fn requests_are_answered()
    ensures { events 0 (e.asked_turn ∷ e.left_turn ∷ [])
        ≡ (read e.asked_body ∷ write_events e.asked_reply)
        ++ (read e.left_body ∷ write_events e.left_reply) }
{}
