//! A law of messages. The function does nothing, and its contract says the law.
ghost use Rattle.ss_messages.specs.Laws.{MessagesAreReadBack};

/// A message that is written is the first that is read, and the bytes after it are left.
#[tactic(auto, using(crate::proofs::FrameLaws::read_back))]
pub fn messages_are_read_back()
    ensures { MessagesAreReadBack }
{}
