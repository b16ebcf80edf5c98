//! The session of an editor.
ghost use Rattle.std.specs.Prelude.{◌≡◌, None};
ghost use Rattle.ss_serve.specs.Faults.{broken_after};
ghost use Rattle.ss_serve.specs.Seen.{seen_of};
ghost use Rattle.ssdap.specs.Editing.{editing_state, IsServed};

use crate::adapter::Adapter;
use crate::shelf::Shelf;
use ss_serve::{Channel, SessionFault, serve};
use std::alloc::Global;

/// Answers the requests of an editor, until one ends the session or the stream ends.
///
/// Any bytes may come, and any files may be at the paths that launch names. Each request is
/// answered, whole, before the next is read. The bytes that are written are a function of the
/// requests, the model and the data.
pub fn serve_editor<F: Shelf, C: Channel>(
    alloc: Global,
    shelf: &F,
    channel: &mut C,
) -> Result<(), SessionFault>
    ensures served { IsServed (F.files shelf.now) (F.same shelf.now)
        (seen_of (C.left channel.old) (C.left channel.new)
        (C.log channel.old) (C.log channel.new)) result }
    ensures broken { C.broken channel.new ≡ broken_after result (C.broken channel.old) }
{
    let mut adapter = Adapter::new(shelf);
    let served = serve(alloc, &mut adapter, channel);
    adapter.close();
    served
}
