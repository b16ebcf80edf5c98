//! The Debug Adapter Protocol: bytes to requests, and replies and events to bytes.
#![tactic(auto)]

mod arguments;
mod bodies;
mod counting;
mod escape;
mod frame;
mod laws;
mod messages;
mod missing;
mod parts;
mod post;
mod request;
mod shown;
mod sources;
mod units;

pub use bodies::{
    NOTHING, content_body, exception_body, frame_item, list_body, output_body, result_body,
    set_item, sources_body, state_item, stopped_body, unset_item, variable_item, watched_item,
    without_last,
};
pub use counting::Counting;
pub use escape::{push_quoted, push_quoted_text};
pub use frame::{FrameFault, LONGEST_MESSAGE, read_message, split_message};
pub use laws::messages_are_read_back;
pub use messages::push_number;
pub use missing::Argument;
pub use parts::{LinePoint, LinePoints, Text, Texts};
pub use post::Post;
pub use request::{Command, Filter, Request, RequestFault, Stops, Wanted, read_request};
pub use shown::{
    frames_body, info_body, new_point_body, no_info_body, paged_item, removed_point_body,
    scope_item, target_item,
};
pub use sources::Source;
pub use units::{units_within, within_units};
