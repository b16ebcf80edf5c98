//! The frames of a state, by how many others are above them.
ghost use Rattle.std.specs.Prelude.{◌≡◌, ◌≤◌, ◌-◌, ◌<◌, length, reverse, slice_get};
ghost use Rattle.std.specs.Option.{option_map};
ghost use Rattle.ss_state.specs.Frames.{frame_at, frame_place, frame_local};
ghost use Rattle.ss_state.specs.Readings.{readings_in};
ghost use Rattle.ss_values.specs.Seen.{view_readings};

use crate::state::State;
use crate::state::frame::Frame;
use ss_links::SetBoard;
use ss_values::View;

/// The frame at this place from the end of some frames, the last of which is at place 1.
#[tactic(auto, using(ss_state::proofs::Frames::from_end))]
fn from_end(frames: &[Frame], place: usize) -> Option<&Frame>
    requires { 0 < place }
    ensures { option_map (λ f. f.now) result ≡ slice_get (reverse frames.now) (place - 1) }
{
    if place > frames.len() {
        return None;
    }
    frames.get(frames.len() - place)
}

impl<S: SetBoard> State<S> {
    /// The frame with `depth` others above it.
    #[tactic(auto, using(ss_state::proofs::Frames::below_last))]
    fn frame_at(&self, depth: usize) -> Option<&Frame>
        ensures { option_map (λ f. f.now) result ≡ frame_at self.now.state depth }
    {
        if depth == 0 {
            return Some(self.last());
        }
        from_end(&self.below, depth)
    }

    /// What an expression reads in the frame with `depth` others above it.
    pub fn view_in(&self, depth: usize) -> Option<View<'_, S>>
        ensures { option_map view_readings result
            ≡ option_map (readings_in self.now.beside.tables self.now.state)
            (frame_at self.now.state depth) }
    {
        let frame = self.frame_at(depth)?;
        Some(View {
            variables: self.variables.as_slice(),
            locals: frame.locals.as_slice(),
            clock: self.clock,
            store: &self.store,
        })
    }

    /// The section of the frame with `depth` others above it, and its current place.
    pub fn frame_place(&self, depth: usize) -> Option<(usize, usize)>
        ensures { result ≡ frame_place self.now.state depth }
    {
        let frame = self.frame_at(depth)?;
        Some((frame.section, frame.place))
    }

    /// The value of a local of the frame with `depth` others above it.
    pub fn frame_local(&self, depth: usize, number: usize) -> Option<i64>
        ensures { result ≡ frame_local self.now.state depth number }
    {
        let frame = self.frame_at(depth)?;
        let value = frame.locals.as_slice().get(number)?;
        Some(*value)
    }
}
