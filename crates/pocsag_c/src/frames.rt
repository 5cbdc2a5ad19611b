ghost use Rattle.std.specs.Prelude.{◌≡◌, ◌≢◌, ◌⊎◌, ◌↔◌};
ghost use Rattle.pocsag_c.specs.Answers.{IsNoEnd, PrintsFault};
ghost use Rattle.pocsag_c.specs.Frames.{HasFramesOf, no_frames};
ghost use Rattle.pocsag_c.specs.Reports.{ExplainsReport};
ghost use Rattle.pocsag_c.specs.Statuses.{IsOfBytes, nowhere, stream_refusal};

use crate::plan::search_of;
use crate::refusal::{NOWHERE, Place, refused_stream};
use crate::report::plan_in;
use pocsag_plan::{FrameRoom, frames_of};
use pocsag_words::FRAMES;
use std::alloc::Global;

/// What a plan puts into the frames; all but the place is 0 where there is none.
#[repr(C)]
#[derive(Clone, Copy)]
pub struct FramesInfo {
    /// The eight frames, in their order.
    pub frames: [FrameRoom; FRAMES],
    /// How many batches the transmission has.
    pub batches: u32,
    /// No transmission of the round has fewer batches than these.
    pub bound: u32,
    /// Where the fault stands, and what the search knew at its limit.
    pub place: Place,
}

const NO_FRAMES: FramesInfo = FramesInfo {
    frames: [FrameRoom {
        frame: 0,
        pages: 0,
        codewords: 0,
        room: 0,
    }; FRAMES],
    batches: 0,
    bound: 0,
    place: NOWHERE,
};

/// Plans a page file as `pocsag_plan` does, and gives for each frame how many pages start in it, how many codewords these have,
/// and how many idle codewords stand in its two slots.
#[unsafe(no_mangle)]
pub extern "C" fn pocsag_frames(
    alloc: Global,
    pages: &[u8],
    limit: u32,
    end: u32,
    always: u32,
    info: &mut FramesInfo,
) -> u32
    ensures frames { result ≡ 0 → HasFramesOf pages.now end limit always info.new }
    ensures fewest { result ≡ 0 → always ≡ 0 → info.new.bound ≡ info.new.batches }
    ensures bad_end { result ≡ 2 ↔ IsNoEnd end }
    ensures fault { result ≢ 0 → result ≢ 2 →
        PrintsFault stream_refusal (ExplainsReport pages.now end limit always) result info.new.place }
    ensures answered { always ≢ 0 → result ≢ 6 }
    ensures placeless { (result ≡ 0) ⊎ (result ≡ 2) → info.new.place ≡ nowhere }
    ensures nothing { result ≢ 0 → info.new ≡ no_frames info.new.place }
    ensures of_bytes { IsOfBytes result }
{
    *info = NO_FRAMES;
    let Some(search) = search_of(limit, end, always) else {
        return 2;
    };
    let found = match plan_in(alloc, pages, search) {
        Ok(found) => found,
        Err(fault) => return refused_stream(fault).put(&mut info.place),
    };
    *info = FramesInfo {
        frames: frames_of(&found.round, found.bounded.plan.steps.as_slice()),
        batches: found.bounded.plan.batches,
        bound: found.bounded.bound,
        place: NOWHERE,
    };
    0
}
