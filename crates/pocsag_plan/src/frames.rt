ghost use Rattle.std.specs.Prelude.{◌≡◌, ◌==◌, ◌+◌, ◌*◌, ◌<◌, ◌≤◌, if◌then◌else◌};
ghost use Rattle.pocsag_pages.specs.Pages.{IsRound};
ghost use Rattle.pocsag_plan.specs.Frames.{HasClasses, frame_idles, frame_row, frames_of};

use pocsag_pages::{Page, Round};
use pocsag_slots::{SLOTS, Step, finish};
use pocsag_words::FRAMES;

// The same as the number that a frame is.
const FRAME_COUNT: u32 = FRAMES as u32;

// How many slots a batch has, as a number that slots are.
const BATCH_SLOTS: u8 = SLOTS as u8;

/// A frame of a plan, and the room that the plan leaves in it. It has the layout of a structure of C.
#[repr(C)]
#[derive(Clone, Copy)]
pub struct FrameRoom {
    /// The frame, 0 to 7.
    pub frame: u32,
    /// How many pages start in it.
    pub pages: u32,
    /// How many codewords these pages have.
    pub codewords: u64,
    /// How many idles stand in its two slots.
    pub room: u64,
}

/// The eight frames of a plan of these steps, in their order.
pub fn frames_of(round: &Round, steps: &[Step]) -> [FrameRoom; FRAMES]
    requires { HasClasses steps.now }
    ensures { result ≡ frames_of round.now steps.now }
{
    let empty = FrameRoom {
        frame: 0,
        pages: 0,
        codewords: 0,
        room: 0,
    };
    let mut rooms = [empty; FRAMES];
    for frame in 0..FRAME_COUNT {
        rooms[frame as usize] = frame_room(round.pages(), steps, frame);
    }
    rooms
}

// The frame of these pages and steps.
fn frame_room(pages: &[Page], steps: &[Step], frame: u32) -> FrameRoom
    requires round { IsRound pages.now }
    requires classes { HasClasses steps.now }
    requires frame { frame < 8 }
    ensures { result ≡ frame_row pages.now steps.now frame }
{
    let (mut count, mut codewords) = (0, 0);
    for page in pages {
        if page.address % FRAME_COUNT == frame {
            count += 1;
            codewords += 1 + page.payload.as_slice().len() as u64;
        }
    }
    FrameRoom {
        frame,
        pages: count,
        codewords,
        room: room_left(steps, frame as u8),
    }
}

// How many idles stand in the two slots of the frame.
fn room_left(steps: &[Step], frame: u8) -> u64
    requires classes { HasClasses steps.now }
    requires frame { frame < 8 }
    ensures { result ≡ frame_idles frame steps.now }
{
    let mut place = 0;
    let mut room = 0;
    for step in steps {
        match *step {
            Step::Idle => {
                room += idle_at(place, frame);
                place = (place + 1) % BATCH_SLOTS;
            }
            Step::Run { class, early } => place = finish(class, early),
        }
    }
    room
}

// How many idles of the frame an idle in the slot is: one, or none.
fn idle_at(slot: u8, frame: u8) -> u64
    requires { frame < 8 }
    ensures value { result ≡ (if slot == 2 * frame then 1 else 0) + (if slot == 2 * frame + 1 then 1 else 0) }
    ensures bound { result ≤ 1 }
{
    u64::from(slot / 2 == frame)
}
