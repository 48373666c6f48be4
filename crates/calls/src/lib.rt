// What the calls on a session promise, and of a run over a buffer: the frame at the front, and whether a record was
// taken.
#![tactic(auto)]

ghost use Rattle.std.specs.Prelude.{◌≡◌};
ghost use Rattle.worlds.specs.Replies.{reply_of};
ghost use Rattle.calls.specs.Buffers.{FrameAt};
ghost use Rattle.calls.specs.Running.{is_taken};

use worlds::{Done, Reply};

// What the call on the last record that was handed in answers and leaves, and how many bytes were taken.
#[derive(Drop)]
pub struct RunDone {
    pub last: Done,
    pub bytes: usize,
}

// The frame at the front and the bytes behind it, where one is whole. A header that states more than a body may have is
// a frame of its own.
pub fn next_frame(xs: &[u8]) -> Option<(&[u8], &[u8])>
    ensures { FrameAt xs.now result }
{
    if xs.len() < 4 {
        return None;
    }
    if 16384 < numbers::two_at(xs, 2) {
        return Some(xs.split_at(4));
    }
    frames::split(xs)
}

// Whether the record was taken. It stays beside the library's `is_ok`: its contract says it as the definitions do.
pub fn is_taken(r: Reply) -> bool
    ensures { result ≡ is_taken (reply_of r) }
{
    r.is_ok()
}
