//! Guest memory as a pool of frames of 4,096 bytes, all in one region that is taken once.
//!
//! A frame is handed out with zero bytes, held by one holder, and given back. How frames are numbered, and
//! which free frame is handed out, are own. Only [`FramePool::new`] takes memory.
#![tactic(auto)]

mod frame;
mod pool;
mod theorems;

pub use frame::Frame;
pub use pool::FramePool;
pub use theorems::{
    frame_is_written_alone, free_and_taken_add_up, free_frame_is_not_held, fresh_frame_is_zero,
    giving_frees_one, held_frames_are_apart, held_frames_are_taken, held_frames_stay_held,
    taken_frame_stays_taken, taking_uses_one, writing_frees_none,
};
