//! Frames of the links between clients and servers: each payload stands behind its length in four
//! bytes, the highest first. A stream of frames is read in whatever pieces it comes.
#![tactic(auto)]

mod error;
mod laws;
mod limit;
mod reading;
mod unfinished;
mod writing;

pub use error::FrameError;
pub use laws::streams_are_cut_one_way;
pub use limit::FRAME_LIMIT;
pub use reading::Frames;
pub use writing::frame;
