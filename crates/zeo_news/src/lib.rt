//! News as a server sends it without being asked: notices, each a payload in a frame of its own.
#![tactic(auto)]

mod telling;

pub use telling::news_frames;
