//! A volume over files of the host.
#![tactic(auto)]

mod area_file;
mod files;
mod limit;
mod tail;
mod volume;

pub use area_file::HostFile;
pub use volume::HostVolume;
