//! A volume of areas, and what a crash at any moment may leave of it.
#![tactic(auto)]

mod areas;
mod durable;
mod images;
mod kept;
mod laws;
mod memory;
mod replay;
mod volumes;

pub use areas::{Area, StoreFault};
pub use durable::{cut_and_sync, sync_and_replace, write_and_sync};
pub use laws::{
    bytes_mix_one_by_one, calls_have_no_moments_of_their_own, earlier_moments_leave_more,
    fault_leaves_either, images_since_the_start_are_those_of_every_moment, other_areas_stay,
    replace_keeps_a_synced_side, settled_area_has_one_image, sync_forgets_what_was_before,
};
pub use memory::MemoryVolume;
pub use volumes::Volume;
