//! What a crash may leave of an area: the greatest image, the least, and whether given bytes are one.

ghost use Rattle.std.specs.Prelude.{◌≡◌, ◌↔◌, ◌<◌, ◌≤◌, ℕ, length, IfOk, IsTrue, slice_index};
ghost use Rattle.zb_volume.specs.Images.{MayRead, IsImage, least_length, greatest_length};
ghost use Rattle.zb_volume.specs.Replays.{contents_of, greatest, least};

use crate::replay::{Replay, overwrite};
use std::alloc::{AllocError, Global};

/// With each content since the last sync, and the greatest length.
#[tactic(auto, using(crate::proofs::Contents::contents_of_more, crate::proofs::Contents::written_front))]
pub fn greatest_image(alloc: Global, area: &Replay) -> Result<Vec<u8>, AllocError>
    ensures { IfOk result (λ image.
        image.items ≡ greatest area.now.synced.items (contents_of area.now.since.items)) }
{
    let mut image = area.synced.as_slice().to_vec(alloc)?;
    for content in &area.since {
        overwrite(&mut image, 0, content)?;
    }
    Ok(image)
}

#[tactic(auto, using(crate::proofs::Contents::contents_of_more))]
fn shortest(area: &Replay) -> usize
    ensures { result ≡ least_length area.now.synced.items (contents_of area.now.since.items) }
{
    let mut length = area.synced.len();
    for content in &area.since {
        length = length.min(content.len());
    }
    length
}

#[tactic(auto, using(crate::proofs::Contents::contents_of_more))]
fn longest(area: &Replay) -> usize
    ensures { result ≡ greatest_length area.now.synced.items (contents_of area.now.since.items) }
{
    let mut length = area.synced.len();
    for content in &area.since {
        length = length.max(content.len());
    }
    length
}

/// With no content since the last sync, and the least length.
pub fn least_image(alloc: Global, area: &Replay) -> Result<Vec<u8>, AllocError>
    ensures { IfOk result (λ image.
        image.items ≡ least area.now.synced.items (contents_of area.now.since.items)) }
{
    let mut image = area.synced.as_slice().to_vec(alloc)?;
    image.truncate(shortest(area));
    Ok(image)
}

// Whether a byte may read like this.
#[tactic(auto, using(crate::proofs::Contents::contents_of_more))]
fn may_read(area: &Replay, at: usize, byte: u8) -> bool
    ensures { IsTrue result ↔
        MayRead area.now.synced.items (contents_of area.now.since.items) at byte }
{
    let mut possible = area.synced.get(at).copied().unwrap_or(0) == byte;
    for content in &area.since {
        if content.get(at).copied() == Some(byte) {
            possible = true;
        }
    }
    possible
}

/// Whether a crash may leave these bytes.
pub fn is_image(area: &Replay, image: &[u8]) -> bool
    ensures { IsTrue result ↔
        IsImage area.now.synced.items (contents_of area.now.since.items) image.now }
{
    let mut possible = shortest(area) <= image.len() && image.len() <= longest(area);
    for (at, byte) in image.iter().enumerate() {
        if !may_read(area, at, *byte) {
            possible = false;
        }
    }
    possible
}
