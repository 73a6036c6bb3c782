//! The pack that is open.

use pack_reach::Marker;
use zb_ids::Tid;

/// The copying of an open pack, behind its marks.
#[derive(Clone, Copy, Debug, PartialEq, Eq)]
pub struct HubCopying {
    /// How many entries the journal had when it began. Those behind are commits.
    pub entries: u64,
    /// Whether it was answered that all is copied.
    pub is_whole: bool,
}

/// A pack that is open. What is copied of it lies in the store.
#[derive(Drop)]
pub struct HubPack {
    /// The number of its session.
    pub session: u32,
    /// Up to this tid.
    pub tid: Tid,
    /// Whether objects that nothing leads to go too.
    pub collects: bool,
    /// The objects that are marked.
    pub marker: Marker,
    /// Its copying, once all is marked.
    pub copying: Option<HubCopying>,
}
