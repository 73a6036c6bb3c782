//! Laws of images and moments. Each function does nothing: its contract is the law.

ghost use Rattle.zb_volume.specs.Laws.{SettledImage, OtherAreaStays, SyncForgets, SyncSettles, ReplaceKeeps, FaultLeavesEither, EarlierLeavesMore, NowCounts, EveryMoment, BytesMix, ChangeAddsImages, SyncTakesImages};

/// With nothing pending in an area, the one image is what a read gives.
pub fn settled_area_has_one_image()
    ensures { SettledImage }
{}

/// What a read gives of an area, and its images, don't depend on another area's calls.
pub fn other_areas_stay()
    ensures { OtherAreaStays }
{}

/// A sync leaves nothing pending, and forgets everything before it but what a read gives.
pub fn sync_forgets_what_was_before()
    ensures settles { SyncSettles }
    ensures forgets { SyncForgets }
{}

/// Once a synced Side has taken Main's place, nothing is pending in either.
pub fn replace_keeps_a_synced_side()
    ensures { ReplaceKeeps }
{}

/// A call that failed leaves an image from before it or one from after it.
pub fn fault_leaves_either()
    ensures { FaultLeavesEither }
{}

/// The images since a moment are among those since any earlier moment, and the images now are those
/// since now.
pub fn earlier_moments_leave_more()
    ensures earlier { EarlierLeavesMore }
    ensures now { NowCounts }
{}

/// What holds of the images at every moment of a run holds of all images since its start.
pub fn images_since_the_start_are_those_of_every_moment()
    ensures { EveryMoment }
{}

/// Bytes are mixed one by one, not write by write.
pub fn bytes_mix_one_by_one()
    ensures { BytesMix }
{}

/// A write and a cut only add images, and a sync only takes some away. So a crash in the midst of a
/// call leaves what one before it or one after it could leave. That a replace is one step is assumed
/// of the disk.
pub fn calls_have_no_moments_of_their_own()
    ensures changes { ChangeAddsImages }
    ensures syncs { SyncTakesImages }
{}
