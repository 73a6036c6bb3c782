//! What hearing keeps of a remote client. A law is the contract of a function that does nothing.

ghost use Rattle.zeo_client.specs.SyncLaws.{LoadsServe, SyncsServe};
ghost use Rattle.zeo_client.specs.Whole.{WholePiecesAreHeard};

use zeo_frames::streams_are_cut_one_way;
use zeo_reading::payloads_are_read_back;

/// Where the notices of the news of a front are heard, and then the answer to `sync`, the client may be the one at
/// its session behind that front: it knows the list as it stands.
pub fn syncs_serve()
    ensures { SyncsServe }
{}

/// Where a revision was loaded below a known front and its answer is heard, the client may be the one at its session
/// as before.
pub fn loads_serve()
    ensures { LoadsServe }
{}

/// Where the frames of messages that may come are a piece, and nothing of a frame came before, they are given and
/// heard, one after another; without memory some first ones are heard, and no more is taken from then on.
pub fn whole_pieces_are_heard()
    ensures { WholePiecesAreHeard }
{
    streams_are_cut_one_way();
    payloads_are_read_back();
}
