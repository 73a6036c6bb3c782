//! Laws of records. A law is the contract of a function that does nothing.

ghost use Rattle.zb_record.specs.Alike.{AlikeIsKept};
ghost use Rattle.zb_record.specs.Laws.{ReadIsRecord, RecordIsRead, WrittenRecordReadsBack};

use pickle_ops::spelled_tokens_are_read;
use pickle_references::references_are_those_of_nodes;
use pickle_round_trip::{
    written_pickles_read_anywhere, written_pickles_read_back, written_pickles_read_behind,
};

/// What [`read_record`](crate::read_record) reads is two pickles and nothing else, of which the
/// first is a class and the second is read behind what the first left; what
/// [`references`](crate::references) tells are the oids that the references among the nodes of the
/// first name, and then those among the nodes that the second made. All such bytes are read.
pub fn records_are_two_pickles()
    ensures record { ReadIsRecord }
    ensures read { RecordIsRead }
{
    references_are_those_of_nodes();
}

/// What [`write_record`](crate::write_record) writes reads back as a record of the same two graphs,
/// where each text makes at most [`NODE_LIMIT`](pickle_reading::NODE_LIMIT) nodes and the references
/// of both name something.
pub fn written_records_read_back()
    ensures { WrittenRecordReadsBack }
{
    written_pickles_read_anywhere();
    written_pickles_read_behind();
    references_are_those_of_nodes();
}

/// Where a record can be written and reads back, so does one whose state is the same but that other
/// eight bytes stand in the place of eight, as the numbers of other objects do in references. Its
/// class reads as the same graph, and its state as that which was written.
pub fn alike_records_are_kept()
    ensures { AlikeIsKept }
{
    spelled_tokens_are_read();
    written_pickles_read_back();
    written_pickles_read_anywhere();
    written_pickles_read_behind();
    references_are_those_of_nodes();
}
