//! Laws of files. Each function does nothing: its contract is the law.

ghost use Rattle.fs_records.specs.Laws.{OneList, OneReading, ListOrDamaged, ListOrNoFile, DamagedOrNoFile, OneDamage, AlwaysOne, IndexGivesBelow, ListIsDatabase, RecordsAreRevisions, StartsAreTheirs, BlockIsRead, VoteIsCut};
ghost use Rattle.fs_records.specs.Indexed.{NewestIsTheLastRecord, StandsWhereARecordWasRead};
ghost use Rattle.fs_records.specs.Listed.{ReadingIs, ReadingStands};
ghost use Rattle.fs_records.specs.Lookups.{RevisionsAreRead, SerialsAreRead, NextOnesAreRead};

/// Bytes stand for at most one list, with a tail cut off at one place at most, and there is one
/// way to read them.
pub fn one_list()
    ensures list { OneList }
    ensures reading { OneReading }
{}

/// No two of these hold of the same bytes: they stand for a list, they are damaged, they are no
/// file.
pub fn never_both()
    ensures list_or_damaged { ListOrDamaged }
    ensures list_or_no_file { ListOrNoFile }
    ensures damaged_or_no_file { DamagedOrNoFile }
{}

/// Fewer than 2^64 bytes are damaged at one place at most, by one rule.
pub fn one_damage()
    ensures { OneDamage }
{}

/// Fewer than 2^64 bytes stand for a list, or are no file, or are damaged somewhere.
pub fn always()
    ensures { AlwaysOne }
{}

/// What an index gives of an object below a front is the place of the object's last record in a
/// transaction below it.
pub fn below_is()
    ensures { IndexGivesBelow }
{}

/// The list that bytes stand for is a database: its numbers rise from above 0 to below 2^64-1, and
/// no transaction changes an object twice.
pub fn list_is_a_database()
    ensures { ListIsDatabase }
{}

/// What was read of a file agrees with the list that it stands for: the last record of an object
/// below a front is its last revision there, and the places of the transactions have the list's
/// numbers.
pub fn records_are_revisions()
    ensures records { RecordsAreRevisions }
    ensures transactions { StartsAreTheirs }
{}

/// What was read of a file, with a next transaction's text behind it, stands for the list with that
/// transaction; with one whose status is that of a vote, for the list as it was, and that one is cut
/// off.
pub fn written_blocks_are_read()
    ensures block { BlockIsRead }
    ensures vote { VoteIsCut }
{}

/// What an index of a file looks up is what the list says: the last place of an object below a front
/// is that of its last revision there, and the content of the record at that place is the
/// revision's; its last place of all has the serial of its last revision; and the first place that
/// isn't below a front has the serial of the next one.
pub fn lookups_are_revisions()
    ensures revision { RevisionsAreRead }
    ensures serial { SerialsAreRead }
    ensures next { NextOnesAreRead }
{}

/// What bytes stand for as a file is a function of them: where fewer than 2^64 bytes stand for
/// something, it is what that function gives, and they stand for what it gives.
pub fn bytes_have_one_reading()
    ensures only { ReadingIs }
    ensures stands { ReadingStands }
{}

/// An index of what was read gives, as an object's newest place, that of its last record.
pub fn newest_is_the_last_record()
    ensures { NewestIsTheLastRecord }
{}

/// An index of what was read keeps a record of an object at a place exactly where one was read.
pub fn stands_where_a_record_was_read()
    ensures { StandsWhereARecordWasRead }
{}
