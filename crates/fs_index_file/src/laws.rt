//! Laws of index files. Each function does nothing: its contract is the law.

ghost use Rattle.fs_index_file.specs.Laws.{ClosedIsHonest, KeptIsHint, KeptIsHonest, WrittenIsRead};

/// An index file says the entries that it was written with.
pub fn written_files_are_read()
    ensures { WrittenIsRead }
{}

/// The index file of what Main has up to an end is honest, and may be believed; a closed one is honest
/// too.
pub fn kept_files_are_honest()
    ensures kept { KeptIsHonest }
    ensures believed { KeptIsHint }
    ensures closed { ClosedIsHonest }
{}
