//! Laws of the table and of tokens. A law is the contract of a function that does nothing.

ghost use Rattle.std.specs.Prelude.{IsTrue};
ghost use Rattle.pickle_ops.specs.declared.table.TheConstants.{TABLE};
ghost use Rattle.pickle_ops.specs.Rows.{no_byte_twice};
ghost use Rattle.pickle_ops.specs.Laws.{ByteStandsOnce, ByteLeadsToRow, SpelledIsRead, ShortIsCut};

/// No byte stands twice in the table, so a byte leads to each row that has it.
pub fn bytes_stand_once()
    ensures tested { IsTrue (no_byte_twice TABLE.rows) }
    ensures once { ByteStandsOnce }
    ensures found { ByteLeadsToRow }
{}

/// What spells a token is read as that token, at each place and whatever follows it; and what stops
/// before the token's end is refused as cut.
pub fn spelled_tokens_are_read()
    ensures read { SpelledIsRead }
    ensures cut { ShortIsCut }
{}
