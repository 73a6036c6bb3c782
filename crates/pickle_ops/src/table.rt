//! The opcodes as one table.

ghost use Rattle.std.specs.Prelude.{◌≡◌};
ghost use Rattle.pickle_ops.specs.Rows.{row_in, op_in};

/// What an opcode does. The names are those of Python's `pickletools`, written as Rust writes names.
#[derive(Clone, Copy, Debug, PartialEq, Eq)]
pub enum Op {
    /// Names the version of the protocol.
    Proto,
    /// Ends the pickle.
    Stop,
    /// Pushes a mark.
    Mark,
    /// Takes the top from the stack.
    Pop,
    /// Takes all down to the last mark from the stack.
    PopMark,
    /// Pushes the top again.
    Dup,
    /// Pushes None.
    None,
    /// Pushes True.
    NewTrue,
    /// Pushes False.
    NewFalse,
    /// Pushes a signed number of four bytes.
    BinInt,
    /// Pushes a number of one byte.
    BinInt1,
    /// Pushes a number of two bytes.
    BinInt2,
    /// Pushes a number of up to 255 bytes in two's complement.
    Long1,
    /// Pushes a number of more bytes in two's complement.
    Long4,
    /// Pushes a float.
    BinFloat,
    /// Pushes bytes.
    BinBytes,
    /// Pushes up to 255 bytes.
    ShortBinBytes,
    /// Pushes a string of Python 2.
    BinString,
    /// Pushes a string of Python 2 of up to 255 bytes.
    ShortBinString,
    /// Pushes a text.
    BinUnicode,
    /// Pushes the empty tuple.
    EmptyTuple,
    /// Makes a tuple of the values above the last mark.
    Tuple,
    /// Makes a tuple of one value.
    Tuple1,
    /// Makes a tuple of two values.
    Tuple2,
    /// Makes a tuple of three values.
    Tuple3,
    /// Pushes an empty list.
    EmptyList,
    /// Appends a value to a list.
    Append,
    /// Appends the values above the last mark to a list.
    Appends,
    /// Pushes an empty dictionary.
    EmptyDict,
    /// Sets one key of a dictionary.
    SetItem,
    /// Sets the keys above the last mark of a dictionary.
    SetItems,
    /// Pushes the class or function that a module has under a name.
    Global,
    /// Calls a callee with arguments.
    Reduce,
    /// Makes an object of a class by its `__new__`.
    NewObj,
    /// Gives an object its state.
    Build,
    /// Pushes the object that a persistent id names.
    BinPersid,
    /// Remembers the top under a number of one byte.
    BinPut,
    /// Remembers the top under a number of four bytes.
    LongBinPut,
    /// Pushes what is remembered under a number of one byte.
    BinGet,
    /// Pushes what is remembered under a number of four bytes.
    LongBinGet,
}

/// What stands behind an opcode. Numbers and lengths have their lowest byte first.
#[derive(Clone, Copy, Debug, PartialEq, Eq)]
pub enum Kind {
    /// Nothing.
    Nothing,
    /// One byte, the version of a protocol, of which 0 to 3 are read.
    Version,
    /// A number of one byte.
    Unsigned1,
    /// A number of two bytes.
    Unsigned2,
    /// A number of four bytes.
    Unsigned4,
    /// A number of four bytes in two's complement.
    Signed4,
    /// The eight bytes of a float, the highest first.
    Float8,
    /// A length of one byte, and so many bytes.
    Counted1,
    /// A length of four bytes, and so many bytes.
    Counted4,
    /// A length of four bytes in two's complement, which is not negative, and so many bytes.
    SignedCounted4,
    /// A length of four bytes, and so many bytes of UTF-8.
    Text4,
    /// Two lines of UTF-8, each ended by a newline: a module and a name.
    TwoLines,
}

/// One opcode: its byte, what it does and what stands behind it.
#[derive(Clone, Copy, Debug, PartialEq, Eq)]
pub struct Row {
    pub byte: u8,
    pub op: Op,
    pub kind: Kind,
}

/// A table of `N` opcodes.
#[derive(Clone, Copy, Debug)]
pub struct OpTable<const N: usize> {
    pub rows: [Row; N],
}

/// The rows of the table, handed to the macro `$to` behind the words `$with`.
macro_rules! op_rows {
    ($to:ident $($with:tt)*) => {
        $to! {
            [$($with)*]
            0x80 Proto Version,
            0x2e Stop Nothing,
            0x28 Mark Nothing,
            0x30 Pop Nothing,
            0x31 PopMark Nothing,
            0x32 Dup Nothing,
            0x4e None Nothing,
            0x88 NewTrue Nothing,
            0x89 NewFalse Nothing,
            0x4a BinInt Signed4,
            0x4b BinInt1 Unsigned1,
            0x4d BinInt2 Unsigned2,
            0x8a Long1 Counted1,
            0x8b Long4 SignedCounted4,
            0x47 BinFloat Float8,
            0x42 BinBytes Counted4,
            0x43 ShortBinBytes Counted1,
            0x54 BinString SignedCounted4,
            0x55 ShortBinString Counted1,
            0x58 BinUnicode Text4,
            0x29 EmptyTuple Nothing,
            0x74 Tuple Nothing,
            0x85 Tuple1 Nothing,
            0x86 Tuple2 Nothing,
            0x87 Tuple3 Nothing,
            0x5d EmptyList Nothing,
            0x61 Append Nothing,
            0x65 Appends Nothing,
            0x7d EmptyDict Nothing,
            0x73 SetItem Nothing,
            0x75 SetItems Nothing,
            0x63 Global TwoLines,
            0x52 Reduce Nothing,
            0x81 NewObj Nothing,
            0x62 Build Nothing,
            0x51 BinPersid Nothing,
            0x71 BinPut Unsigned1,
            0x72 LongBinPut Unsigned4,
            0x68 BinGet Unsigned1,
            0x6a LongBinGet Unsigned4,
        }
    };
}

/// The rows as values.
macro_rules! row_values {
    ([] $($byte:literal $op:ident $kind:ident,)*) => {
        [$(Row { byte: $byte, op: Op::$op, kind: Kind::$kind }),*]
    };
}

/// The row of the byte `$seen`.
macro_rules! row_arms {
    ([$seen:ident] $($byte:literal $op:ident $kind:ident,)*) => {
        match $seen {
            $($byte => Some(Row { byte: $byte, op: Op::$op, kind: Kind::$kind }),)*
            _ => None,
        }
    };
}

/// The forty opcodes. Bytes and arguments are those of Python's `pickletools`.
pub const TABLE: OpTable<40> = OpTable {
    rows: op_rows!(row_values),
};

/// The opcode of a byte, where the table has one.
pub fn op_of(byte: u8) -> Option<Op>
    ensures { result ≡ op_in (row_in TABLE.rows byte) }
{
    match row_of(byte) {
        Some(row) => Some(row.op),
        None => None,
    }
}

/// The row of a byte, where the table has one.
#[inline(always)]
pub(crate) fn row_of(byte: u8) -> Option<Row>
    ensures { result ≡ row_in TABLE.rows byte }
{
    op_rows!(row_arms byte)
}

impl<const N: usize> OpTable<N> {
    /// The first row of a byte, where there is one.
    pub fn row(&self, byte: u8) -> Option<Row>
        ensures { result ≡ row_in self.now.rows byte }
    {
        for row in &self.rows {
            if row.byte == byte {
                return Some(*row);
            }
        }
        None
    }
}
