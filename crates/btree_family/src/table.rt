//! The classes of BTrees as one table.

ghost use Rattle.std.specs.Prelude.{◌≡◌, map, IfSome};
ghost use Rattle.pickle_graph.specs.Graph.{IsGlobal};
ghost use Rattle.std.specs.Option.{option_copied, option_map};
ghost use Rattle.btree_family.specs.Classes.{class_seen, class_in, classes, leaf_in, kind_in};
ghost use Rattle.btree_family.specs.Classes;

/// What a class is.
#[derive(Clone, Copy, Debug, PartialEq, Eq)]
pub enum Kind {
    /// Keys with values, in one object.
    Bucket,
    /// Keys alone, in one object.
    Set,
    /// Keys with values, over as many objects as they take.
    Tree,
    /// Keys alone, over as many objects as they take.
    TreeSet,
}

/// What the keys of a class are. The BTrees package has a letter for each: O, I and L.
#[derive(Clone, Copy, Debug, PartialEq, Eq)]
pub enum KeyKind {
    /// Texts, bytes or whole numbers, all of one kind.
    Object,
    /// Signed numbers of 32 bits.
    Int32,
    /// Signed numbers of 64 bits.
    Int64,
}

/// What the values of a class are, by the same letters. A class without values has one too.
#[derive(Clone, Copy, Debug, PartialEq, Eq)]
pub enum ValueKind {
    /// Anything that can be written.
    Object,
    /// Signed numbers of 32 bits.
    Int32,
    /// Signed numbers of 64 bits.
    Int64,
}

/// A class: the module and the name under which it is known, and what its objects hold.
#[derive(Clone, Copy, Debug, PartialEq, Eq)]
pub struct ClassRow {
    pub module: &'static str,
    pub name: &'static str,
    pub kind: Kind,
    pub key: KeyKind,
    pub value: ValueKind,
}

/// The four classes of each family. In the BTrees package a family's letters stand in all its names.
macro_rules! families {
    ($($letters:literal $key:ident $value:ident,)*) => {
        [$(
            ClassRow {
                module: concat!("BTrees.", $letters, "BTree"),
                name: concat!($letters, "Bucket"),
                kind: Kind::Bucket,
                key: KeyKind::$key,
                value: ValueKind::$value,
            },
            ClassRow {
                module: concat!("BTrees.", $letters, "BTree"),
                name: concat!($letters, "Set"),
                kind: Kind::Set,
                key: KeyKind::$key,
                value: ValueKind::$value,
            },
            ClassRow {
                module: concat!("BTrees.", $letters, "BTree"),
                name: concat!($letters, "BTree"),
                kind: Kind::Tree,
                key: KeyKind::$key,
                value: ValueKind::$value,
            },
            ClassRow {
                module: concat!("BTrees.", $letters, "BTree"),
                name: concat!($letters, "TreeSet"),
                kind: Kind::TreeSet,
                key: KeyKind::$key,
                value: ValueKind::$value,
            },
        )*]
    };
}

/// The twenty-eight classes: seven families of the BTrees package, each with four classes.
static CLASSES: [ClassRow; 28] = families! {
    "OO" Object Object,
    "OI" Object Int32,
    "IO" Int32 Object,
    "II" Int32 Int32,
    "OL" Object Int64,
    "LO" Int64 Object,
    "LL" Int64 Int64,
};

/// Whether a class is known by this module and this name.
fn is_known_as(row: &ClassRow, module_name: &[u8], class_name: &[u8]) -> bool
    ensures { result ≡ Classes.is_known_as module_name.now class_name.now (class_seen row.now) }
{
    row.module.as_bytes() == module_name && row.name.as_bytes() == class_name
}

/// The first of these classes that is known by this module and this name.
fn find_class<'a>(
    rows: &'a [ClassRow],
    module_name: &[u8],
    class_name: &[u8],
) -> Option<&'a ClassRow>
    ensures { option_map class_seen (option_copied result)
        ≡ class_in (map class_seen rows.now) module_name.now class_name.now }
{
    for row in rows {
        if is_known_as(row, module_name, class_name) {
            return Some(row);
        }
    }
    None
}

/// The class that this module has under this name, where the table has it. Both are taken as bytes. It
/// takes no memory.
pub fn row_of(module_name: &[u8], class_name: &[u8]) -> Option<&'static ClassRow>
    ensures row { option_map class_seen (option_copied result) ≡ class_in classes module_name.now class_name.now }
    // Module and name are lines that a global can have.
    ensures global { IfSome result (λ row. IsGlobal row.now.module.now row.now.name.now) }
{
    find_class(&CLASSES, module_name, class_name)
}

/// What the leaves of such objects are.
fn leaf_kind(kind: Kind) -> Kind
    ensures { result ≡ Classes.leaf_kind kind }
{
    match kind {
        Kind::Bucket | Kind::Tree => Kind::Bucket,
        Kind::Set | Kind::TreeSet => Kind::Set,
    }
}

/// The first of these classes that is of this module and kind.
fn find_kind<'a>(rows: &'a [ClassRow], module_name: &[u8], kind: Kind) -> Option<&'a ClassRow>
    ensures { option_map class_seen (option_copied result) ≡ kind_in (map class_seen rows.now) module_name.now kind }
{
    for row in rows {
        if row.module.as_bytes() == module_name && row.kind == kind {
            return Some(row);
        }
    }
    None
}

/// The first of these classes that the leaves of a class are of.
fn find_leaf<'a>(rows: &'a [ClassRow], class: &ClassRow) -> Option<&'a ClassRow>
    ensures { option_map class_seen (option_copied result) ≡ leaf_in (map class_seen rows.now) (class_seen class.now) }
{
    find_kind(rows, class.module.as_bytes(), leaf_kind(class.kind))
}

/// The class of the leaves of a tree; of a bucket or a set it is the class itself. It is `None` where the
/// table has no class of this module and that kind.
pub fn leaf_of(class: &ClassRow) -> Option<&'static ClassRow>
    ensures row { option_map class_seen (option_copied result) ≡ leaf_in classes (class_seen class.now) }
    ensures global { IfSome result (λ row. IsGlobal row.now.module.now row.now.name.now) }
{
    find_leaf(&CLASSES, class)
}
