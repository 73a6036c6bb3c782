//! What a check of a tree says.

ghost use Rattle.std.specs.Prelude.{◌≡◌};
ghost use Rattle.btree_checking.specs.Names.{name_of};

use zb_ids::Oid;

/// How an object of a tree breaks a rule. The rules are tested at each object in this order,
/// `Links` after all others.
#[derive(Clone, Copy, Debug, PartialEq, Eq)]
pub enum Rule {
    /// There is no content for the object.
    NodeMissing,
    /// The object was visited before.
    Shared,
    /// The object has no state of the tree's class or of the class of its leaves. Or it stands
    /// below the root and is a tree without items, or one whose leaf is no object of its own.
    NotATree,
    /// A key or separator is of another kind than those of the objects before it.
    Keys,
    /// A key or separator is not within the separators above it.
    Bounds,
    /// A leaf is not as deep as the first leaf.
    Depth,
    /// An object with others below it does not name the first leaf below it; or, where all do, a
    /// leaf does not name the next leaf, or the last one names one.
    Links,
}

impl Rule {
    /// The rule's name, which is that of its variant.
    pub fn name(self) -> &'static str
        ensures { result.now ≡ name_of self }
    {
        match self {
            Rule::NodeMissing => "NodeMissing",
            Rule::Shared => "Shared",
            Rule::NotATree => "NotATree",
            Rule::Keys => "Keys",
            Rule::Bounds => "Bounds",
            Rule::Depth => "Depth",
            Rule::Links => "Links",
        }
    }
}

/// What a check of a tree says.
#[derive(Clone, Copy, Debug, PartialEq, Eq)]
pub enum Verdict {
    /// The tree is sound.
    Sound {
        /// How many items its mapping has.
        items: u64,
        /// How many objects it has.
        nodes: u64,
    },
    /// The tree is not sound.
    Broken {
        /// The first object, in the order of the walk, that breaks a rule.
        oid: Oid,
        /// The first rule that it breaks.
        rule: Rule,
    },
}
