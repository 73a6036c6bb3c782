//! Objects that take in an item or a child, and are split where they have too many.

ghost use Rattle.std.specs.Prelude.{◌≡◌, ℕ, List, ◌++◌, ◌<◌, ◌/◌, ◌∷◌, [], length, slice_get, Some, IfOk};
ghost use Rattle.btree_family.specs.Buckets.{IsBucket};
ghost use Rattle.btree_setting.specs.Inserting.{ItemsCut};
ghost use Rattle.btree_setting.specs.Changes.{AreDrawn, BranchesCut, LeafSplits, LoneSplits, IsBottom, InnerSplits, RootParts, Rise, RootRise, grown, fitted, leaf_grows, one_put, seam_first};

use crate::bottom::{Bottom, Place};
use crate::change::{Change, Sprout};
use crate::inserting::insert_branch;
use crate::pieces::{inner_node, leaf_node, number_at, one_branch};
use crate::rung::{Rung, Seam};
use btree_family::{Bucket, Item, Key};
use btree_putting::{Put, Puts, with_branches, with_items};
use btree_shapes::{Node, Shared};
use bucket_state::{Branch, Inner};
use pickle_graph::Pickle;
use std::alloc::{AllocError, Global};
use zb_ids::{ListOf, Oid};

/// The classes of new objects: of leaves, and of objects with others below them.
#[derive(Drop)]
pub(crate) struct Plain {
    pub leaf: Shared<Pickle>,
    pub inner: Shared<Pickle>,
}

/// How many items a leaf and how many children an object above it has at most, the key that is set,
/// and the classes of new objects.
#[derive(Drop)]
pub(crate) struct Terms {
    pub leaf: usize,
    pub inner: usize,
    pub key: Key,
    pub plain: Plain,
}

/// One object that changes, where nothing goes further up.
#[tactic(auto, using(crate::proofs::Numbers::drawn_empty))]
fn one_put(
    alloc: Global,
    oid: Oid,
    class: &Shared<Pickle>,
    leaves: bool,
    node: Node,
) -> Result<Change, AllocError>
    ensures change { IfOk result (λ change. change ≡ one_put oid class.now leaves node) }
    ensures drawn { IfOk result (λ change. (oids : List ℕ) → AreDrawn oids change.news) }
{
    let class = class.again()?;
    let mut olds = Puts::new(alloc);
    olds.push(Put {
        oid,
        class,
        leaves,
        node,
    })?;
    let news = Puts::new(alloc);
    Ok(Change {
        news,
        olds,
        up: None,
    })
}

/// The halves of items, and the first key of the second.
#[derive(Drop)]
struct Halves {
    key: Key,
    left: ListOf<Item>,
    right: ListOf<Item>,
}

/// The first half of a leaf's items, rounded down, and the others.
#[tactic(auto, using(crate::proofs::Buckets::halves_cut))]
fn cut_leaf(alloc: Global, leaf: &Bucket) -> Result<Halves, AllocError>
    requires { 0 < length leaf.now.items }
    ensures cut { IfOk result (λ halves.
        ItemsCut leaf.now.items halves.left (length leaf.now.items / 2) halves.key halves.right) }
    ensures left { IfOk result (λ halves. IsBucket halves.left) }
    ensures right { IfOk result (λ halves. IsBucket halves.right) }
{
    let items = leaf.items().as_slice();
    let half = items.len() / 2;
    let (front, rest) = items.split_at(half);
    let key = items[half].key.clone()?;
    let left = with_items(ListOf::new(alloc), front)?;
    let right = with_items(ListOf::new(alloc), rest)?;
    Ok(Halves { key, left, right })
}

/// A leaf that is split: its second half goes into a new leaf, which takes over its link.
#[tactic(auto, using(crate::proofs::Numbers::drawn_one))]
fn split_leaf(
    alloc: Global,
    plain: &Plain,
    bottom: &Bottom,
    oids: &[Oid],
) -> Result<Change, AllocError>
    requires { 0 < length bottom.now.leaf.items }
    ensures split { IfOk result (λ change. LeafSplits plain.now bottom.now change) }
    ensures drawn { IfOk result (λ change. AreDrawn oids.now change.news) }
{
    let Halves { key, left, right } = cut_leaf(alloc, &bottom.leaf)?;
    let new = number_at(oids, 0)?;
    let mut news = Puts::new(alloc);
    news.push(Put {
        oid: new,
        class: plain.leaf.again()?,
        leaves: false,
        node: leaf_node(alloc, right, bottom.leaf.next())?,
    })?;
    let mut olds = Puts::new(alloc);
    olds.push(Put {
        oid: bottom.oid,
        class: bottom.class.again()?,
        leaves: false,
        node: leaf_node(alloc, left, Some(new))?,
    })?;
    Ok(Change {
        news,
        olds,
        up: Some(Sprout {
            key,
            child: new,
            first: new,
        }),
    })
}

/// A leaf without a number that is split: its halves go into two new leaves, and its object gets
/// these two.
#[tactic(auto, using(crate::proofs::Numbers::drawn_two))]
fn split_lone(
    alloc: Global,
    plain: &Plain,
    bottom: &Bottom,
    oids: &[Oid],
) -> Result<Change, AllocError>
    requires { 0 < length bottom.now.leaf.items }
    ensures split { IfOk result (λ change. LoneSplits plain.now bottom.now change) }
    ensures drawn { IfOk result (λ change. AreDrawn oids.now change.news) }
{
    let Halves { key, left, right } = cut_leaf(alloc, &bottom.leaf)?;
    let new = number_at(oids, 0)?;
    let other = number_at(oids, 1)?;
    let mut news = Puts::new(alloc);
    news.push(Put {
        oid: new,
        class: plain.leaf.again()?,
        leaves: false,
        node: leaf_node(alloc, left, Some(other))?,
    })?;
    news.push(Put {
        oid: other,
        class: plain.leaf.again()?,
        leaves: false,
        node: leaf_node(alloc, right, bottom.leaf.next())?,
    })?;
    let mut olds = Puts::new(alloc);
    olds.push(Put {
        oid: bottom.oid,
        class: bottom.class.again()?,
        leaves: true,
        node: inner_node(
            alloc,
            Inner {
                head: new,
                tail: one_branch(alloc, key, other)?,
                first: new,
            },
        )?,
    })?;
    Ok(Change {
        news,
        olds,
        up: None,
    })
}

/// Whether a leaf got a new key, and has too many items.
pub(crate) fn leaf_grows(max: usize, bottom: &Bottom) -> bool
    ensures { result ≡ leaf_grows max bottom.now }
{
    bottom.adds && max < bottom.leaf.items().len()
}

/// What a leaf changes that holds the items with the one that is set.
#[tactic(auto, using(crate::proofs::Buckets::grows_some))]
pub(crate) fn grow_leaf(
    alloc: Global,
    terms: &Terms,
    bottom: &Bottom,
    oids: &[Oid],
) -> Result<Change, AllocError>
    ensures set { IfOk result
        (λ change. IsBottom terms.now.leaf terms.now.plain bottom.now change) }
    ensures drawn { IfOk result (λ change. AreDrawn oids.now change.news) }
{
    let grows = leaf_grows(terms.leaf, bottom);
    match bottom.place {
        Place::Alone => {
            let node = Node::Leaf(bottom.leaf.again()?);
            one_put(alloc, bottom.oid, &bottom.class, false, node)
        }
        Place::Below => {
            if !grows {
                let node = Node::Leaf(bottom.leaf.again()?);
                return one_put(alloc, bottom.oid, &bottom.class, false, node);
            }
            split_leaf(alloc, &terms.plain, bottom, oids)
        }
        Place::Lone => {
            if !grows {
                let node = Node::Lone(bottom.leaf.again()?);
                return one_put(alloc, bottom.oid, &bottom.class, false, node);
            }
            split_lone(alloc, &terms.plain, bottom, oids)
        }
    }
}

/// The branches of an object with a new child among them.
fn grown(alloc: Global, key: &Key, rung: &Rung, up: &Sprout) -> Result<ListOf<Branch>, AllocError>
    ensures { IfOk result (λ tail. tail ≡ grown key.now rung.now up.now) }
{
    let branch = Branch {
        key: up.key.clone()?,
        child: up.child,
    };
    insert_branch(alloc, rung.inner.tail.as_slice(), key, branch)
}

/// A separator with the child behind it, and the branches before and behind it.
#[derive(Drop)]
struct Parted {
    left: ListOf<Branch>,
    middle: Branch,
    right: ListOf<Branch>,
}

/// The branches in two halves, and the one between them.
#[tactic(auto, using(crate::proofs::Placing::branches_parted))]
fn part(alloc: Global, tail: ListOf<Branch>) -> Result<Parted, AllocError>
    requires { 0 < length tail }
    ensures { IfOk result (λ parted. BranchesCut tail parted.left parted.middle parted.right) }
{
    let half = (tail.len() - 1) / 2;
    let (front, rest) = tail.as_slice().split_at(half);
    let [middle, behind @ ..] = rest else {
        return Err(AllocError);
    };
    let left = with_branches(ListOf::new(alloc), front)?;
    let right = with_branches(ListOf::new(alloc), behind)?;
    let middle = Branch {
        key: middle.key.clone()?,
        child: middle.child,
    };
    Ok(Parted {
        left,
        middle,
        right,
    })
}

/// The first leaf below the child that begins a new half.
fn seam_first(seam: Seam, up: &Sprout) -> Oid
    ensures { result ≡ seam_first seam up.now }
{
    match seam {
        Seam::New => up.first,
        Seam::Old(first) => first,
        Seam::Beside(child) => child,
    }
}

/// A change with an object that is put at its number.
fn with_old(
    alloc: Global,
    rung: &Rung,
    leaves: bool,
    inner: Inner,
    olds: Puts,
) -> Result<Puts, AllocError>
    ensures { IfOk result (λ all. all ≡ olds
        ++ record { oid = rung.now.oid; class = rung.now.class; leaves = leaves; node = Node.Inner inner } ∷ []) }
{
    let mut olds = olds;
    let class = rung.class.again()?;
    olds.push(Put {
        oid: rung.oid,
        class,
        leaves,
        node: inner_node(alloc, inner)?,
    })?;
    Ok(olds)
}

/// New objects, and one more with others below it.
#[tactic(auto, using(crate::proofs::Numbers::drawn_more))]
fn with_new(
    alloc: Global,
    plain: &Plain,
    leaves: bool,
    inner: Inner,
    oid: Oid,
    oids: &[Oid],
    news: Puts,
) -> Result<Puts, AllocError>
    requires drawn { AreDrawn oids.now news }
    requires next { slice_get oids.now (length news) ≡ Some oid }
    ensures all { IfOk result (λ all. all ≡ news
        ++ record { oid = oid; class = plain.now.inner; leaves = leaves; node = Node.Inner inner } ∷ []) }
    ensures drawn { IfOk result (λ all. AreDrawn oids.now all) }
{
    let mut news = news;
    let class = plain.inner.again()?;
    news.push(Put {
        oid,
        class,
        leaves,
        node: inner_node(alloc, inner)?,
    })?;
    Ok(news)
}

/// An object that gets a child and is not split.
fn fit(
    alloc: Global,
    rung: &Rung,
    tail: ListOf<Branch>,
    news: Puts,
    olds: Puts,
) -> Result<Change, AllocError>
    ensures { IfOk result (λ change. change ≡ fitted rung.now tail news olds) }
{
    let inner = Inner {
        head: rung.inner.head,
        tail,
        first: rung.inner.first,
    };
    let olds = with_old(alloc, rung, rung.leaves, inner, olds)?;
    Ok(Change {
        news,
        olds,
        up: None,
    })
}

/// An object that is split: what is behind the separator in the middle goes into a new object.
fn split_inner(
    alloc: Global,
    terms: &Terms,
    rung: &Rung,
    up: Sprout,
    tail: ListOf<Branch>,
    news: Puts,
    olds: Puts,
    oids: &[Oid],
) -> Result<Change, AllocError>
    requires some { 0 < length tail }
    requires drawn { AreDrawn oids.now news }
    ensures split { IfOk result
        (λ change. InnerSplits terms.now.plain rung.now up tail news olds change) }
    ensures drawn { IfOk result (λ change. AreDrawn oids.now change.news) }
{
    let Parted {
        left,
        middle,
        right,
    } = part(alloc, tail)?;
    let new = number_at(oids, news.len())?;
    let first = seam_first(rung.seam, &up);
    let sibling = Inner {
        head: middle.child,
        tail: right,
        first,
    };
    let news = with_new(alloc, &terms.plain, rung.leaves, sibling, new, oids, news)?;
    let inner = Inner {
        head: rung.inner.head,
        tail: left,
        first: rung.inner.first,
    };
    let olds = with_old(alloc, rung, rung.leaves, inner, olds)?;
    let up = Some(Sprout {
        key: middle.key,
        child: new,
        first,
    });
    Ok(Change { news, olds, up })
}

/// A root that is split: its halves go into two new objects, and it keeps these two.
fn split_root(
    alloc: Global,
    terms: &Terms,
    rung: &Rung,
    up: Sprout,
    tail: ListOf<Branch>,
    news: Puts,
    olds: Puts,
    oids: &[Oid],
) -> Result<Change, AllocError>
    requires some { 0 < length tail }
    requires drawn { AreDrawn oids.now news }
    ensures split { IfOk result
        (λ change. RootParts terms.now.plain rung.now up tail news olds change) }
    ensures drawn { IfOk result (λ change. AreDrawn oids.now change.news) }
{
    let Parted {
        left,
        middle,
        right,
    } = part(alloc, tail)?;
    let new = number_at(oids, news.len())?;
    let lower = Inner {
        head: rung.inner.head,
        tail: left,
        first: rung.inner.first,
    };
    let news = with_new(alloc, &terms.plain, rung.leaves, lower, new, oids, news)?;
    let other = number_at(oids, news.len())?;
    let upper = Inner {
        head: middle.child,
        tail: right,
        first: seam_first(rung.seam, &up),
    };
    let news = with_new(alloc, &terms.plain, rung.leaves, upper, other, oids, news)?;
    let root = Inner {
        head: new,
        tail: one_branch(alloc, middle.key, other)?,
        first: rung.inner.first,
    };
    let olds = with_old(alloc, rung, false, root, olds)?;
    Ok(Change {
        news,
        olds,
        up: None,
    })
}

/// What an object below the root changes, above a change below it.
#[tactic(auto, using(crate::proofs::Placing::grown_some))]
pub(crate) fn rise(
    alloc: Global,
    terms: &Terms,
    rung: &Rung,
    below: Change,
    oids: &[Oid],
) -> Result<Change, AllocError>
    requires { AreDrawn oids.now below.news }
    ensures rise { IfOk result
        (λ change. Rise terms.now.inner terms.now.key terms.now.plain rung.now below change) }
    ensures drawn { IfOk result (λ change. AreDrawn oids.now change.news) }
{
    let Change { news, olds, up } = below;
    let Some(up) = up else {
        return Ok(Change {
            news,
            olds,
            up: None,
        });
    };
    let tail = grown(alloc, &terms.key, rung, &up)?;
    if tail.len() < terms.inner {
        return fit(alloc, rung, tail, news, olds);
    }
    split_inner(alloc, terms, rung, up, tail, news, olds, oids)
}

/// What the root changes, above a change below it.
#[tactic(auto, using(crate::proofs::Placing::grown_some))]
pub(crate) fn rise_root(
    alloc: Global,
    terms: &Terms,
    rung: &Rung,
    below: Change,
    oids: &[Oid],
) -> Result<Change, AllocError>
    requires { AreDrawn oids.now below.news }
    ensures rise { IfOk result
        (λ change. RootRise terms.now.inner terms.now.key terms.now.plain rung.now below change) }
    ensures drawn { IfOk result (λ change. AreDrawn oids.now change.news) }
{
    let Change { news, olds, up } = below;
    let Some(up) = up else {
        return Ok(Change {
            news,
            olds,
            up: None,
        });
    };
    let tail = grown(alloc, &terms.key, rung, &up)?;
    if tail.len() < terms.inner {
        return fit(alloc, rung, tail, news, olds);
    }
    split_root(alloc, terms, rung, up, tail, news, olds, oids)
}
