//! The rules that the program has.

ghost use Rattle.std.specs.Prelude.{◌≡◌, IfOk};
ghost use Rattle.zb_resolve.specs.Resolution.{has_stock_rule};

use crate::merging::merge_with;
use crate::rule::rule_of;
use std::alloc::{AllocError, Global};
use zb_ids::{ListOf, Oid, Text8};
use zb_model::{Refs, RefsError, ResolveError, Resolver, Why};
use zb_record::{RecordError, read_record, references};

/// Whether bytes are a record of a class that has a rule.
fn has_rule(alloc: Global, bytes: &[u8]) -> Result<bool, AllocError>
    ensures { IfOk result (λ has. has ≡ has_stock_rule bytes.now) }
{
    match read_record(alloc, bytes) {
        Ok(object) => Ok(rule_of(&object.class).is_some()),
        Err(RecordError::Memory) => Err(AllocError),
        Err(RecordError::Pickle(_)) => Ok(false),
        Err(RecordError::Rest { at: _ }) => Ok(false),
        Err(RecordError::BadClass) => Ok(false),
    }
}

/// The rules of merging of the BTrees package: of its twenty-eight classes, and of `BTrees.Length.Length`.
///
/// Buckets and sets are merged as [`merge`](bucket_merge::merge) says, and trees whose items stand in their own state
/// the same way, one without items being an empty bucket. A tree with others below it is `NotEmbedded`. A counter
/// becomes committed and stored less old, or `Overflow` where no signed number of 128 bits is that. Before that
/// `Unreadable` is named where one of the three isn't a record of the stored one's class with a state of it, or is
/// too deep to write, or where their keys aren't all of one kind. What is made has the stored record's class.
#[derive(Clone, Copy, Debug, Drop)]
pub struct StockResolver;

impl Resolver for StockResolver {
    ghost use Rattle.zb_resolve.specs.Stock.{stock_rules};

    ghost rules = { λ _. stock_rules };

    fn has_rule(&self, alloc: Global, stored: &[u8]) -> Result<bool, AllocError> {
        has_rule(alloc, stored)
    }

    fn resolve(
        &self,
        alloc: Global,
        old: &[u8],
        committed: &[u8],
        stored: &[u8],
    ) -> Result<Text8, ResolveError> {
        match read_record(alloc, stored) {
            Ok(object) => merge_with(alloc, object, old, committed, stored),
            Err(RecordError::Memory) => Err(ResolveError::Memory),
            Err(RecordError::Pickle(_)) => Err(ResolveError::Refused(Why::NoRule)),
            Err(RecordError::Rest { at: _ }) => Err(ResolveError::Refused(Why::NoRule)),
            Err(RecordError::BadClass) => Err(ResolveError::Refused(Why::NoRule)),
        }
    }
}

/// A record names the objects of its references: those of its class before those of its state, each in the order of
/// their tokens.
#[derive(Clone, Copy, Debug, Drop)]
pub struct StockRefs;

impl Refs for StockRefs {
    ghost use Rattle.zb_resolve.specs.References.{stock_references};

    ghost named = { λ _. stock_references };

    fn references(&self, alloc: Global, bytes: &[u8]) -> Result<ListOf<Oid>, RefsError> {
        match references(alloc, bytes) {
            Ok(oids) => Ok(oids),
            Err(RecordError::Memory) => Err(RefsError::Memory),
            Err(RecordError::Pickle(_)) => Err(RefsError::Unreadable),
            Err(RecordError::Rest { at: _ }) => Err(RefsError::Unreadable),
            Err(RecordError::BadClass) => Err(RefsError::Unreadable),
        }
    }
}
