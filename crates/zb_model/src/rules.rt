//! What a database is told of the bytes that it keeps: how changes are merged, and which objects a
//! record names.

ghost use Rattle.std.specs.Prelude.{◌≡◌, ℕ, List, [], Some, None, Ok, Err, true, IfOk, OnErr};
ghost use Rattle.zb_model.specs.declared.refusal.Why.{Why};
ghost use Rattle.zb_model.specs.Rules.{MergeRules, no_rules};
ghost use Rattle.zb_model.specs.Merged.{IsMerged, IsNamed};

use crate::refusal::Why;
use std::alloc::{AllocError, Global};
use zb_ids::{ListOf, Oid, Text8};

/// Why bytes aren't merged.
#[derive(Debug, Drop)]
pub enum ResolveError {
    /// The rule makes nothing of them.
    Refused(Why),
    /// There is no memory.
    Memory,
}

impl From<AllocError> for ResolveError {
    ghost use Rattle.zb_model.specs.declared.rules.ResolveError.TheVariants.{Memory};

    ghost from_gives = { λ _ error. error ≡ Memory };

    fn from(_error: AllocError) -> ResolveError {
        ResolveError::Memory
    }
}

/// Rules of merging: they say which stored bytes have one, and what two changes of one object become.
pub trait Resolver {
    ghost use Rattle.zb_model.specs.Rules.{MergeRules};

    /// The rules, as functions on bytes.
    ghost rules: { Self → MergeRules };

    /// Whether stored bytes are of a class that has a rule. The one error is want of memory.
    fn has_rule(&self, alloc: Global, stored: &[u8]) -> Result<bool, AllocError>
        ensures { IfOk result (λ has. has ≡ (rules self.now).has_rule stored.now) };

    /// What the rule of the stored bytes' class makes of the object's old bytes, those that another
    /// transaction committed, and the stored ones; or why it makes nothing. Want of memory alone is
    /// free.
    fn resolve(
        &self,
        alloc: Global,
        old: &[u8],
        committed: &[u8],
        stored: &[u8],
    ) -> Result<Text8, ResolveError>
        ensures { IsMerged ((rules self.now).merged old.now committed.now stored.now) result };
}

/// Why the references of a record aren't told.
#[derive(Clone, Copy, Debug, PartialEq, Eq)]
pub enum RefsError {
    /// The bytes are no record.
    Unreadable,
    /// There is no memory.
    Memory,
}

impl From<AllocError> for RefsError {
    ghost use Rattle.zb_model.specs.declared.rules.RefsError.TheVariants.{Memory};

    ghost from_gives = { λ _ error. error ≡ Memory };

    fn from(_error: AllocError) -> RefsError {
        RefsError::Memory
    }
}

/// Which objects a record names.
pub trait Refs {
    ghost use Rattle.std.specs.Prelude.{ℕ, List, Option};

    /// The objects that bytes name, in their order, or `None` where they are no record.
    ghost named: { Self → List ℕ → Option (List ℕ) };

    /// The objects that the bytes of a record name, in their order.
    fn references(&self, alloc: Global, bytes: &[u8]) -> Result<ListOf<Oid>, RefsError>
        ensures { IsNamed (named self.now bytes.now) result };
}

/// No class has a rule of merging.
#[derive(Clone, Copy, Debug, Drop)]
pub struct NoRules;

impl Resolver for NoRules {
    ghost use Rattle.zb_model.specs.Rules.{no_rules};

    ghost rules = { λ _. no_rules };

    fn has_rule(&self, _alloc: Global, _stored: &[u8]) -> Result<bool, AllocError> {
        Ok(false)
    }

    fn resolve(
        &self,
        _alloc: Global,
        _old: &[u8],
        _committed: &[u8],
        _stored: &[u8],
    ) -> Result<Text8, ResolveError> {
        Err(ResolveError::Refused(Why::NoRule))
    }
}

/// No bytes are a record whose references are known.
#[derive(Clone, Copy, Debug, Drop)]
pub struct NoRefs;

impl Refs for NoRefs {
    ghost use Rattle.std.specs.Prelude.{None};

    ghost named = { λ _ _. None };

    fn references(&self, _alloc: Global, _bytes: &[u8]) -> Result<ListOf<Oid>, RefsError> {
        Err(RefsError::Unreadable)
    }
}
