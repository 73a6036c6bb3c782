//! Workers, and what gives them.

ghost use Rattle.std.specs.Prelude.{◌≡◌, List, [], ◌∷◌, ◌++◌, drop, IfSome, IfNone};

/// Work for a thread, which ends with something to hand back.
pub trait Worker: Send + Drop {
    /// What is handed back.
    type Done: Send + Drop;

    /// What may be handed back by a worker as it was given.
    ghost gives: { Self → Self.Done → Type 0 };

    /// Does the work, for which it may wait, and hands back what came of it.
    fn work(self) -> Self::Done
        ensures { gives self result };
}

/// Gives workers, one after another, and takes back what they hand back, in the order in which they
/// were given.
pub trait Feeder: Drop {
    /// The workers.
    type W: Worker;

    /// The workers that were given and not taken back, in their order.
    ghost given: { Self → List Self.W };

    /// The feeder has answered that there is no further worker.
    ghost has_ended: { Self → Type 0 };

    /// How the feeder may be later than it was once.
    ghost later: { Self → Self → Type 0 };

    /// The next worker, for which it may wait, or `None` where there is no further one.
    fn next(&mut self) -> Option<Self::W>
        ensures some { IfSome result (λ worker. given self.new ≡ given self.old ++ worker ∷ []) }
        ensures none { IfNone result (given self.new ≡ given self.old) }
        ensures ended { IfNone result (has_ended self.new) }
        ensures later { later self.old self.new };

    /// Takes back what the first of the workers that were given has handed back.
    fn take_back(&mut self, done: <Self::W as Worker>::Done)
        requires { (worker : Self.W) × (others : List Self.W)
            × (given self.old ≡ worker ∷ others) × Self.W.gives worker done }
        ensures given { given self.new ≡ drop 1 (given self.old) }
        ensures ended { has_ended self.old → has_ended self.new }
        ensures later { later self.old self.new };

    /// A feeder is later than itself.
    ghost later_is_reflexive: { (feeder : Self) → later feeder feeder };

    /// What is later than a later feeder is later.
    ghost later_is_transitive: { (first second third : Self)
        → later first second → later second third → later first third };
}
