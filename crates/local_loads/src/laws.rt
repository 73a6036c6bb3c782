//! Laws of local clients.

ghost use Rattle.local_loads.specs.Laws.{AnswersEndAsSteps, RefusalsAreTheHubs, StepsKeepClients};

use zb_model::{Refs, Resolver, Store};

/// Whatever a step of the hub is, and whichever session makes it, a client that may have been told of a view at its
/// session before it may have been told of that behind it: what stands in the hub is later than the view.
pub fn steps_keep_clients<St: Store, R: Resolver, F: Refs>()
    ensures { StepsKeepClients St.told St.lasts St.stands R.rules F.named }
{}

/// Over a store that tells, what the hub refuses is none of what a connection refuses by itself: a call is refused
/// exactly so. And whatever the store tells, a call ends as its step did: it is answered, or refused otherwise than for
/// a failure, or reading failed, memory ran out or the store failed in both.
pub fn answers_are_the_hubs<St: Store, R: Resolver, F: Refs>()
    ensures refusals { RefusalsAreTheHubs St.told St.lasts St.stands R.rules F.named }
    ensures endings { AnswersEndAsSteps }
{}
