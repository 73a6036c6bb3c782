//! Laws of the machine.

ghost use Rattle.zodb_core.specs.History.{CountsGoOn, HistoriesGoOn, MachinesGoOn};
ghost use Rattle.zodb_core.specs.History.{PrefixesAreLegal, RepliesAreOne, StepsAreEntries, UnreadStepsAreOne};
ghost use Rattle.zodb_core.specs.Laws.{CountsNeverFall, CurrentVotesAreVoted, EndingsKeepSound};
ghost use Rattle.zodb_core.specs.Laws.{FreeVotesAreServed, FrontsNeverFall};
ghost use Rattle.zodb_core.specs.Laws.{GreatestNeverFalls, HistoriesKeepSound, HistoriesComeTo, HistoriesOnlyGrow};
ghost use Rattle.zodb_core.specs.Laws.{JournalIsFull, ListsArePackedAsAsked, ListsOnlyGrow, ListsStayDatabases};
ghost use Rattle.zodb_core.specs.Laws.{MachineStartsSound, TurnsKeepLists};
ghost use Rattle.zodb_core.specs.Laws.{NewNumbersAreNew, NewestNeverFalls, NumbersComeBehindGreatest};
ghost use Rattle.zodb_core.specs.Laws.{OpeningsKeepSound, PacksKeepFronts, PacksKeepViews};
ghost use Rattle.zodb_core.specs.Laws.{RecordsBelowFrontsStood, RefusalsLeave};
ghost use Rattle.zodb_core.specs.Laws.{StatesBelowFrontsStay, StepsAreAnswered, StepsGrowOrPack};
ghost use Rattle.zodb_core.specs.Laws.{StepsHaveRoom, StepsKeepSound, StepsPackAsMarked};

/// What a legal history begins with is legal.
#[tactic(auto, using(crate::proofs::Legal::prefixes))]
pub fn histories_begin()
    ensures { PrefixesAreLegal }
{}

/// The state behind a history is a function of it, and so are the counts of faults: one entry more takes
/// the state to the one behind that entry. A legal history stays legal by an entry that its state may
/// take; and the entry of a step that was made is one, and leaves what the step left.
pub fn histories_go_on()
    ensures state { MachinesGoOn }
    ensures counts { CountsGoOn }
    ensures legal { HistoriesGoOn }
    ensures entry { StepsAreEntries }
{}

/// Where the machine reads no clock its step is the same for every stamp.
#[tactic(auto, using(crate::specs::Entries::step_unread))]
pub fn unread_steps_are_one()
    ensures { UnreadStepsAreOne }
{}

/// No step is refused for the length of a history, and a vote or an undo of an open session isn't busy
/// while no other session holds the vote.
pub fn free_steps_are_served()
    ensures room { StepsHaveRoom }
    ensures free { FreeVotesAreServed }
{}

/// Two steps of one machine that are answered are one and the same, over whatever stores they were made.
#[tactic(auto, using(crate::proofs::Legal::one_reply))]
pub fn replies_are_one()
    ensures { RepliesAreOne }
{}

/// Over a database the machine starts sound, and each step, each opening of a session and each history
/// leaves it so, however a step ends. So a list stays a database over every legal history.
pub fn machines_stay_sound()
    ensures start { MachineStartsSound }
    ensures step { StepsKeepSound }
    ensures ending { EndingsKeepSound }
    ensures opening { OpeningsKeepSound }
    ensures history { HistoriesKeepSound }
    ensures databases { ListsStayDatabases }
{}

/// A step leaves the list as it was, puts one later transaction behind it, or, where it was asked to pack,
/// packs it: just the objects that it marks keep records up to the pack's tid. So the newest is never
/// older and the front never lower. Without a pack what stood below a front that the list had reached
/// stays as it was; with packs no record stands there that didn't before.
pub fn lists_only_grow()
    ensures step { StepsGrowOrPack }
    ensures marked { StepsPackAsMarked }
    ensures unpacked { ListsOnlyGrow }
    ensures histories { HistoriesComeTo }
    ensures growing { HistoriesOnlyGrow }
    ensures newest { NewestNeverFalls }
    ensures states { StatesBelowFrontsStay }
    ensures records { RecordsBelowFrontsStood }
{}

/// A pack, in one step or in turns, packs the list just as it was asked or begun to, and its other turns
/// leave the list. It keeps what views above its tid see: each object that it keeps has the content that it
/// had, and where it collects, every object that references lead to from the root is kept. And it leaves
/// the front.
pub fn packs_keep_views()
    ensures packed { ListsArePackedAsAsked }
    ensures unpacked { TurnsKeepLists }
    ensures views { PacksKeepViews }
    ensures fronts { PacksKeepFronts }
{}

/// No front that a session is told is below one that any session was told before.
pub fn fronts_never_fall()
    ensures { FrontsNeverFall }
{}

/// The numbers that are handed out come behind the greatest, which never falls. So none of them stood in
/// the list at any moment, and none was handed out before.
pub fn new_numbers_are_new()
    ensures greatest { GreatestNeverFalls }
    ensures behind { NumbersComeBehindGreatest }
    ensures new { NewNumbersAreNew }
{}

/// The machine by itself never answers that reading failed, that memory ran out or that the store failed.
pub fn steps_are_answered()
    ensures { StepsAreAnswered }
{}

/// Along a legal history neither count of faults falls.
pub fn counts_never_fall()
    ensures { CountsNeverFall }
{}

/// A refused step leaves the machine as it was, but for this: `Unreadable` and `Overtaken` end the pack, and
/// so does a request on a pack for which reading failed or memory ran out; a store that failed closes
/// every session.
pub fn refusals_leave()
    ensures { RefusalsLeave }
{}

/// A vote of an open session, while none is held, that was made from what stands and whose deleted objects
/// are there, whose checks hold, which passes no limit and for which a tid is left, is voted; or memory ran
/// out, or a count of faults rose.
pub fn current_votes_are_voted()
    ensures { CurrentVotesAreVoted }
{}

/// A step is refused for a full journal exactly where nothing refuses it at once, something is to be
/// written, and with its changes the journal would have more than 2^23.
pub fn journal_is_full()
    ensures { JournalIsFull }
{}
