//! What steps keep of remote clients. A law is the contract of a function that does nothing.

ghost use Rattle.zeo_serving.specs.Laws.{AnswersAreKept, CommitsDeliver, CommitsServe, EntriesAnswer, FrontsDeliver, LessServes, OpeningsServe, OthersKeep, OwnKeep, RefusalsServe, UndosServe, VotesEnd, VotesServe};

/// Each step of another session, however it ends, keeps a client that may be at its session. That a pack leaves each
/// revision that still stands with the same next one is in it.
pub fn others_keep_clients()
    ensures { OthersKeep }
{}

/// So does each step of its own session that is no front, vote, undo, finish, abort or close, and each that is
/// refused.
pub fn plain_steps_keep_clients()
    ensures plain { OwnKeep }
    ensures refused { RefusalsServe }
{}

/// Behind a front of its own, the client knows the list as it stands, where the entries that the news names are
/// closed and a pack, or more than is told, has emptied the cache.
pub fn fronts_deliver()
    ensures { FrontsDeliver }
{}

/// Behind a vote or an undo of its own, however it ends, what was asked for may be changed by the next commit; behind
/// an abort, or a finish with nothing to write, nothing may.
pub fn votes_serve_clients()
    ensures votes { VotesServe }
    ensures undos { UndosServe }
    ensures ended { VotesEnd }
{}

/// Behind a commit of its own and a front behind that, the client knows the list as it stands, where the entries of
/// what it asked for are dropped before the news is delivered.
pub fn commits_deliver()
    ensures commits { CommitsServe }
    ensures delivered { CommitsDeliver }
{}

/// What a cache answers at a known front is what the object has there in the list that the client knows.
pub fn entries_are_answers()
    ensures { EntriesAnswer }
{}

/// What is answered of an object at a known front may be kept as an entry.
pub fn answers_are_kept()
    ensures { AnswersAreKept }
{}

/// A client may lose entries, take more for news, and take more objects for ones that its commit may change.
pub fn less_serves()
    ensures { LessServes }
{}

/// Where a session was told all that happened and holds no vote, a client with an empty cache may be at it.
pub fn openings_serve()
    ensures { OpeningsServe }
{}
