//! What a worker of a link is given, and what it hands back.

use zeo_server::PushEnd;
use zeo_session::SessionEnd;

/// What a worker does for a link.
#[derive(Drop)]
pub enum Task<P, I, E> {
    /// It serves the link's session.
    Session {
        /// The session's pass.
        pass: P,
        /// What the client sends.
        link_in: I,
    },
    /// It sends the session's news.
    News {
        /// The session's ear.
        ear: E,
    },
}

/// What came of it.
#[derive(Drop)]
pub enum LinkDone<P> {
    /// The session is over.
    Session {
        /// The session's pass.
        pass: P,
        /// Why it is over.
        end: SessionEnd,
    },
    /// No more news is sent.
    News {
        /// Why none is.
        end: PushEnd,
    },
}
