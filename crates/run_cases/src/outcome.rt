//! What came of a run, and where that first differs from what is expected.

ghost use Rattle.std.specs.Prelude.{◌≡◌, ◌↔◌, IfSome, IsTrue, None};
ghost use Rattle.run_cases.specs.Agreement.{IsAfter, IsAsExpected, IsLeftAs};

use crate::case::{After, Expectation, Left};
use sha2::{Digest, Sha256};
use zb_ids::Stamp;

/// What came of a run.
#[derive(Drop)]
pub struct Outcome {
    /// All that was written.
    pub written: Vec<u8>,
    /// The exit status.
    pub status: u8,
    /// Main before the run.
    pub before: Vec<u8>,
    /// Main behind it.
    pub main: Vec<u8>,
    /// How many bytes of the source are left.
    pub unread: u64,
    /// What the clock gives next.
    pub next: Stamp,
    /// What a stop leaves with all that waits for a sync, where the case asks for it.
    pub greatest: Option<Left>,
    /// What it leaves with none of that, where the case asks for it.
    pub least: Option<Left>,
}

/// In what an outcome differs from what is expected.
#[derive(Clone, Copy)]
pub enum Difference {
    /// In what was written.
    Written,
    /// In the exit status.
    Status,
    /// In Main.
    Main,
    /// In how many bytes of the source are left.
    Unread,
    /// In what the clock gives next.
    Next,
    /// In the image with all that waits for a sync.
    Greatest,
    /// In the image with none of it.
    Least,
}

/// Whether Main is what is expected behind the run.
fn is_after(after: &After, before: &[u8], main: &[u8]) -> bool
    ensures { IsTrue result ↔ IsAfter after.now before.now main.now }
{
    match after {
        After::Same => main == before,
        After::Bytes(bytes) => main == bytes.as_slice(),
        After::Digest { length, sha256 } => {
            main.len() as u64 == *length && Sha256::digest(main).as_slice() == sha256.as_slice()
        }
    }
}

/// Whether an image is what is expected, if something is expected of it.
fn is_left(wanted: &Option<Left>, left: &Option<Left>) -> bool
    ensures { IsTrue result ↔ IsLeftAs wanted.now left.now }
{
    match (wanted, left) {
        (None, _) => true,
        (Some(Left::Empty), Some(Left::Empty)) => true,
        (Some(Left::Listed(wanted)), Some(Left::Listed(lines))) => {
            lines.as_slice() == wanted.as_slice()
        }
        _ => false,
    }
}

/// Whether as many bytes are left as expected, if that is asked for.
fn is_unread(wanted: Option<u64>, unread: u64) -> bool
    ensures { IsTrue result ↔ IfSome wanted (λ n. unread ≡ n) }
{
    match wanted {
        None => true,
        Some(wanted) => unread == wanted,
    }
}

/// Whether a stamp is the expected one, if that is asked for.
fn is_next(wanted: Option<Stamp>, next: Stamp) -> bool
    ensures { IsTrue result ↔ IfSome wanted (λ s. next ≡ s) }
{
    match wanted {
        None => true,
        Some(wanted) => next == wanted,
    }
}

/// Whether a status and what is written are the expected ones.
pub fn are_replies(expected: &Expectation, status: u8, written: &[u8]) -> bool
    ensures { IsTrue result ↔ (written.now ≡ expected.now.written.items) × (status ≡ expected.now.status) }
{
    written == expected.written.as_slice() && status == expected.status
}

/// In what an outcome first differs from what is expected.
pub fn difference_of(expected: &Expectation, outcome: &Outcome) -> Option<Difference>
    ensures { (result ≡ None) ↔ IsAsExpected expected.now outcome.now }
{
    if outcome.written.as_slice() != expected.written.as_slice() {
        return Some(Difference::Written);
    }
    if outcome.status != expected.status {
        return Some(Difference::Status);
    }
    if !is_after(&expected.after, &outcome.before, &outcome.main) {
        return Some(Difference::Main);
    }
    if !is_left(&expected.greatest, &outcome.greatest) {
        return Some(Difference::Greatest);
    }
    if !is_left(&expected.least, &outcome.least) {
        return Some(Difference::Least);
    }
    if !is_unread(expected.unread, outcome.unread) {
        return Some(Difference::Unread);
    }
    if !is_next(expected.next, outcome.next) {
        return Some(Difference::Next);
    }
    None
}
