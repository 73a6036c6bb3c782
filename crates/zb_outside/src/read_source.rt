//! A source over std's readers.

ghost use Rattle.std.specs.Prelude.{◌≡◌, ◌≤◌, length, IfOk};
ghost use Rattle.std.specs.Io.KnownBytes.{ReadConsumes};

use crate::failed::Failed;
use crate::source::Source;
use std::io;
use std::io::{ErrorKind, Read};

/// A source that reads from a reader of std, as a file, a socket or the standard input. It tells of
/// the bytes what the reader tells. A read that a signal interrupted is tried again, and each other
/// error of the reader is counted as a fault.
#[derive(Debug, Drop)]
pub struct ReadSource<R: Read> {
    reader: R,
    faults: u64,
}

impl<R: Read> ReadSource<R> {
    /// A source over this reader, of which no call failed yet.
    pub fn new(reader: R) -> ReadSource<R>
        ensures left { ⟦<ReadSource<R> as Source>⟧.left result ≡ R.remaining reader }
        ensures faults { ⟦<ReadSource<R> as Source>⟧.faults result ≡ 0 }
    {
        ReadSource { reader, faults: 0 }
    }

    /// How many calls failed.
    pub fn faults(&self) -> u64
        ensures { result ≡ ⟦<ReadSource<R> as Source>⟧.faults self.now }
    {
        self.faults
    }
}

// A read that is tried again where a signal interrupted it.
fn read_again<R: Read>(reader: &mut R, out: &mut [u8]) -> io::Result<usize>
    ensures fits { IfOk result (λ count. count ≤ length out.new) }
    ensures bytes { ReadConsumes (R.remaining reader.old) (R.remaining reader.new) result out.new }
{
    for _ in 0..u64::MAX {
        match reader.read(out) {
            Ok(count) => return Ok(count),
            Err(error) => {
                if error.kind() != ErrorKind::Interrupted {
                    return Err(error);
                }
            }
        }
    }
    Err(io::Error::from(ErrorKind::Interrupted))
}

impl<R: Read> Source for ReadSource<R> {
    ghost left = { λ source. R.remaining source.reader };

    ghost faults = { λ source. source.faults };

    ghost sure = { λ _. ⊥ };

    fn read(&mut self, out: &mut [u8]) -> Result<usize, Failed> {
        match read_again(&mut self.reader, out) {
            Ok(count) => Ok(count),
            Err(_) => {
                self.faults = self.faults.saturating_add(1);
                Err(Failed)
            }
        }
    }
}
