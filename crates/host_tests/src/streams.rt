//! Streams for tests: one that fails once, one that is interrupted, and one that takes little.

use std::io;
use std::io::{ErrorKind, Read, Write};
use zb_outside::{Failed, Source};

/// Reads once into a buffer of four bytes.
pub fn read_four(source: &mut impl Source) -> (Result<usize, Failed>, [u8; 4]) {
    let mut out = [b'.'; 4];
    let result = source.read(&mut out);
    (result, out)
}

/// Gives one byte a call, and fails once, after `before` bytes.
#[derive(Drop)]
pub struct FailsOnce {
    pub bytes: &'static [u8],
    pub before: Option<usize>,
}

impl Read for FailsOnce {
    fn read(&mut self, buf: &mut [u8]) -> io::Result<usize> {
        if self.before == Some(0) {
            self.before = None;
            return Err(ErrorKind::Other.into());
        }
        self.before = self.before.map(|n| n.saturating_sub(1));
        if self.bytes.is_empty() || buf.is_empty() {
            return Ok(0);
        }
        buf[0] = self.bytes[0];
        self.bytes = &self.bytes[1..];
        Ok(1)
    }
}

/// Is interrupted before every byte, which it then reads or takes.
#[derive(Drop)]
pub struct Interrupted {
    pub bytes: Vec<u8>,
    pub interrupts: u64,
    at_byte: bool,
}

impl Interrupted {
    /// These bytes, and no interrupt yet.
    pub fn new(bytes: Vec<u8>) -> Interrupted {
        Interrupted {
            bytes,
            interrupts: 0,
            at_byte: false,
        }
    }

    /// Answers each first call with an error.
    fn turn(&mut self) -> io::Result<()> {
        self.at_byte = !self.at_byte;
        if self.at_byte {
            self.interrupts = self.interrupts.saturating_add(1);
            return Err(ErrorKind::Interrupted.into());
        }
        Ok(())
    }
}

impl Read for Interrupted {
    fn read(&mut self, buf: &mut [u8]) -> io::Result<usize> {
        self.turn()?;
        if buf.is_empty() {
            return Ok(0);
        }
        match self.bytes.pop() {
            Some(byte) => {
                buf[0] = byte;
                Ok(1)
            }
            None => Ok(0),
        }
    }
}

impl Write for Interrupted {
    fn write(&mut self, buf: &[u8]) -> io::Result<usize> {
        self.turn()?;
        let count = buf.len().min(1);
        self.bytes.extend_from_slice(&buf[..count])?;
        Ok(count)
    }

    fn flush(&mut self) -> io::Result<()> {
        Ok(())
    }
}

/// Takes at most `most` bytes a call.
#[derive(Drop)]
pub struct TakesFew {
    pub bytes: Vec<u8>,
    pub most: usize,
}

impl Write for TakesFew {
    fn write(&mut self, buf: &[u8]) -> io::Result<usize> {
        let count = buf.len().min(self.most);
        self.bytes.extend_from_slice(&buf[..count])?;
        Ok(count)
    }

    fn flush(&mut self) -> io::Result<()> {
        Ok(())
    }
}
