//! Streams that move few bytes a call, and of which one call may fail.

use std::alloc::{AllocError, Global};
use std::io::{self, ErrorKind, Read, Write};

/// Hands out at most `most` bytes a read. The read of that number fails, and no other.
#[derive(Drop)]
pub struct Pieces<'a> {
    pub left: &'a [u8],
    pub most: usize,
    pub reads: usize,
    pub failing: Option<(usize, ErrorKind)>,
}

impl<'a> Pieces<'a> {
    /// No read of it fails.
    pub fn new(bytes: &'a [u8], most: usize) -> Pieces<'a> {
        Pieces {
            left: bytes,
            most,
            reads: 0,
            failing: None,
        }
    }
}

impl<'a> Read for Pieces<'a> {
    fn read(&mut self, buf: &mut [u8]) -> io::Result<usize> {
        let turn = self.reads;
        self.reads = turn.wrapping_add(1);
        if let Some((read, kind)) = self.failing
            && read == turn
        {
            return Err(io::Error::from(kind));
        }
        let n = self.most.min(buf.len()).min(self.left.len());
        buf[..n].copy_from_slice(&self.left[..n]);
        self.left = &self.left[n..];
        Ok(n)
    }
}

/// How a write fails.
#[derive(Clone, Copy, Debug, PartialEq, Eq)]
pub enum Fault {
    Error,
    TakesNone,
}

/// Takes one byte a write. The write of that number fails, and no other.
#[derive(Drop)]
pub struct Crumbs {
    pub taken: Vec<u8>,
    pub writes: usize,
    pub failing: Option<(usize, Fault)>,
}

impl Crumbs {
    /// Has room for a report, so that no write of one wants memory.
    pub fn new(alloc: Global, failing: Option<(usize, Fault)>) -> Result<Crumbs, AllocError> {
        Ok(Crumbs {
            taken: Vec::with_capacity(alloc, 128)?,
            writes: 0,
            failing,
        })
    }
}

impl Write for Crumbs {
    fn write(&mut self, buf: &[u8]) -> io::Result<usize> {
        let turn = self.writes;
        self.writes = turn.wrapping_add(1);
        if let Some((write, fault)) = self.failing
            && write == turn
        {
            return match fault {
                Fault::Error => Err(io::Error::from(ErrorKind::Interrupted)),
                Fault::TakesNone => Ok(0),
            };
        }
        match buf.first() {
            Some(byte) => {
                self.taken.push(*byte)?;
                Ok(1)
            }
            None => Ok(0),
        }
    }

    fn flush(&mut self) -> io::Result<()> {
        Ok(())
    }
}
