//! A reader that gives pieces and then may fail, and a writer that takes a byte at a time and then
//! fails.
ghost use Rattle.std.specs.Prelude.{◌≡◌, ◌<◌, ◌≤◌, Some, refl, []};

use ghost_count::Count;
use std::alloc::Global;
use text_lines::{ReadFailed, RoadRead, RoadWrite, WriteFault};

/// Gives its bytes in pieces. After them it fails if `fails` is set.
#[derive(Drop)]
pub struct Pieces<'a> {
    bytes: &'a [u8],
    piece: usize,
    fails: bool,
    failed: Count,
    reads: Count,
    ghost some: { 0 < piece },
}

impl<'a> Pieces<'a> {
    pub fn new(bytes: &'a [u8], piece: usize, fails: bool) -> Self
        requires { 0 < piece }
    {
        Pieces {
            bytes,
            piece,
            fails,
            failed: Count::new(),
            reads: Count::new(),
        }
    }
}

impl RoadRead for Pieces<'_> {
    ghost seen = { λ p. record {
      state = p;
      left = Some p.bytes.now;
      failures = p.failed.total;
      asked = p.reads.total;
    } };

    fn read(&mut self, buf: &mut [u8]) -> Result<usize, ReadFailed> {
        self.reads = self.reads.next();
        if self.bytes.is_empty() && self.fails {
            self.failed = self.failed.next();
            return Err(ReadFailed);
        }
        let mut taken = self.bytes.len();
        if self.piece < taken {
            taken = self.piece;
        }
        if buf.len() < taken {
            taken = buf.len();
        }
        let (prefix, rest) = self.bytes.split_at(taken);
        buf[..taken].copy_from_slice(prefix);
        self.bytes = rest;
        Ok(taken)
    }

    ghost itself = { λ _. refl };
}

/// Takes one byte at a time as long as there is room, and then fails; its flush may fail too.
#[derive(Drop)]
pub struct Sheet {
    pub bytes: Vec<u8>,
    room: usize,
    flushes: bool,
    failed: Count,
}

impl Sheet {
    pub fn new(alloc: Global, room: usize, flushes: bool) -> Self {
        Sheet {
            bytes: Vec::new(alloc),
            room,
            flushes,
            failed: Count::new(),
        }
    }
}

impl RoadWrite for Sheet {
    ghost seen = { λ s. record {
      state = s;
      written = Some s.bytes.items;
      held = [];
      failures = s.failed.total;
    } };

    fn write(&mut self, buf: &[u8]) -> Result<usize, WriteFault> {
        if buf.is_empty() {
            return Ok(0);
        }
        if self.bytes.len() < self.room && self.bytes.push(buf[0]).is_ok() {
            return Ok(1);
        }
        self.failed = self.failed.next();
        Err(WriteFault)
    }

    fn flush(&mut self) -> Result<(), WriteFault> {
        if self.flushes {
            return Ok(());
        }
        self.failed = self.failed.next();
        Err(WriteFault)
    }

    ghost itself = { λ _. refl };
}
