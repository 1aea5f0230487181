//! A writer with little room.
ghost use Rattle.std.specs.Prelude.{◌≡◌, ◌<◌, ◌≤◌, Some, refl, []};

use arrayvec::ArrayVec;
use ghost_count::Count;
use text_lines::{RoadWrite, WriteFault};

/// Takes pieces of some size as long as there is room, and then fails.
#[derive(Drop)]
pub struct Page {
    pub bytes: ArrayVec<u8, 256>,
    room: usize,
    piece: usize,
    failed: Count,
    ghost fits: { room ≤ 256 },
    ghost some: { 0 < piece },
}

impl Page {
    pub fn new(room: usize, piece: usize) -> Self
        requires room { room ≤ 256 }
        requires piece { 0 < piece }
    {
        Page {
            bytes: ArrayVec::new(),
            room,
            piece,
            failed: Count::new(),
        }
    }
}

impl RoadWrite for Page {
    ghost seen = { λ s. record {
      state = s;
      written = Some s.bytes.items;
      held = [];
      failures = s.failed.total;
    } };

    fn write(&mut self, buf: &[u8]) -> Result<usize, WriteFault> {
        let mut taken = self.room.saturating_sub(self.bytes.len());
        if self.piece < taken {
            taken = self.piece;
        }
        if buf.len() < taken {
            taken = buf.len();
        }
        if taken == 0 && !buf.is_empty() {
            self.failed = self.failed.next();
            return Err(WriteFault);
        }
        let Ok(()) = self.bytes.try_extend_from_slice(&buf[..taken]) else {
            unreachable!()
        };
        Ok(taken)
    }

    fn flush(&mut self) -> Result<(), WriteFault> {
        Ok(())
    }

    ghost itself = { λ _. refl };
}
