//! Gates that count and may be closed, and one at which two workers look for each other.
use batch_run::Gate;
use crossbeam_utils::CachePadded;
use std::sync::atomic::{AtomicU64, Ordering};

/// When a gate answers `false`.
#[derive(Clone, Copy)]
pub enum Closed {
    Never,
    Always,
    /// Before this turn of each worker.
    AtTurn(u64),
    /// To this worker.
    ToWorker(u64),
    /// Once, after it was asked so many times.
    After(u64),
}

/// Counts how often it is asked, and keeps the greatest turn and the greatest number of a worker.
#[derive(Drop)]
pub struct Counting {
    closed: Closed,
    asked: AtomicU64,
    turn: AtomicU64,
    worker: AtomicU64,
}

impl Gate for Counting {
    ghost may_answer = { λ _ _ _ _. Unit {0} };

    fn before(&self, worker: u64, turn: u64) -> bool {
        let asked = self.asked.fetch_add(1, Ordering::SeqCst);
        self.turn.fetch_max(turn, Ordering::SeqCst);
        self.worker.fetch_max(worker, Ordering::SeqCst);
        match self.closed {
            Closed::Never => true,
            Closed::Always => false,
            Closed::AtTurn(closed) => turn != closed,
            Closed::ToWorker(closed) => worker != closed,
            Closed::After(closed) => asked != closed,
        }
    }
}

/// What a gate has counted.
#[derive(Clone, Copy)]
pub struct Counted {
    pub asked: u64,
    /// The greatest turn.
    pub turn: u64,
    /// The greatest number of a worker.
    pub worker: u64,
}

impl Counting {
    pub fn new(closed: Closed) -> Counting {
        Counting {
            closed,
            asked: AtomicU64::new(0),
            turn: AtomicU64::new(0),
            worker: AtomicU64::new(0),
        }
    }

    pub fn counted(&self) -> Counted {
        Counted {
            asked: self.asked.load(Ordering::SeqCst),
            turn: self.turn.load(Ordering::SeqCst),
            worker: self.worker.load(Ordering::SeqCst),
        }
    }
}

/// At the first turn of a worker marks its arrival, and looks for the other's mark.
#[derive(Drop)]
pub struct Meeting {
    pub marks: [CachePadded<AtomicU64>; 2],
    pub seconds: [CachePadded<AtomicU64>; 2],
    pub refused: AtomicU64,
    tries: u64,
}

impl Gate for Meeting {
    ghost may_answer = { λ _ _ _ _. Unit {0} };

    fn before(&self, worker: u64, turn: u64) -> bool {
        let me = (worker % 2) as usize;
        if turn == 2 {
            self.seconds[me].store(1, Ordering::SeqCst);
        }
        if turn != 1 {
            return true;
        }
        self.marks[me].store(1, Ordering::SeqCst);
        for _ in 0..self.tries {
            if self.marks[1 - me].load(Ordering::SeqCst) == 1 {
                return true;
            }
        }
        self.refused.fetch_add(1, Ordering::SeqCst);
        false
    }
}

/// A place for the mark of each of two workers.
fn unmarked() -> [CachePadded<AtomicU64>; 2] {
    [
        CachePadded::new(AtomicU64::new(0)),
        CachePadded::new(AtomicU64::new(0)),
    ]
}

impl Meeting {
    pub fn new(tries: u64) -> Meeting {
        Meeting {
            marks: unmarked(),
            seconds: unmarked(),
            refused: AtomicU64::new(0),
            tries,
        }
    }
}
