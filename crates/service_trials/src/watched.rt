//! What a watcher of a service is told at each read.
use crate::asking::{FIVE, ONE_REPLY, plain};
use batch_run::{OpenGate, Run};
use path_algebra::Shortest;
use service::{ReadWatcher, run_service_watched};
use text_trials::{Pieces, Sheet};

/// How many reads there were, and how many bytes had been written before each of the first.
#[derive(Drop)]
struct Lengths {
    reads: usize,
    written: [usize; 4],
}

impl ReadWatcher for Lengths {
    type Reader = Pieces<'static>;

    type Writer = Sheet;

    ghost may_become = { λ _ _ _ _. Unit {0} };

    fn before_read(&mut self, _requests: &Pieces<'static>, out: &Sheet) {
        if self.reads < 4 {
            self.written[self.reads] = out.bytes.len();
            self.reads += 1;
        }
    }
}

/// Two requests of 21 bytes each, in pieces of as many.
#[test]
fn a_read_comes_after_the_replies(rt: HostRuntime) {
    let requests = "p aux sp p2p 1\nq 1 4\np aux sp p2p 1\nq 1 4\n";
    let mut graph = Pieces::new(FIVE.as_bytes(), 64, false);
    let mut input = Pieces::new(requests.as_bytes(), 21, false);
    let mut out = Sheet::new(rt.alloc(), 1_024, true);
    let mut lengths = Lengths {
        reads: 0,
        written: [0; 4],
    };
    let settings = plain();
    let run = Run {
        rt: &rt,
        alloc: rt.alloc(),
        settings: &settings,
        gate: &OpenGate,
    };
    let ended = run_service_watched(
        &run,
        Shortest,
        &mut graph,
        &mut None,
        &mut input,
        &mut out,
        &mut lengths,
    );
    assert_eq!(rt; ended, Ok(()));
    assert_eq!(rt; lengths.reads, 3);
    assert_eq!(rt;
        lengths.written,
        [0, ONE_REPLY.len(), 2 * ONE_REPLY.len(), 0]
    );
}
