//! Requests in pieces with their replies, and a gate that stops a reply; what else ends a reply or a
//! service the built program shows (`system_tests/commands`, `refusals`).
ghost use Rattle.std.specs.Prelude.{◌≡◌, ◌<◌, false};

use crate::asking::{ALL_KINDS, ALL_REPLIES, plain, serve};
use batch_run::{Gate, OpenGate, Settings};
use std::process::Abort;
use std::sync::Wait;
use std::thread::Threads;
use text_lines::Plain;
use text_trials::Pieces;

/// Asserts the replies to requests that come in pieces of this size.
fn assert_replies<T: Gate>(
    rt: &(impl Abort + AllocGlobal + Threads + Wait + Sync),
    settings: &Settings,
    gate: &T,
    piece: usize,
    requests: &str,
    replies: &str,
)
    requires { 0 < piece }
{
    let mut input = Pieces::new(requests.as_bytes(), piece, false);
    let mut out = Plain::new(Vec::new(rt.alloc()));
    let ended = serve(rt, settings, gate, &mut input, &mut out);
    assert_eq!(rt; ended, Ok(()));
    assert_eq!(rt; out.into_inner().as_slice(), replies.as_bytes());
}

#[test]
fn each_kind_in_pieces(rt: HostRuntime) {
    for piece in [1, 2, 3, 65_536] {
        assert_replies(&rt, &plain(), &OpenGate, piece, ALL_KINDS, ALL_REPLIES);
    }
    let workers = Settings {
        workers: 2,
        shards: 3,
        ..Settings::default()
    };
    assert_replies(&rt, &workers, &OpenGate, 5, ALL_KINDS, ALL_REPLIES);
    let factors = Settings {
        factors: true,
        ..Settings::default()
    };
    assert_replies(&rt, &factors, &OpenGate, 5, ALL_KINDS, ALL_REPLIES);
}

/// A gate that lets no worker make a turn.
struct Closed;

impl Gate for Closed {
    ghost may_answer = { λ _ _ _ answer. answer ≡ false };

    fn before(&self, _worker: u64, _turn: u64) -> bool {
        false
    }
}

/// The reply to each request that workers answer is stopped, and the service goes on.
#[test]
fn a_closed_gate_ends_a_reply_alone(rt: HostRuntime) {
    let requests = "p aux sp p2p 1\nq 1 4\np aux sp ss 0\np aux sp p2p 1\nq 1 4\n";
    let wanted =
        "p ans p2p 1 shortest\nf 41 0\np ans ss 0 shortest\np ans p2p 1 shortest\nf 41 0\n";
    let settings = Settings {
        workers: 1,
        ..Settings::default()
    };
    assert_replies(&rt, &settings, &Closed, 65_536, requests, wanted);
}
