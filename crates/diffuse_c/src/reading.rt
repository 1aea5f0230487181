//! A graph that is read from a text in memory.
ghost use Rattle.std.specs.Prelude.{◌≡◌, ◌≤◌, ◌⊎◌, ◌≢◌, ◌↔◌, ◌∷◌, [], length, pos, true, Ok, None, Some, IfOk, IfErr, refl};
ghost use Rattle.text_lines.specs.Rules.{text_read};
ghost use Rattle.graph_text.specs.GraphFiles.{gr_rules};
ghost use Rattle.answer_lists.specs.Answers.{IsOneOf};
ghost use Rattle.diffuse_c.specs.Holding.{has_graph};
ghost use Rattle.diffuse_c.specs.Keeping.{KeepsUnlessOpened};
ghost use Rattle.diffuse_c.specs.Texts.{IsGraphOf, IsReadFaultOf, IsFaultReported, IsShortOfMemory, IsTooLongText, RunsOutWithin};

use crate::handle::{DiffuseGraph, put};
use crate::owners::{Owner, owned};
use crate::status::OPEN;
use answer_lists::{DONE, MEMORY, NO_ROOM};
use ghost_count::Count;
use graph_text::read_gr_as;
use road_graph::OutGraph;
use std::alloc::{AllocError, Global};
use text_lines::{ReadFailed, ReadFault, RoadRead};

/// Bytes in memory. No read of them fails.
#[derive(Drop)]
struct InMemory<'a> {
    rest: &'a [u8],
    reads: Count,
}

impl RoadRead for InMemory<'_> {
    ghost seen = { λ m. record {
      state = m;
      left = Some m.rest.now;
      failures = 0;
      asked = m.reads.total;
    } };

    fn read(&mut self, buf: &mut [u8]) -> Result<usize, ReadFailed> {
        self.reads = self.reads.next();
        let mut taken = self.rest.len();
        if buf.len() < taken {
            taken = buf.len();
        }
        let (prefix, rest) = self.rest.split_at(taken);
        buf[..taken].copy_from_slice(prefix);
        self.rest = rest;
        Ok(taken)
    }

    ghost itself = { λ _. refl };
}

/// The graph of a text.
fn read_graph(alloc: Global, bytes: &[u8]) -> Result<OutGraph, ReadFault>
    requires { length bytes.now ≤ 4294967296 }
    ensures graph { IfOk result (λ g. text_read gr_rules bytes.now ≡ Ok g) }
    ensures fault { IfErr result (λ f. IsReadFaultOf bytes.now f) }
    ensures memory { IfErr result (λ f. f.number ≡ 3 → RunsOutWithin bytes.now) }
{
    let mut text = InMemory {
        rest: bytes,
        reads: Count::new(),
    };
    read_gr_as(alloc, &mut text)
}

/// An owner of the graph of a text, or why there is none.
fn owner_read(alloc: Global, bytes: &[u8]) -> Result<Box<Owner>, ReadFault>
    requires { length bytes.now ≤ 4294967296 }
    ensures graph { IfOk result (λ b. IsGraphOf bytes.now (Some b.value.shared)) }
    ensures fault { IfErr result (λ f. IsReadFaultOf bytes.now f) }
    ensures stop { IfOk result (λ b. b.value.stop ≡ None) }
    ensures numbers { IfOk result (λ b. b.value.numbers ≡ None) }
    ensures memory { IfErr result (λ f. f.number ≡ 3 → IsShortOfMemory bytes.now) }
{
    let graph = read_graph(alloc, bytes)?;
    match owned(alloc, graph) {
        Ok(owner) => Ok(owner),
        Err(AllocError) => Err(ReadFault {
            number: text_lines::MEMORY,
            line: 0,
        }),
    }
}

/// The status of a fault. For a fault of the text, the line is written too.
fn report_fault(fault: ReadFault, line: &mut u64) -> i32
    ensures memory { fault.number ≡ 3 → (result ≡ pos 3) × (line.new ≡ line.old) }
    ensures fault { fault.number ≢ 3 → (result ≡ pos fault.number) × (line.new ≡ fault.line) }
{
    if fault.number == text_lines::MEMORY {
        return MEMORY;
    }
    *line = fault.line;
    i32::from(fault.number)
}

/// Opens a closed handle with the graph of a .gr text, which may be changed or freed afterwards.
///
/// If the text has a fault, the status is the number of the first one, and its line is written,
/// counted from 1. A text of more than 2^32 bytes is refused by its length alone, and the line is
/// then 0.
#[unsafe(no_mangle)]
pub extern "C" fn diffuse_graph_read(
    alloc: Global,
    bytes: &[u8],
    handle: &mut DiffuseGraph,
    line: &mut u64,
) -> i32
    ensures graph { result ≡ pos 0 → IsGraphOf bytes.now handle.new.held.shared }
    ensures kept { KeepsUnlessOpened handle.old.held handle.new.held result }
    ensures status { IsOneOf (0 ∷ 2 ∷ 3 ∷ 5 ∷ []) result ⊎ IsFaultReported bytes.now result
        line.new }
    ensures memory { result ≡ pos 3 → IsShortOfMemory bytes.now }
    ensures line { IsOneOf (0 ∷ 3 ∷ 5 ∷ []) result → line.new ≡ line.old }
    ensures no_line { result ≡ pos 2 → line.new ≡ 0 }
    ensures open { (result ≡ pos 5) ↔ (has_graph handle.old.held.shared ≡ true) }
    ensures long { (result ≡ pos 2) ↔ ((handle.old.held.shared ≡ None) × IsTooLongText bytes.now) }
{
    if handle.is_open {
        return OPEN;
    }
    if bytes.len() > 4_294_967_296 {
        *line = 0;
        return NO_ROOM;
    }
    match owner_read(alloc, bytes) {
        Ok(owner) => {
            put(handle, owner);
            DONE
        }
        Err(fault) => report_fault(fault, line),
    }
}
