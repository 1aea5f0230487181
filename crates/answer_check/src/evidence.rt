//! What the arcs into a reached vertex show of its line.

ghost use Rattle.std.specs.Prelude.{◌≡◌, ◌≤◌, All, length};
ghost use Rattle.answer_check.specs.Evidence.{decoded, candidate_from, evidence_by, all_evidence};

use crate::verdict::Reason;
use crate::vertex_lines::VertexLines;
use answer_text::Reached;
use path_algebra::PathAlgebra;
use road_graph::{OutRoad, Vertex};

/// What some of the arcs into a vertex show of its line.
#[derive(Clone, Copy)]
pub(crate) struct Evidence {
    /// One gives a better value.
    pub(crate) better: bool,
    /// One gives this value, from the parent.
    pub(crate) supported: bool,
    /// One gives this value, from the parent, whose hops are not one less.
    pub(crate) astray: bool,
    /// One gives this value, with fewer hops.
    pub(crate) nearer: bool,
    /// One gives this value with these hops, from a vertex less than the parent.
    pub(crate) lesser: bool,
}

impl Evidence {
    ghost use Rattle.std.specs.Prelude.{◌≡◌, false};
    ghost use Rattle.answer_check.specs.Evidence.{either, reason_by};

    /// The evidence of no arcs.
    pub(crate) fn none() -> Evidence
        ensures { result ≡ record {
          better = false;
          supported = false;
          astray = false;
          nearer = false;
          lesser = false;
        } }
    {
        Evidence {
            better: false,
            supported: false,
            astray: false,
            nearer: false,
            lesser: false,
        }
    }

    /// What either of the two shows.
    pub(crate) fn or(self, other: Evidence) -> Evidence
        ensures { result ≡ either self other }
    {
        Evidence {
            better: self.better || other.better,
            supported: self.supported || other.supported,
            astray: self.astray || other.astray,
            nearer: self.nearer || other.nearer,
            lesser: self.lesser || other.lesser,
        }
    }

    /// The first reason against the line, if there is one.
    pub(crate) fn reason(self) -> Option<Reason>
        ensures { result ≡ reason_by self }
    {
        if self.better {
            Some(Reason::NotBest)
        } else if !self.supported {
            Some(Reason::NoParent)
        } else if self.astray || self.nearer {
            Some(Reason::OtherHops)
        } else if self.lesser {
            Some(Reason::LesserParent)
        } else {
            None
        }
    }
}

/// The value of a line, if its code is that of a value.
pub(crate) fn value_told<A: PathAlgebra>(algebra: A, line: Reached) -> Option<A::Value>
    ensures { result ≡ decoded (A.meaning algebra) line.code }
{
    algebra.value_of(line.code)
}

/// The line of an arc's tail, and its value extended by the arc. None if the line has no value or
/// the arc refuses it.
pub(crate) fn candidate<A: PathAlgebra>(
    algebra: A,
    near: Option<Reached>,
    weight: u32,
) -> Option<(Reached, A::Value)>
    ensures { result ≡ candidate_from (A.meaning algebra) near weight }
{
    let near = near?;
    let value = value_told(algebra, near)?;
    let extended = algebra.extend(value, weight)?;
    Some((near, extended))
}

/// What one arc from `tail`, which offers `candidate`, shows of a line with this value.
fn evidence_by<A: PathAlgebra>(
    tail: Vertex,
    line: Reached,
    value: A::Value,
    candidate: Option<(Reached, A::Value)>,
) -> Evidence
    ensures { result ≡ evidence_by A.order tail line value candidate }
{
    let Some((near, other)) = candidate else {
        return Evidence::none();
    };
    let same = A::no_worse(value, other) && A::no_worse(other, value);
    let (hops, far) = (u64::from(line.hops), u64::from(near.hops) + 1);
    Evidence {
        better: !A::no_worse(value, other),
        supported: same && tail.0 == line.parent,
        astray: same && (tail.0 == line.parent && far != hops),
        nearer: same && far < hops,
        lesser: same && (tail.0 < line.parent && far == hops),
    }
}

/// What the arcs of a list, each given reversed, show of the line of the vertex that they enter,
/// which has this value.
pub(crate) fn evidence_of<A: PathAlgebra, L: VertexLines>(
    algebra: A,
    lines: &L,
    line: Reached,
    value: A::Value,
    roads: &[OutRoad],
) -> Evidence
    requires ends { All (λ r. (1 ≤ r.head) × (r.head ≤ length (L.list lines.now))) roads.now }
    ensures { result ≡ all_evidence (A.meaning algebra) A.order (L.list lines.now) line value
        roads.now }
{
    let mut evidence = Evidence::none();
    for road in roads {
        let candidate = candidate(algebra, lines.line_of(road.head), road.weight);
        evidence = evidence.or(evidence_by::<A>(road.head, line, value, candidate));
    }
    evidence
}
