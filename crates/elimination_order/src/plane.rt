//! A plane for a graph without coordinates: the distances from two pairs of far vertices stand for
//! them.
ghost use Rattle.std.specs.Prelude.{◌≡◌, IfErr, IsSome};
ghost use Rattle.halting.specs.declared.unfinished.Unfinished.TheVariants.{Halted};

use crate::distances::Distances;
use crate::lists::stored;
use crate::neighbours::Neighbours;
use halting::{Stop, Unfinished};
use road_graph::Memory;
use std::alloc::{AllocError, Global};

/// Where a vertex lies.
#[derive(Clone, Copy)]
struct Point {
    x: u32,
    y: u32,
}

/// A direction in which the vertices are ranked.
#[derive(Clone, Copy)]
pub(crate) enum Direction {
    X,
    Y,
    /// Along both.
    Sum,
    /// Along x and against y.
    Difference,
}

/// The points of the vertices of a connected graph.
#[derive(Drop)]
pub(crate) struct Plane {
    points: Vec<Point>,
}

/// How much greater one number is than another, and `more` besides, which is at least the other.
#[inline]
fn lead(more: u32, a: u32, b: u32) -> u32 {
    a.saturating_add(more).saturating_sub(b)
}

/// The vertex that is farthest from the nearer of two others.
fn far_from_both(a: &Distances, b: &Distances, n: u32) -> u32 {
    let mut farthest = 0u32;
    let mut most = 0u32;
    for v in 0..n {
        let steps = a.to(v).min(b.to(v));
        if steps > most {
            most = steps;
            farthest = v;
        }
    }
    farthest
}

impl Plane {
    /// The points by the distances from two pairs of vertices.
    fn between(
        alloc: Global,
        n: u32,
        (west, east): (&Distances, &Distances),
        (south, north): (&Distances, &Distances),
    ) -> Result<Self, Memory> {
        let mut points = Vec::with_capacity(alloc, n as usize)?;
        for v in 0..n {
            let point = Point {
                x: lead(n, west.to(v), east.to(v)),
                y: lead(n, south.to(v), north.to(v)),
            };
            points.push(point).map_err(AllocError::from)?;
        }
        Ok(Plane { points })
    }

    /// The plane of a connected graph.
    pub(crate) fn of(
        alloc: Global,
        rows: &Neighbours,
        stop: &Option<Stop>,
    ) -> Result<Self, Unfinished>
        ensures halts { IfErr result (λ e. e ≡ Halted → IsSome stop.now) }
    {
        let n = rows.vertices();
        let start = Distances::from(alloc, rows, 0, stop)?;
        let west = Distances::from(alloc, rows, start.farthest(), stop)?;
        let east = Distances::from(alloc, rows, west.farthest(), stop)?;
        let south = Distances::from(alloc, rows, far_from_both(&west, &east, n), stop)?;
        let north = Distances::from(alloc, rows, south.farthest(), stop)?;
        Ok(Plane::between(alloc, n, (&west, &east), (&south, &north))?)
    }

    /// How far along a direction each vertex is.
    pub(crate) fn along(&self, alloc: Global, way: Direction) -> Result<Vec<u32>, Memory> {
        let most = stored(self.points.len()).saturating_mul(2);
        let mut keys = Vec::with_capacity(alloc, self.points.len())?;
        for point in &self.points {
            let key = match way {
                Direction::X => point.x,
                Direction::Y => point.y,
                Direction::Sum => point.x.saturating_add(point.y),
                Direction::Difference => lead(most, point.x, point.y),
            };
            keys.push(key).map_err(AllocError::from)?;
        }
        Ok(keys)
    }
}
