//! How much time factors may take.

use elimination_order::Care;
use path_factors::Links;
use road_files::{Kind, Questions};

/// A fast nested dissection repays its time if a graph has at most so many vertices for each pair.
const FAST: u64 = 128;

/// A careful one repays its time if there are at most so many.
const CAREFUL: u64 = 16;

/// The care that repays its time by the pairs of these questions over a graph of so many vertices;
/// none if an order by approximate minimum degree will do. Searches of whole trees gain little.
pub(crate) fn care_for(vertices: u32, questions: &Questions) -> Option<Care> {
    let pairs = if questions.kind() == Kind::Pairs {
        questions.len() as u64
    } else {
        0
    };
    let vertices = u64::from(vertices);
    if vertices <= pairs.saturating_mul(CAREFUL) {
        Some(Care::Careful)
    } else if vertices <= pairs.saturating_mul(FAST) {
        Some(Care::Fast)
    } else {
        None
    }
}

/// Which links repay their time: those that are needed, if an order does that is found with care.
pub(crate) fn links_for(care: Option<Care>) -> Links {
    if care.is_some() {
        Links::Needed
    } else {
        Links::All
    }
}
