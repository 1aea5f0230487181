//! Values worked out by hand, and each public call once.
use crate::graphs::graph_of;
use path_algebra::{
    AlgebraName, Hops, PathAlgebra, Reach, Reliable, Shortest, Widest, Within,
    best_values_are_unique, closed_labels_are_best, laws_hold, merged_labels_are_best,
    names_are_read_back, shortest_values_are_least_sums, tight_arcs_reach,
};
use std::process::Abort;

const GREATEST_WEIGHT: u32 = 4294967295;

const HELD: u64 = 9223372036854775808;

/// The code of the value of a walk over arcs of these weights, or none if one of them is
/// refused.
fn code_along<A: PathAlgebra>(algebra: A, weights: &[u32]) -> Option<u64> {
    let mut value = algebra.origin();
    for w in weights {
        match algebra.extend(value, *w) {
            Some(further) => value = further,
            None => return None,
        }
    }
    Some(algebra.code(value))
}

/// Asserts the code of the value of a walk over arcs of these weights.
fn assert_code<A: PathAlgebra>(rt: &impl Abort, algebra: A, weights: &[u32], wanted: Option<u64>) {
    assert_eq!(rt; code_along(algebra, weights), wanted);
}

/// Asserts the value of a walk of this value and one more arc.
fn assert_extended<A: PathAlgebra<Value = u64>>(
    rt: &impl Abort,
    algebra: A,
    value: u64,
    weight: u32,
    wanted: Option<u64>,
) {
    assert_eq!(rt; algebra.extend(value, weight), wanted);
}

#[test]
fn least_and_greatest_weights(rt: HostRuntime) {
    let two_greatest = [GREATEST_WEIGHT, GREATEST_WEIGHT];
    assert_code(&rt, Shortest, &[], Some(0));
    assert_code(&rt, Shortest, &[1, 2, 5], Some(8));
    assert_code(&rt, Shortest, &two_greatest, Some(8589934590));
    assert_extended(&rt, Shortest, HELD - 5, 4, Some(HELD - 1));
    assert_extended(&rt, Shortest, HELD - 5, GREATEST_WEIGHT, Some(HELD));
    assert_code(&rt, Hops, &[7, 0, GREATEST_WEIGHT], Some(3));
    assert_extended(&rt, Hops, HELD, 0, Some(HELD));
    assert_code(&rt, Widest, &[], Some(4294967296));
    assert_code(&rt, Widest, &two_greatest, Some(4294967295));
    assert_code(&rt, Widest, &[4, 5], Some(4));
    assert_code(&rt, Widest, &[GREATEST_WEIGHT, 0], Some(0));
    assert_code(&rt, Reach, &[0, GREATEST_WEIGHT], Some(0));
    assert_code(&rt, Reliable, &[GREATEST_WEIGHT, 0], Some(0));
}

#[test]
fn within_a_limit(rt: HostRuntime) {
    let five = Within::new(5).expect(&rt, "refused");
    assert_code(&rt, five, &[1, 2, 2], Some(5));
    assert_code(&rt, five, &[1, 2, 5], None);
    let greatest = Within::new(HELD).expect(&rt, "refused");
    assert_extended(&rt, greatest, HELD, 0, Some(HELD));
    assert_extended(&rt, greatest, HELD, 1, None);
    assert!(rt; Within::new(HELD + 1).is_none());
}

/// Asserts that a number is the greatest value, which is its own code.
fn assert_greatest<A: PathAlgebra<Value = u64>>(rt: &impl Abort, algebra: A, greatest: u64) {
    assert!(rt; algebra.is_value(greatest) && algebra.value_of(greatest) == Some(greatest));
    let beyond = greatest.saturating_add(1);
    assert!(rt; !algebra.is_value(beyond) && algebra.value_of(beyond) == None);
}

#[test]
fn codes_and_names(rt: HostRuntime) {
    assert_greatest(&rt, Shortest, HELD);
    assert_greatest(&rt, Hops, HELD);
    assert_greatest(&rt, Widest, 4294967296);
    assert_greatest(&rt, Reliable, 1000000000000);
    assert!(rt; Reach.value_of(0) == Some(()) && Reach.value_of(1) == None);
    assert_eq!(rt; Reliable.name().text(), "reliable");
    assert!(rt; AlgebraName::from_text(b"within") == Some(AlgebraName::Within));
    assert!(rt; AlgebraName::from_text(b"fast") == None);
}

#[test]
fn theorems_may_be_cited(rt: HostRuntime) {
    let graph = graph_of(&rt, 2, &[(1, 2, 7)]);
    laws_hold(Widest);
    names_are_read_back();
    best_values_are_unique(Widest);
    closed_labels_are_best(Widest, &graph);
    tight_arcs_reach(Widest, &graph);
    merged_labels_are_best(Widest);
    shortest_values_are_least_sums(&graph);
}
