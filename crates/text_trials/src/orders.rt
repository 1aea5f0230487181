//! Orders of five vertices, read in pieces and written back.
use crate::ends::Pieces;
use elimination_order::Order;
use order_files::{read_order, write_order};
use road_graph::Vertex;
use std::alloc::Global;
use std::process::Abort;
use text_lines::{Plain, ReadFault};

/// The order of five vertices that a text has, or its fault.
fn order(alloc: Global, text: &str) -> Result<Order, ReadFault> {
    read_order(alloc, &mut Pieces::new(text.as_bytes(), 3, false), 5)
}

/// Asserts which vertices a text has in which order, and how they are written back.
fn assert_order(rt: &(impl Abort + AllocGlobal), text: &str, wanted: &[Vertex], again: &[u8]) {
    match order(rt.alloc(), text) {
        Ok(order) => {
            assert_eq!(rt; order.vertices.as_slice(), wanted);
            let mut to = Plain::new(Vec::new(rt.alloc()));
            assert_eq!(rt; write_order(&mut to, &order), Ok(()));
            assert_eq!(rt; to.into_inner().as_slice(), again);
        }
        Err(fault) => assert_eq!(rt; fault.number, 0),
    }
}

#[test]
fn places_lead_to_an_order(rt: HostRuntime) {
    let wanted = [Vertex(2), Vertex(5), Vertex(1), Vertex(3), Vertex(4)];
    let again = b"2\n0\n3\n4\n1\n";
    for text in [
        "2\n0\n3\n4\n1\n",
        "c 7\n\n2\n \t00\r\n3 \nc\n4\n000000000000000000000000000001",
    ] {
        assert_order(&rt, text, &wanted, again);
    }
}

#[test]
fn faults_of_an_order(rt: HostRuntime) {
    for &(text, number, line) in &[
        ("0\n1 2\n", 14, 2),
        ("0\n-1\n", 15, 2),
        ("p\n", 15, 1),
        ("0\n5\n", 16, 2),
        ("18446744073709551616\n", 16, 1),
        ("0\n1\n2\n3\n4\n\n0 x\n", 18, 7),
        ("0\n1\n2\n3\n", 19, 5),
        ("", 19, 1),
        ("3\n0\n3\n", 20, 3),
        ("3\n3 3\n", 14, 2),
    ] {
        match order(rt.alloc(), text) {
            Ok(_) => assert!(rt; false, "{text}"),
            Err(fault) => {
                assert_eq!(rt; fault.number, number, "{text}");
                assert_eq!(rt; fault.line, line, "{text}");
            }
        }
    }
}
