//! Worked answers written and read, and a writer that fails at each byte.
ghost use Rattle.std.specs.Prelude.{◌≡◌, ◌<◌, ◌≤◌, Some, length, refl, []};

use crate::pages::Page;
use answer_text::{
    Answer, Answers, Reached, VertexLine, read_answers, write_answer, write_answers, write_header,
    write_source_line, write_sources_line, write_vertex_line,
};
use path_algebra::AlgebraName;
use road_files::Kind;
use road_graph::Vertex;
use route_tree::Found;
use std::alloc::Global;
use std::process::Abort;
use std::test::Fail;
use text_lines::{Line, Plain, WriteFault};

const SHORTEST: &[u8] =
    b"p ans ss 1 shortest\ns 1\nd 1 0 0 0\nd 2 3 2 3\nd 3 1 1 1\nd 4 8 3 2\nu 5\n";

const LONGEST: &[u8] = b"d 18446744073709551615 18446744073709551615 4294967295 4294967295\nu 10\n";

const PAIRS: &[u8] =
    b"p ans p2p 3 shortest\nq 1 4\nd 8 3\nr 1 3 2 4\nq 4 1\nu\nq 5 5\nd 0 0\nr 5\n";

const SEVERAL: &[u8] =
    b"p ans ms 2 shortest\nm 4 5\nd 1 3 1 5\nd 2 6 3 3\nd 3 4 2 1\nd 4 0 0 0\nd 5 0 0 0\nm 5 2\nd 1 3 1 5\nd 2 0 0 0\nd 3 4 2 1\nd 4 5 1 2\nd 5 0 0 0\n";

fn reached(code: u64, hops: u32, parent: u32) -> Option<Reached> {
    Some(Reached { code, hops, parent })
}

fn shortest_answers(alloc: Global) -> Result<Answers, Fail> {
    let lines = vec![in alloc;
        reached(0, 0, 0),
        reached(3, 2, 3),
        reached(1, 1, 1),
        reached(8, 3, 2),
        None,
    ]?;
    Ok(Answers {
        name: AlgebraName::Shortest,
        kind: Kind::Sources,
        n: 5,
        list: vec![in alloc;
            Answer::Source {
                source: Vertex(1),
                lines
            },
        ]?,
    })
}

fn found(code: u64, hops: u32, route: Vec<Vertex>) -> Option<Found> {
    Some(Found { code, hops, route })
}

fn pair_answers(alloc: Global) -> Result<Answers, Fail> {
    let there = found(
        8,
        3,
        vec![in alloc; Vertex(1), Vertex(3), Vertex(2), Vertex(4)]?,
    );
    let here = found(0, 0, vec![in alloc; Vertex(5)]?);
    let list = vec![in alloc;
        Answer::Pair {
            source: Vertex(1),
            target: Vertex(4),
            found: there
        },
        Answer::Pair {
            source: Vertex(4),
            target: Vertex(1),
            found: None
        },
        Answer::Pair {
            source: Vertex(5),
            target: Vertex(5),
            found: here
        },
    ]?;
    Ok(Answers {
        name: AlgebraName::Shortest,
        kind: Kind::Pairs,
        n: 5,
        list,
    })
}

/// The text of these answers, in pieces of one byte.
fn page_of(answers: &Answers) -> Page {
    let mut page = Page::new(256, 1);
    if answers.list.len() <= 2 + 1 {
        let _ = write_answers(&mut page, answers);
    }
    page
}

/// What is written after a text was read.
fn read_and_written(alloc: Global, bytes: &[u8], n: u32) -> Page {
    match read_answers(alloc, &mut Plain::new(bytes), n) {
        Ok(answers) => page_of(&answers),
        Err(_) => Page::new(0, 1),
    }
}

#[test]
fn answers_read_back(rt: HostRuntime) {
    for text in [SHORTEST, PAIRS, SEVERAL] {
        let again = read_and_written(rt.alloc(), text, 5);
        assert_eq!(rt; again.bytes.as_slice(), text);
    }
}

#[test]
fn five_vertices_shortest(rt: HostRuntime) -> Result<(), Fail> {
    let page = page_of(&shortest_answers(rt.alloc())?);
    assert_eq!(rt; page.bytes.as_slice(), SHORTEST);
    Ok(())
}

#[test]
fn pairs_with_routes(rt: HostRuntime) -> Result<(), Fail> {
    let page = page_of(&pair_answers(rt.alloc())?);
    assert_eq!(rt; page.bytes.as_slice(), PAIRS);
    Ok(())
}

#[test]
fn several_sources(rt: HostRuntime) -> Result<(), Fail> {
    let alloc = rt.alloc();
    let mut page = Page::new(256, 3);
    let lines = vec![in alloc;
        reached(3, 1, 5),
        reached(6, 3, 3),
        reached(4, 2, 1),
        reached(0, 0, 0),
        reached(0, 0, 0),
    ]?;
    let first = Answer::Multi {
        sources: vec![in alloc; Vertex(4), Vertex(5)]?,
        lines,
    };
    assert_eq!(rt;
        write_header(&mut page, Kind::Multi, 2, AlgebraName::Shortest),
        Ok(())
    );
    assert_eq!(rt; write_answer(&mut page, &first), Ok(()));
    assert_eq!(rt;
        write_sources_line(&mut page, &[Vertex(5), Vertex(2)]),
        Ok(())
    );
    let mut line = VertexLine::new();
    let last = [
        reached(3, 1, 5),
        reached(0, 0, 0),
        reached(4, 2, 1),
        reached(5, 1, 2),
        reached(0, 0, 0),
    ];
    let mut vertex = 0;
    for reached in last {
        vertex = u64::wrapping_add(vertex, 1);
        assert_eq!(rt;
            write_vertex_line(&mut page, &mut line, vertex, reached),
            Ok(())
        );
    }
    assert_eq!(rt; page.bytes.as_slice(), SEVERAL);
    assert_eq!(rt; write_source_line(&mut page, Vertex(7)), Ok(()));
    Ok(())
}

/// The longest line of a vertex: each number is the greatest of its type.
#[test]
fn the_longest_line_of_a_vertex(rt: HostRuntime) {
    let mut page = Page::new(256, 7);
    let mut line = VertexLine::new();
    let longest = Some(Reached {
        code: u64::MAX,
        hops: u32::MAX,
        parent: u32::MAX,
    });
    assert_eq!(rt;
        write_vertex_line(&mut page, &mut line, u64::MAX, longest),
        Ok(())
    );
    assert_eq!(rt; write_vertex_line(&mut page, &mut line, 10, None), Ok(()));
    assert_eq!(rt; page.bytes.as_slice(), LONGEST);
}

#[test]
fn a_writer_that_fails_at_each_byte(rt: HostRuntime) -> Result<(), Fail> {
    let answers = pair_answers(rt.alloc())?;
    for room in 0..PAIRS.len() {
        for piece in [1, 256] {
            let mut page = Page::new(room.min(256), piece);
            assert!(rt; answers.list.len() == 3);
            assert_eq!(rt; write_answers(&mut page, &answers), Err(WriteFault));
            assert_eq!(rt; page.bytes.as_slice(), &PAIRS[..room]);
        }
    }
    Ok(())
}
