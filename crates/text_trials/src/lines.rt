//! A small kind of text, read in pieces and with failures, and the writers over an output that
//! fills up.
ghost use Rattle.std.specs.Prelude.{◌≡◌, ◌<◌, ◌≤◌, ◌+◌, ◌^◌, ℕ, List, Some, Ok, length, map, refl, IfOk, IfErr, IfSome, []};
ghost use Rattle.text_trials.specs.Numbers.{below_top, numbers_line, numbers_rules};
ghost use Rattle.text_lines.specs.Reads.{ReadsValue, ReadsFault, TellsFailure, TellsNoOther, IsReadNumber};
ghost use Rattle.text_lines.specs.Slots.{word_in};
ghost use Rattle.text_lines.specs.Takes.{Agrees, Leaves, GivesBy};

use crate::ends::Pieces;
use crate::pages::Page;
use road_files::rules::{FIELDS, NOT_A_NUMBER, TOO_LARGE, UNKNOWN_LINE};
use road_files::write_list;
use road_graph::Vertex;
use std::alloc::Global;
use std::io::{self, Write};
use std::process::Abort;
use std::test::Fail;
use text_lines::{
    Buffered, Line, LineFault, LineParser, Plain, ReadFailed, ReadFault, RoadRead, RoadWrite, Slot,
    WriteFault, push_item, push_spaced, read_whole, write_bytes,
};

/// Parses lines `n NUMBER`.
#[derive(Drop)]
struct NumberParser {
    numbers: Vec<u64>,
}

fn below_top(slot: &Slot) -> Result<u64, LineFault>
    ensures { Agrees (below_top (word_in slot.now).number) result }
{
    match slot.number {
        None => Err(LineFault::Broken(NOT_A_NUMBER)),
        Some(n) if n > u128::from(u64::MAX) => Err(LineFault::Broken(TOO_LARGE)),
        Some(n) => Ok(n as u64),
    }
}

impl NumberParser {
    #[tactic(auto, unfolding(crate::specs::Numbers::numbers_line))]
    fn parse_line(&mut self, slots: &[Slot]) -> Result<(), LineFault>
        ensures { Leaves (numbers_line self.old.numbers.items (map word_in slots.now)) result
            self.new.numbers.items }
    {
        if slots.is_empty() {
            return Ok(());
        }
        if !slots[0].is_word(b"n") {
            return Err(LineFault::Broken(UNKNOWN_LINE));
        }
        if slots.len() != 2 {
            return Err(LineFault::Broken(FIELDS));
        }
        let number = below_top(&slots[1])?;
        push_item(&mut self.numbers, number)
    }
}

impl LineParser for NumberParser {
    type Value = Vec<u64>;

    ghost meaning = { record { gives = λ cut s at ls r. GivesBy numbers_rules s.numbers.items (λ v. v.items) cut at ls r; so_far = λ _ _. Unit {0} } };

    fn field(&mut self, _slot: &Slot) -> Result<(), LineFault> {
        Ok(())
    }

    fn short_line(&mut self, _letter: u8, _numbers: (u64, u64, u64)) -> bool {
        false
    }

    fn line(&mut self, slots: &[Slot]) -> Result<(), LineFault> {
        self.parse_line(slots)
    }

    fn finish(self) -> Result<Vec<u64>, LineFault> {
        Ok(self.numbers)
    }

    ghost stops_short = { λ s at. refl };
}

/// The numbers of a text.
fn read_numbers<R: RoadRead>(alloc: Global, from: &mut R) -> Result<Vec<u64>, ReadFault>
    ensures value { ReadsValue numbers_rules (λ v. v.items) (R.seen from.old).left result }
    ensures fault { ReadsFault numbers_rules (R.seen from.old).left result }
    ensures told { TellsFailure (R.seen from.old).failures (R.seen from.new).failures result }
    ensures untold { TellsNoOther (R.seen from.old).failures (R.seen from.new).failures result }
    ensures numbered { IsReadNumber 10 255 result }
{
    read_whole(
        from,
        NumberParser {
            numbers: Vec::new(alloc),
        },
    )
}

/// The sum of the numbers, or the fault's number and line.
fn outcome(alloc: Global, bytes: &[u8], piece: usize, fails: bool) -> Result<u64, (u8, u64)>
    requires { 0 < piece }
{
    match read_numbers(alloc, &mut Pieces::new(bytes, piece, fails)) {
        Ok(numbers) => Ok(numbers.iter().fold(0, |sum, n| u64::wrapping_add(sum, *n))),
        Err(fault) => Err((fault.number, fault.line)),
    }
}

#[test]
fn pieces_of_any_size(rt: HostRuntime) {
    let text = b"n 1\r\n\n \t\n\tn   0020 \r\nn 300";
    for piece in [1, 2, 3, 7, 65_535, 65_536] {
        assert_eq!(rt; outcome(rt.alloc(), text, piece, false), Ok(321));
    }
}

#[test]
fn a_reader_that_fails(rt: HostRuntime) {
    let text = b"n 1\r\nn 20\nn 300\n";
    for end in 0..=text.len() {
        assert_eq!(rt; outcome(rt.alloc(), &text[..end], 2, true), Err((1, 0)));
    }
}

/// Asserts what texts give, read in pieces of this many bytes: the sum of the numbers, or the
/// fault's number and line.
fn assert_outcomes(
    rt: &(impl Abort + AllocGlobal),
    piece: usize,
    cases: &[(&str, Result<u64, (u8, u64)>)],
)
    requires { 0 < piece }
{
    for (text, wanted) in cases {
        assert_eq!(rt;
            outcome(rt.alloc(), text.as_bytes(), piece, false),
            *wanted,
            "{text}"
        );
    }
}

#[test]
fn faults_in_order(rt: HostRuntime) {
    assert_eq!(rt; outcome(rt.alloc(), b"", 9, true), Err((1, 0)));
    assert_eq!(rt; outcome(rt.alloc(), b"n x\nm\n", 9, true), Err((15, 1)));
    assert_outcomes(
        &rt,
        9,
        &[
            ("", Ok(0)),
            ("n 1\nm 1 x\n", Err((13, 2))),
            ("\n\nn 1 x\nm\n", Err((14, 3))),
            ("n +1", Err((15, 1))),
            ("nn 1", Err((13, 1))),
            ("nnnnnnnnnnnnnnnnn 1", Err((13, 1))),
            ("n 1 1 1 1 1 1 1 1 1", Err((14, 1))),
        ],
    );
}

#[test]
fn numbers_at_the_top(rt: HostRuntime) {
    assert_outcomes(
        &rt,
        5,
        &[
            ("n 18446744073709551615", Ok(18_446_744_073_709_551_615)),
            (
                "n 000000000000000000000018446744073709551615",
                Ok(18_446_744_073_709_551_615),
            ),
            ("n 18446744073709551616", Err((16, 1))),
            ("n 184467440737095516150", Err((16, 1))),
        ],
    );
    assert_outcomes(
        &rt,
        70,
        &[
            (
                "n 99999999999999999999999999999999999999999999",
                Err((16, 1)),
            ),
            (
                "n 9999999999999999999999999999999999999999999x",
                Err((15, 1)),
            ),
        ],
    );
}

#[test]
fn numbers_of_any_length(rt: HostRuntime) {
    for piece in 1..=24 {
        assert_outcomes(
            &rt,
            piece,
            &[
                ("n 1234567\n", Ok(1_234_567)),
                ("n 12345678\n", Ok(12_345_678)),
                ("n 123456789\n", Ok(123_456_789)),
                ("n 123456789012345\n", Ok(123_456_789_012_345)),
                ("n 1234567890123456\n", Ok(1_234_567_890_123_456)),
                ("n 12345678901234567\n", Ok(12_345_678_901_234_567)),
                ("n 1234567890123456789\n", Ok(1_234_567_890_123_456_789)),
                ("n 12345678901234567890\n", Ok(12_345_678_901_234_567_890)),
                ("n 123456789012345678901\n", Err((16, 1))),
            ],
        );
    }
}

#[test]
fn carriage_returns_and_odd_bytes(rt: HostRuntime) {
    assert_outcomes(
        &rt,
        1,
        &[
            ("n 1\r", Ok(1)),
            ("\r\n\r\nn 1", Ok(1)),
            ("n 1\r\r\n", Err((15, 1))),
            ("\r\r\n", Err((13, 1))),
            ("n\r1\n", Err((13, 1))),
            ("n \r1\n", Err((15, 1))),
            ("n 1\x0b\n", Err((15, 1))),
            ("n 1 \x00\n", Err((14, 1))),
        ],
    );
    assert_eq!(rt; outcome(rt.alloc(), b"\xff\n", 1, false), Err((13, 1)));
}

/// Asserts how a write or a flush ended, and what is on the page afterwards.
fn assert_wrote(
    rt: &impl Abort,
    ended: Result<(), WriteFault>,
    wanted: Result<(), WriteFault>,
    page: &Page,
    text: &[u8],
) {
    assert_eq!(rt; ended, wanted);
    assert_eq!(rt; page.bytes.as_slice(), text);
}

#[test]
fn writers_of_lines(rt: HostRuntime) {
    let mut page = Page::new(32, 256);
    let mut line = Line::new();
    line.push_str("d");
    push_spaced(&mut line, 18_446_744_073_709_551_615);
    let ended = write_bytes(&mut page, line.as_str().as_bytes());
    assert_wrote(&rt, ended, Ok(()), &page, b"d 18446744073709551615");
    let ended = write_list(&mut page, b"r", &[Vertex(0), Vertex(70), Vertex(5)]);
    let both = b"d 18446744073709551615r 0 70 5\n";
    assert_wrote(&rt, ended, Ok(()), &page, both);
    let ended = write_list(&mut page, b"m", &[Vertex(1)]);
    let full = b"d 18446744073709551615r 0 70 5\nm";
    assert_wrote(&rt, ended, Err(WriteFault), &page, full);
    let ended = write_bytes(&mut page, b"");
    assert_wrote(&rt, ended, Ok(()), &page, full);
}

#[test]
fn gathers_and_passes_on(rt: HostRuntime) -> Result<(), Fail> {
    let mut buffered = Buffered::new(rt.alloc(), Page::new(32, 256))?;
    for _ in 0..3 {
        let ended = write_bytes(&mut buffered, b"0123456789");
        assert_wrote(&rt, ended, Ok(()), buffered.inner(), b"");
    }
    let ended = buffered.flush();
    let thirty = b"012345678901234567890123456789";
    assert_wrote(&rt, ended, Ok(()), buffered.inner(), thirty);
    let ended = write_bytes(&mut buffered, b"abcd");
    assert_wrote(&rt, ended, Ok(()), buffered.inner(), thirty);
    for _ in 0..2 {
        let ended = buffered.flush();
        let full = b"012345678901234567890123456789ab";
        assert_wrote(&rt, ended, Err(WriteFault), buffered.inner(), full);
    }
    Ok(())
}

#[test]
fn ends_of_std(rt: HostRuntime) -> Result<(), Fail> {
    let alloc = rt.alloc();
    let text: &[u8] = b"n 4\nn 5\n";
    match read_numbers(alloc, &mut Plain::new(text)) {
        Ok(numbers) => assert_eq!(rt; numbers.as_slice(), [4u64, 5].as_slice()),
        Err(_) => assert!(rt; false),
    }
    let mut written = Plain::new(Vec::new(alloc));
    assert_eq!(rt;
        write_list(&mut written, b"m", &[Vertex(4), Vertex(5)]),
        Ok(())
    );
    assert_eq!(rt; written.flush(), Ok(()));
    assert_eq!(rt; written.into_inner().as_slice(), b"m 4 5\n".as_slice());
    Ok(())
}

/// Takes all, and fails to pass it on.
#[derive(Drop)]
struct Stuck;

impl Write for Stuck {
    fn write(&mut self, buf: &[u8]) -> io::Result<usize> {
        Ok(buf.len())
    }

    fn flush(&mut self) -> io::Result<()> {
        Err(io::Error::from(io::ErrorKind::BrokenPipe))
    }
}

#[test]
fn a_flush_that_fails(rt: HostRuntime) -> Result<(), Fail> {
    let mut plain = Plain::new(Stuck);
    assert_eq!(rt; write_bytes(&mut plain, b"n 1"), Ok(()));
    assert_eq!(rt; plain.flush(), Err(WriteFault));
    let mut buffered = Buffered::new(rt.alloc(), plain)?;
    assert_eq!(rt; write_bytes(&mut buffered, b"n 1"), Ok(()));
    assert_eq!(rt; buffered.flush(), Err(WriteFault));
    Ok(())
}
