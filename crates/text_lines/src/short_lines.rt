//! Lines of a letter and three numbers, each taken whole: in large texts most lines are such.
ghost use Rattle.std.specs.Prelude.{◌≡◌, ◌<◌, ◌≤◌, length, take, IfSome, true, All, Some};
ghost use Rattle.std.specs.Char.{is_ascii_digit};
ghost use Rattle.text_lines.specs.Scans.{number_with};
ghost use Rattle.text_lines.specs.ShortLines.{IsNumberThen, IsShortLine};

use core::dec2flt::read_digits;

/// A line of a letter and three numbers, with one space between them.
#[derive(Clone, Copy)]
pub struct ShortLine {
    pub letter: u8,
    pub numbers: (u64, u64, u64),
    /// How many bytes it has, with its LF.
    pub len: usize,
}

/// How many digits a number of 64 bits always has room for.
const MOST_DIGITS: usize = 19;

/// How many digits come first, and their number, read eight bytes at a time. None if there are too
/// many.
#[inline(always)]
fn leading_number(bytes: &[u8]) -> (usize, u64)
    ensures bound { result.0 ≤ length bytes.now }
    ensures digits { All (λ b. is_ascii_digit b ≡ true) (take result.0 bytes.now) }
    ensures number { Some result.1 ≡ number_with (Some 0) (take result.0 bytes.now) }
{
    let (prefix, number) = read_digits(bytes, 0, 0);
    if prefix > MOST_DIGITS {
        return (0, 0);
    }
    (prefix, number)
}

/// The number of the first digits, if this byte follows them, and how many bytes that makes.
#[inline(always)]
fn number_then(bytes: &[u8], end: u8) -> Option<(u64, usize)>
    ensures bound { IfSome result (λ r. r.1 ≤ length bytes.now) }
    ensures number { IfSome result (λ r. IsNumberThen (take r.1 bytes.now) end r.0) }
{
    let (prefix, number) = leading_number(bytes);
    if prefix == 0 || prefix == bytes.len() || bytes[prefix] != end {
        return None;
    }
    Some((number, prefix + 1))
}

/// The first line, if it is a letter and three numbers.
#[inline(always)]
pub fn short_line(bytes: &[u8]) -> Option<ShortLine>
    ensures bound { IfSome result (λ s. (0 < s.len) × (s.len ≤ length bytes.now)) }
    ensures line { IfSome result (λ s. IsShortLine (take s.len bytes.now) s.letter s.numbers.0
        s.numbers.1 s.numbers.2) }
{
    if bytes.len() < 2 || bytes[0] <= b' ' || bytes[1] != b' ' {
        return None;
    }
    let (first, one) = number_then(&bytes[2..], b' ')?;
    let second_at = 2 + one;
    let (second, two) = number_then(&bytes[second_at..], b' ')?;
    let third_at = second_at + two;
    let (third, three) = number_then(&bytes[third_at..], b'\n')?;
    Some(ShortLine {
        letter: bytes[0],
        numbers: (first, second, third),
        len: third_at + three,
    })
}
