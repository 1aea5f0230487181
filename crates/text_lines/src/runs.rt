//! Runs of bytes that continue a field, and the field's number with them.
ghost use Rattle.std.specs.Prelude.{◌≡◌, ℕ, ◌≤◌, ◌<◌, length, take, true, All, Some};
ghost use Rattle.std.specs.Char.{is_ascii_digit};
ghost use Rattle.text_lines.specs.Scans.{is_plain, number_on, number_with};

/// 2 ^ 64, at which numbers saturate.
const HELD: u128 = 18_446_744_073_709_551_616;

/// A number below this has room for one more digit in 64 bits.
const SMALL: u64 = 1_000_000_000_000_000_000;

/// The number after one more byte, saturated at 2 ^ 64.
#[inline(always)]
pub fn number_on(number: Option<u128>, byte: u8) -> Option<u128>
    ensures { result ≡ number_on number byte }
{
    match number {
        Some(n) if byte.is_ascii_digit() => {
            let digit = byte - b'0';
            if n < u128::from(SMALL) {
                return Some(u128::from(n as u64 * 10 + u64::from(digit)));
            }
            Some(
                n.saturating_mul(10)
                    .saturating_add(u128::from(digit))
                    .min(HELD),
            )
        }
        _ => None,
    }
}

/// Whether a byte continues a field, whatever comes before and after it.
#[inline(always)]
fn is_plain(byte: u8) -> bool
    ensures { result ≡ is_plain byte }
{
    byte != b' ' && byte != b'\t' && byte != b'\n' && byte != b'\r'
}

/// A number after one more digit.
#[inline(always)]
fn digit_on(number: u64, digit: u8) -> u64
    requires small { number < 1000000000000000000 }
    requires digit { is_ascii_digit digit ≡ true }
    ensures { Some result ≡ number_on (Some number) digit }
{
    number * 10 + u64::from(digit - b'0')
}

/// How many digits come first, as long as the number with them is small, and that number: one
/// register holds it.
#[inline(always)]
fn digits(bytes: &[u8], number: u64) -> (usize, u64)
    ensures bound { result.0 ≤ length bytes.now }
    ensures digits { All (λ b. is_ascii_digit b ≡ true) (take result.0 bytes.now) }
    ensures plain { All (λ b. is_plain b ≡ true) (take result.0 bytes.now) }
    ensures number { Some result.1 ≡ number_with (Some number) (take result.0 bytes.now) }
{
    let mut prefix = 0;
    let mut grown = number;
    while prefix < bytes.len() && grown < SMALL && bytes[prefix].is_ascii_digit() {
        grown = digit_on(grown, bytes[prefix]);
        prefix += 1;
    }
    (prefix, grown)
}

/// The same for a number that may be large, or none.
#[inline(always)]
fn leading_digits(bytes: &[u8], number: Option<u128>) -> (usize, Option<u128>)
    ensures bound { result.0 ≤ length bytes.now }
    ensures plain { All (λ b. is_plain b ≡ true) (take result.0 bytes.now) }
    ensures number { result.1 ≡ number_with number (take result.0 bytes.now) }
{
    match number {
        Some(n) if n < u128::from(SMALL) => {
            let (prefix, grown) = digits(bytes, n as u64);
            (prefix, Some(u128::from(grown)))
        }
        _ => (0, number),
    }
}

/// How many of the first bytes continue a field, and its number with them. Digits are taken first,
/// then other bytes.
#[inline(always)]
pub fn run(bytes: &[u8], number: Option<u128>) -> (usize, Option<u128>)
    ensures bound { result.0 ≤ length bytes.now }
    ensures plain { All (λ b. is_plain b ≡ true) (take result.0 bytes.now) }
    ensures number { result.1 ≡ number_with number (take result.0 bytes.now) }
{
    let (mut prefix, mut grown) = leading_digits(bytes, number);
    while prefix < bytes.len() && is_plain(bytes[prefix]) {
        grown = number_on(grown, bytes[prefix]);
        prefix += 1;
    }
    (prefix, grown)
}
