//! Lines built from words and numbers, with no memory but their own.
ghost use Rattle.std.specs.Prelude.{◌≡◌, ℕ, ◌+◌, ◌≤◌, ◌<◌, ◌++◌, ◌∷◌, [], decimal, List};
ghost use Rattle.arrayvec.specs.ArrayString.{array_string_len};

use arrayvec::ArrayString;
use itoa::Buffer;

/// How many bytes a line has room for.
pub const LINE: usize = 192;

/// A line that is being built. It has room for four numbers and some short words.
pub type Line = ArrayString<LINE>;

/// Appends a number.
pub fn push_number(line: &mut Line, n: u64)
    requires { array_string_len line.old + 41 < 192 }
    ensures bytes { line.new.bytes ≡ line.old.bytes ++ decimal n }
    ensures len { array_string_len line.new ≤ array_string_len line.old + 40 }
{
    let mut buffer = Buffer::new();
    line.push_str(buffer.format(n));
}

/// Appends a space and a number.
pub fn push_spaced(line: &mut Line, n: u64)
    requires { array_string_len line.old + 42 < 192 }
    ensures bytes { line.new.bytes ≡ line.old.bytes ++ (32 ∷ decimal n) }
    ensures len { array_string_len line.new ≤ array_string_len line.old + 41 }
{
    line.push_str(" ");
    push_number(line, n);
}
