// Pieces of text: what is put after what short lines hold.
ghost use Rattle.std.specs.Prelude.{◌≡◌, ◌+◌, ◌≤◌, [], ◌∷◌, ◌++◌, length, decimal};
ghost use Rattle.arrayvec.specs.ArrayVec.{array_vec_len};
ghost use Rattle.reports.specs.Texts.{spaced};

use arrayvec::ArrayVec;
use itoa::Buffer;

// The text, for which there is room.
pub(crate) fn put<const N: usize>(text: &str, lines: &mut ArrayVec<u8, N>)
    requires { array_vec_len lines.old + length text.now ≤ N }
    ensures { lines.new.items ≡ lines.old.items ++ text.now }
{
    let _fits = lines.try_extend_from_slice(text.as_bytes());
}

// A space and the count in decimal.
pub(crate) fn put_count<const N: usize>(count: u32, lines: &mut ArrayVec<u8, N>)
    requires { array_vec_len lines.old + 11 ≤ N }
    ensures text { lines.new.items ≡ lines.old.items ++ (32 ∷ decimal count) }
    ensures bound { array_vec_len lines.new ≤ array_vec_len lines.old + 11 }
{
    let mut digits = Buffer::new();
    lines.push(b' ');
    put(digits.format(count), lines);
}

// Three counts, and the end of the line.
pub(crate) fn put_counts<const N: usize>(
    first: u32,
    second: u32,
    third: u32,
    lines: &mut ArrayVec<u8, N>,
)
    requires { array_vec_len lines.old + 34 ≤ N }
    ensures text { lines.new.items ≡ lines.old.items ++ spaced (decimal first ∷ decimal second ∷ decimal third ∷ []) }
    ensures bound { array_vec_len lines.new ≤ array_vec_len lines.old + 34 }
{
    put_count(first, lines);
    put_count(second, lines);
    put_count(third, lines);
    lines.push(b'\n');
}
