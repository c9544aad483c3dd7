// Numbers as text.
ghost use Rattle.std.specs.Prelude.{◌≡◌, ◌<◌, ◌≤◌, length, drop, Some, IsAscii};
ghost use Rattle.text.specs.Internal.Row.{row_text};

use itoa::write_digits;
use std::fmt;
use std::str::from_utf8;

// The most numbers of a row, and the bytes for their text: 20 digits each, and a space before them.
const MOST_NUMBERS: usize = 7;

const ROOM: usize = 21 * MOST_NUMBERS;

// Numbers in decimal digits, with a space between each two. They are written as one piece, since each piece that goes to an output costs
// more than its digits.
#[derive(Clone, Copy)]
pub struct Row<const N: usize> {
    pub numbers: [u64; N],
    pub ghost few: { (0 < N) × (N ≤ 7) },
}

impl<const N: usize> fmt::Display for Row<N> {
    ghost output = { λ row. Some (row_text row.numbers) };

    fn fmt<W: fmt::Write>(&self, f: &mut fmt::Formatter<W>) -> fmt::Result {
        let mut text = [0; ROOM];
        let start = put(&self.numbers, &mut text);
        let Ok(row) = from_utf8(&text[start..]) else {
            unreachable!();
        };
        f.write_str(row)
    }
}

// Puts the text of numbers to the end of a block, from the last number to the first, and answers where it starts.
#[inline]
fn put(numbers: &[u64], text: &mut [u8; ROOM]) -> usize
    requires { (0 < length numbers.now) × (length numbers.now ≤ 7) }
    ensures within { result ≤ length text.new }
    ensures ascii { IsAscii (row_text numbers.now) }
    ensures written { drop result text.new ≡ row_text numbers.now }
{
    let mut at = ROOM;
    for left in (0..numbers.len()).rev() {
        at = write_digits(numbers[left], text, at) - 1;
        text[at] = b' ';
    }
    at + 1
}

#[cfg(test)]
mod tests;
