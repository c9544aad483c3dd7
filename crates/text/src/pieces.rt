// Pieces of an input: lines, or records of one size.
ghost use Rattle.std.specs.Prelude.{◌≡◌, ℕ, ◌<◌, ◌≤◌, length, IfSome};
ghost use Rattle.text.specs.Internal.Pieces.{line_end_of, IsLinePart, IsRecordPart};

// The longest line that a program takes, in bytes.
pub const LONGEST_LINE: usize = 20_000;

#[derive(Clone, Copy)]
pub enum Pieces {
    // Bytes up to a line end, which is no part of the line.
    Lines,
    // So many bytes, at least one.
    Records(usize),
}

// What of the bytes that wait belongs to the piece at hand.
#[derive(Clone, Copy)]
pub(crate) struct Part {
    // How many are the piece's, and how many are used up with it: a line end belongs to its line.
    pub(crate) taken: usize,
    pub(crate) used: usize,
    pub(crate) ends_piece: bool,
}

impl Pieces {
    // The part of a piece of which `held` bytes are there already.
    pub(crate) fn part_of(self, waiting: &[u8], held: usize) -> Part
        ensures within { result.taken ≤ length waiting.now }
        ensures line { self ≡ Pieces.Lines → IsLinePart waiting.now result }
        ensures record_part { (size : ℕ) → self ≡ Pieces.Records size → IsRecordPart size held waiting.now result }
    {
        match self {
            Pieces::Lines => line_part(waiting),
            Pieces::Records(size) => {
                let left = size.saturating_sub(held);
                let taken = left.min(waiting.len());
                Part {
                    taken,
                    used: taken,
                    ends_piece: taken == left,
                }
            }
        }
    }
}

// Where the first line end stands.
fn line_end(waiting: &[u8]) -> Option<usize>
    ensures value { result ≡ line_end_of waiting.now }
    ensures within { IfSome result (λ end. end < length waiting.now) }
{
    waiting.iter().position(|byte| *byte == b'\n')
}

// The part of a line.
fn line_part(waiting: &[u8]) -> Part
    ensures within { result.taken ≤ length waiting.now }
    ensures line { IsLinePart waiting.now result }
{
    match line_end(waiting) {
        Some(end) => Part {
            taken: end,
            used: end + 1,
            ends_piece: true,
        },
        None => Part {
            taken: waiting.len(),
            used: waiting.len(),
            ends_piece: false,
        },
    }
}
