// Buffers that are lent to calls, filled with a pattern before, so that every byte that a call changes is seen.
ghost use Rattle.std.specs.Prelude.{◌≡◌, ◌≤◌, not, IfOk, take, length, vec_len, slice_range, bytes_eq};

use call_text::fault::MOST_ROOM;
use std::alloc::{AllocError, Global};

// What a buffer is filled with, for the longest one.
#[derive(Drop)]
pub struct Pattern(Vec<u8>);

// The pattern's byte at a place; `as` narrows what the division left. No event has bytes like these but in its severity and time.
fn pattern_at(place: usize) -> u8 {
    165 + (place % 91) as u8
}

impl Pattern {
    pub fn new(alloc: Global) -> Result<Pattern, AllocError>
        ensures { IfOk result (λ pattern. vec_len pattern.0 ≡ MOST_ROOM) }
    {
        let bytes = (0..MOST_ROOM).map(pattern_at).collect(alloc)?;
        Ok(Pattern(bytes))
    }

    fn front(&self, length: usize) -> &[u8]
        ensures { result.now ≡ take length self.now.0.items }
    {
        &self.0[..length.min(self.0.len())]
    }

    // A buffer of so many bytes, at most the longest.
    pub fn lend(&self, alloc: Global, room: usize) -> Result<Vec<u8>, AllocError>
        ensures { IfOk result (λ lent. lent.items ≡ take room self.now.0.items) }
    {
        Vec::from_slice(alloc, self.front(room))
    }

    // Whether a byte of a lent buffer behind the first `used` is not the pattern's.
    pub fn is_touched(&self, lent: &[u8], used: usize) -> bool
        requires used { used ≤ length lent.now }
        requires lent { length lent.now ≤ vec_len self.now.0 }
        ensures { result ≡ not (bytes_eq (slice_range lent.now used (length lent.now)) (slice_range self.now.0.items used (length lent.now))) }
    {
        lent[used..] != self.0[used..lent.len()]
    }
}
