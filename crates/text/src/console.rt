// A program's input and output. What waits for output is written before more input is read, so that a caller who sends one piece and
// waits gets its answer, and many pieces that came at once are answered in one write.
ghost use Rattle.std.specs.Prelude.{OnOk, IfOk, IfErr, IsErr, [], vec_len, ◌≡◌, ◌+◌, ◌≤◌};
ghost use Rattle.std.specs.Io.Buffered.{reader_buffer, reader_inner, writer_buffer, writer_inner};
ghost use Rattle.text.specs.Internal.Failure.{IsOfMemory, IsOfOutput};

use crate::failure::Failure;
use crate::pieces::{LONGEST_LINE, Pieces};
use std::alloc::Global;
use std::io::{BufRead, BufReader, BufWriter, Read, Write};

// Bytes of each of the two buffers.
const BUFFER_SIZE: usize = 65_536;

#[derive(Drop)]
pub struct Console<R: Read + Drop, W: Write + Drop> {
    input: BufReader<R>,
    pub output: BufWriter<W>,
}

impl<R: Read + Drop, W: Write + Drop> Console<R, W> {
    // Nothing is read and nothing waits. It fails for memory alone.
    pub fn new(alloc: Global, input: R, output: W) -> Result<Console<R, W>, Failure>
        ensures input { IfOk result (λ console. (reader_inner console.input ≡ input) × (reader_buffer console.input ≡ [])) }
        ensures output { IfOk result (λ console. (writer_inner console.output ≡ output) × (writer_buffer console.output ≡ [])) }
        ensures err { IfErr result (λ failure. IsOfMemory failure) }
    {
        let input = BufReader::with_capacity(alloc, BUFFER_SIZE, input).map_err(Failure::Memory)?;
        let output = BufWriter::with_capacity(alloc, BUFFER_SIZE, output).map_err(Failure::Memory)?;
        Ok(Console { input, output })
    }

    // Reads more where nothing waits, and writes what waits for output before that.
    fn fill(&mut self) -> Result<(), Failure> {
        if self.input.buffer().is_empty() {
            self.output.flush()?;
            self.input.fill_buf().map_err(Failure::Input)?;
        }
        Ok(())
    }

    // Puts the next piece into `piece`, and answers whether it is whole: the last one ends with the input, and is no piece if it is
    // empty. The piece is lent, as to std's `read_until`, so that one block of memory serves all pieces. Of a line that is too long one
    // byte more than the longest is kept. A proved loop has to end, and nothing says that an input does, so it counts its turns.
    fn read_piece(&mut self, pieces: Pieces, piece: &mut Vec<u8>) -> Result<bool, Failure>
        ensures { OnOk result (vec_len piece.new ≤ LONGEST_LINE + 1) }
    {
        piece.clear();
        for _ in 0..u64::MAX {
            self.fill()?;
            let waiting = self.input.buffer();
            if waiting.is_empty() {
                break;
            }
            let part = pieces.part_of(waiting, piece.len());
            let room = (LONGEST_LINE + 1).saturating_sub(piece.len());
            piece.extend_from_slice(&waiting[..part.taken.min(room)])?;
            self.input.consume(part.used);
            if part.ends_piece {
                return Ok(true);
            }
        }
        Ok(false)
    }

    // Answers each piece of the input in order. The answers to what came last wait in `output`. What `answer` does with a piece is the
    // caller's to say, and nothing says that an input ends, so no clause promises anything.
    pub fn answer_pieces<F>(
        &mut self,
        alloc: Global,
        pieces: Pieces,
        mut answer: F,
    ) -> Result<(), Failure>
    where
        F: FnMut(&[u8], &mut BufWriter<W>) -> Result<(), Failure>,
        requires { F.IsAlwaysCallable answer }
    {
        let mut piece = Vec::new(alloc);
        for _ in 0..u64::MAX {
            let is_whole = self.read_piece(pieces, &mut piece)?;
            if is_whole || !piece.is_empty() {
                answer(piece.as_slice(), &mut self.output)?;
            }
            if !is_whole {
                break;
            }
        }
        Ok(())
    }

    // Ends a program's input: what waits is written. After a write that failed nothing is written any more, as a buffer that is dropped
    // would try.
    pub fn end(self, outcome: Result<(), Failure>) -> Result<(), Failure>
        ensures failed { IsErr outcome → result ≡ outcome }
        ensures ok { outcome ≡ Ok tt → IfErr result (λ failure. IsOfOutput failure) }
    {
        let Console {
            input: _,
            mut output,
        } = self;
        let is_broken = matches!(&outcome, Err(Failure::Output(_)));
        let flushed = if is_broken { Ok(()) } else { output.flush() };
        if is_broken || flushed.is_err() {
            let _ = output.into_parts();
        }
        outcome.and(flushed.map_err(Failure::Output))
    }
}

#[cfg(test)]
mod tests;
