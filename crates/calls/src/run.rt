// Calls run on a bank, and answered.
ghost use Rattle.std.specs.Prelude.{◌≡◌, ◌<◌, ◌≤◌, ◌⊎◌, ◌++◌, [], ◌∷◌, IfOk, OnOk, length, vec_len};
ghost use Rattle.std.specs.Io.KnownBytes.{Appends};
ghost use Rattle.call_text.specs.Internal.Call.{IsComment};
ghost use Rattle.bank.specs.Internal.Load.{load_words};
ghost use Rattle.bank_text.specs.Internal.Owned.{words_of, blank_words};

use crate::lent::Pattern;
use crate::reply::{Report, Written};
use bank_text::owned::Bank;
use bank_text::show::Refused;
use call_text::call::{Call, parse};
use call_text::fault::{BadLine, MOST_ROOM};
use event::write::EVENT_SIZE;
use settings::refusals::Refusal;
use std::alloc::{AllocError, Global};
use std::io;
use std::io::Write;
use text::failure::Failure;
use text::pieces::LONGEST_LINE;

// A bank under calls, and what the buffers of the calls are filled with.
#[derive(Drop)]
pub struct Session {
    alloc: Global,
    bank: Bank,
    pattern: Pattern,
}

impl Session {
    // Before the first settings the bank has no alarms.
    pub fn new(alloc: Global) -> Result<Session, AllocError>
        ensures bank { IfOk result (λ session. words_of session.bank ≡ load_words blank_words (0 ∷ 0 ∷ [])) }
        ensures pattern { IfOk result (λ session. vec_len session.pattern.0 ≡ MOST_ROOM) }
    {
        Ok(Session {
            alloc,
            bank: Bank::new(),
            pattern: Pattern::new(alloc)?,
        })
    }

    // Runs and answers a line. A comment is answered by itself, and neither it nor a line that is too long changes anything. No clause says
    // what other lines write, since no reply states the bytes of its text.
    pub fn answer_line<W: Write>(&mut self, line: &[u8], output: &mut W) -> Result<(), Failure>
        ensures comment { length line.now ≤ LONGEST_LINE → IsComment line.now
            → OnOk result (Appends (W.contents output.old) (W.contents output.new) (line.now ++ 10 ∷ [])) }
        ensures unchanged { (LONGEST_LINE < length line.now) ⊎ IsComment line.now → self.new ≡ self.old }
        ensures pattern { self.new.pattern ≡ self.old.pattern }
    {
        // what the line spells
        let mut block = Vec::new(self.alloc);
        match parse(line, &mut block) {
            Ok(None) => output.write_all(line)?,
            Ok(Some(call)) => self.answer_call(call, output)?,
            Err(BadLine::Memory(error)) => return Err(Failure::from(error)),
            Err(bad) => write!(output, "{bad}")?,
        }
        output.write_all(b"\n")?;
        Ok(())
    }

    fn answer_call<W: Write>(&mut self, call: Call<'_>, output: &mut W) -> Result<(), Failure>
        ensures { self.new.pattern ≡ self.old.pattern }
    {
        match call {
            Call::Settings { image } => match self.bank.load(image) {
                Ok(()) => write!(output, "ok {}", self.bank.alarms())?,
                Err(refusal) => write_refused(output, refusal)?,
            },
            Call::Report { alarm } => match self.bank.report(alarm) {
                Ok(found) => {
                    let form = self.bank.form(alarm);
                    write!(output, "{}", Report { found, form })?;
                }
                Err(refusal) => write_refused(output, refusal)?,
            },
            Call::Scan { room, record } => {
                let mut events = self.pattern.lend(self.alloc, room)?;
                let answer = self.bank.scan(record, events.as_mut_slice());
                self.write_lent(output, answer, EVENT_SIZE, &events)?;
            }
            Call::Write { room } => {
                let mut image = self.pattern.lend(self.alloc, room)?;
                let answer = self.bank.write(image.as_mut_slice());
                self.write_lent(output, answer, 1, &image)?;
            }
        }
        Ok(())
    }

    // Writes the answer to a call that was lent a buffer, how many things of one size it put to the buffer's front, and whether it touched
    // more of the buffer than it may.
    fn write_lent<W: Write>(
        &self,
        output: &mut W,
        answer: Result<usize, Refusal>,
        size: usize,
        lent: &[u8],
    ) -> io::Result<()>
        requires { length lent.now ≤ vec_len self.now.pattern.0 }
    {
        let length = match answer {
            Ok(number) => {
                let bytes = &lent[..number.saturating_mul(size).min(lent.len())];
                write!(output, "{}", Written { number, bytes })?;
                bytes.len()
            }
            Err(refusal) => {
                write_refused(output, refusal)?;
                0
            }
        };
        if self.pattern.is_touched(lent, length) {
            write!(output, " touched")?;
        }
        Ok(())
    }
}

fn write_refused<W: Write>(output: &mut W, refusal: Refusal) -> io::Result<()> {
    write!(output, "{}", Refused(refusal))
}
