// Pieces of inputs that come in parts of any length, end anywhere, or fail.
use super::*;
use std::alloc::AllocError;
use std::cell::RefCell;
use std::io;
use std::test::Fail;

// A reader and a writer that tell one log what they do: `<` for a read, and what is written. The reader gives one byte string a read, and
// fails at one that is `!`.
struct Bench {
    log: RefCell<Vec<u8>>,
}

#[derive(Drop)]
struct Parts<'a> {
    parts: &'a [&'a [u8]],
    next: usize,
    bench: &'a Bench,
}

#[derive(Drop)]
struct Log<'a> {
    bench: &'a Bench,
    fails: bool,
}

fn failed() -> io::Error {
    io::Error::from_raw_os_error(5)
}

impl Bench {
    fn add(&self, bytes: &[u8]) -> io::Result<()> {
        let Ok(mut log) = self.log.try_borrow_mut() else {
            return Err(failed());
        };
        log.extend_from_slice(bytes)?;
        Ok(())
    }
}

impl Read for Parts<'_> {
    fn read(&mut self, buffer: &mut [u8]) -> io::Result<usize> {
        self.bench.add(b"<")?;
        let Some(part) = self.parts.get(self.next) else {
            return Ok(0);
        };
        self.next = self.next.saturating_add(1);
        let mut part = *part;
        if part == b"!".as_slice() {
            return Err(failed());
        }
        part.read(buffer)
    }
}

impl Write for Log<'_> {
    fn write(&mut self, bytes: &[u8]) -> io::Result<usize> {
        if self.fails {
            return Err(failed());
        }
        self.bench.add(bytes)?;
        Ok(bytes.len())
    }

    fn flush(&mut self) -> io::Result<()> {
        Ok(())
    }
}

// Answers each piece with itself in brackets, and tells what was read and written when, and how it ended.
fn ran(alloc: Global, pieces: Pieces, parts: &[&[u8]], fails: bool) -> Result<String, Fail> {
    let bench = Bench {
        log: RefCell::new(Vec::new(alloc)),
    };
    let input = Parts {
        parts,
        next: 0,
        bench: &bench,
    };
    let output = Log {
        bench: &bench,
        fails,
    };
    let outcome = answered(alloc, pieces, input, output);
    let Bench { log } = bench;
    let mut text = String::from_utf8(log.into_inner())?;
    if let Err(failure) = outcome {
        write!(text, " {failure}")?;
    }
    Ok(text)
}

fn answered(
    alloc: Global,
    pieces: Pieces,
    input: Parts<'_>,
    output: Log<'_>,
) -> Result<(), Failure> {
    let mut console = Console::new(alloc, input, output)?;
    console.answer_pieces(alloc, pieces, |piece, output| {
        output.write_all(b"[")?;
        output.write_all(&piece[..piece.len().min(9)])?;
        output.write_all(b"]")?;
        Ok(())
    })?;
    console.output.flush()?;
    Ok(())
}

#[test]
fn lines_and_their_ends(rt: HostRuntime) -> Result<(), Fail> {
    let alloc = rt.alloc();
    let cases: [(&[&[u8]], &str); 7] = [
        (&[], "<"),
        (&[b"a\nb\n"], "<[a][b]<"),
        (&[b"a\n", b"b\n"], "<[a]<[b]<"),
        (&[b"a\n\nb"], "<[a][]<[b]"),
        (&[b"a", b"b", b"\nc", b"\n"], "<<<[ab]<[c]<"),
        (
            &[b"a\nb", b"!", b"c\n"],
            "<[a]< standard input: Input/output error (os error 5)",
        ),
        (
            &[b"!", b"c\n"],
            "< standard input: Input/output error (os error 5)",
        ),
    ];
    for (parts, expected) in cases {
        let text = ran(alloc, Pieces::Lines, parts, false)?;
        assert_eq!(rt; text.as_str(), expected);
    }
    let text = ran(alloc, Pieces::Lines, &[b"a\n", b"b\n"], true)?;
    assert_eq!(rt;
        text.as_str(),
        "< standard output: Input/output error (os error 5)"
    );
    Ok(())
}

#[test]
fn records_and_a_short_rest(rt: HostRuntime) -> Result<(), Fail> {
    let alloc = rt.alloc();
    let cases: [(&[&[u8]], &str); 4] = [
        (&[b"abcdef"], "<[abc][def]<"),
        (&[b"ab", b"cde", b"f"], "<<[abc]<[def]<"),
        (&[b"abcd\n"], "<[abc]<[d\n]"),
        (
            &[b"ab", b"!"],
            "<< standard input: Input/output error (os error 5)",
        ),
    ];
    for (parts, expected) in cases {
        let text = ran(alloc, Pieces::Records(3), parts, false)?;
        assert_eq!(rt; text.as_str(), expected);
    }
    Ok(())
}

// Of a line that is too long one byte more than the longest is kept, however it comes.
#[test]
fn long_lines_are_cut(rt: HostRuntime) -> Result<(), Fail> {
    let alloc = rt.alloc();
    for (length, kept) in [
        (19_999, 19_999),
        (20_000, 20_000),
        (20_001, 20_001),
        (150_000, 20_001),
    ] {
        let mut text = vec![in alloc; b'a'; length]?;
        text.extend_from_slice(b"\nb")?;
        let mut lengths = Vec::new(alloc);
        let mut console = Console::new(alloc, text.as_slice(), Vec::new(alloc))?;
        console.answer_pieces(alloc, Pieces::Lines, |line, _output| {
            lengths.push(line.len()).map_err(AllocError::from)?;
            Ok(())
        })?;
        assert_eq!(rt; lengths.as_slice(), [kept, 1].as_slice());
    }
    Ok(())
}
