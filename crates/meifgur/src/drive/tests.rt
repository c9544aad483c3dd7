// Whole drives, from bytes to bytes.
use super::*;
use std::io;
use std::test::Fail;

// One digital alarm of severity 500, and scans of it: in alarm at 10 ms, and no more at 20.
const IMAGE: &[u8; 11] = b"\x01\x03\xf4\x01\x00\x00\x00\x00\x00\x00\x00";

const FIRST: &[u8; 13] = b"\x0a\x00\x00\x00\x00\x00\x00\x00\x01\x00\x00\x00\x00";

const SECOND: &[u8; 13] = b"\x14\x00\x00\x00\x00\x00\x00\x00\x00\x00\x00\x00\x00";

fn driven(alloc: Global, image: &[u8], records: &[u8]) -> Result<String, Fail> {
    let mut output = Vec::new(alloc);
    drive(alloc, image, records, &mut output)?;
    Ok(String::from_utf8(output)?)
}

#[test]
fn events_refusals_and_the_end(rt: HostRuntime) -> Result<(), Fail> {
    let alloc = rt.alloc();
    let mut records = Vec::from_slice(alloc, FIRST)?;
    let text = driven(alloc, IMAGE, &records)?;
    assert_eq!(rt; text.as_str(), "10 1 0 8 500 0\nend 1 0 1 1 1\n");
    records.extend_from_slice(SECOND)?;
    records.extend_from_slice(FIRST)?;
    records.extend_from_slice(b"\x00")?;
    let text = driven(alloc, IMAGE, &records)?;
    let expected = "10 1 0 8 500 0\n20 1 0 7 500 0\nrefused 8 0\nrefused 7 0\nend 1 0 0 1 1\n";
    assert_eq!(rt; text.as_str(), expected);
    assert_eq!(rt; driven(alloc, IMAGE, b"")?.as_str(), "end 1 0 0 0 0\n");
    assert_eq!(rt;
        driven(alloc, b"\x00\x00", FIRST)?.as_str(),
        "refused 7 0\n"
    );
    assert_eq!(rt; driven(alloc, b"\x01", FIRST)?.as_str(), "refused 1 1\n");
    Ok(())
}

// A reader that gives a record, and then fails.
#[derive(Drop)]
struct Broken {
    is_read: bool,
}

impl Read for Broken {
    fn read(&mut self, buffer: &mut [u8]) -> io::Result<usize> {
        if self.is_read {
            return Err(io::Error::from_raw_os_error(5));
        }
        self.is_read = true;
        FIRST.as_slice().read(buffer)
    }
}

#[test]
fn an_input_that_fails_has_no_end(rt: HostRuntime) -> Result<(), Fail> {
    let alloc = rt.alloc();
    let mut output = Vec::new(alloc);
    let outcome = drive(alloc, IMAGE, Broken { is_read: false }, &mut output);
    assert!(rt; matches!(outcome, Err(Failure::Input(_))));
    assert_eq!(rt; String::from_utf8(output)?.as_str(), "10 1 0 8 500 0\n");
    Ok(())
}
