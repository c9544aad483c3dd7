// The settings image from its file.
use std::fs::File;
use std::io::{ErrorKind, Read};
use std::rt::Files;

// Bytes of the file that are read. An image has at most 842. Of a longer file these suffice: whatever refuses it stands among the first
// 843, as the first byte left over does, which is the place of refusal 6.
const IMAGE_SIZE: u64 = 1024;

// The front of a file. A missing file counts as no bytes. Of one that can't be opened or read there is none, and standard error has the
// reason: no bytes would mean the factory bank, which nobody chose. No clause bounds what is read, since std says what `take` leaves of known
// bytes only.
pub fn read_image(rt: &(impl Files + AllocGlobal + Eprint), name: &str) -> Option<Vec<u8>> {
    let mut image = Vec::new(rt.alloc());
    let outcome = match File::open(rt, name) {
        Ok(file) => file.take(IMAGE_SIZE).read_to_end(&mut image),
        Err(error) => Err(error),
    };
    match outcome {
        Err(error) if error.kind() != ErrorKind::NotFound => {
            let _ = eprintln!(rt; "{name}: {error}");
            None
        }
        _ => Some(image),
    }
}
