// Sizes that a caller needs before it lends buffers. `as` stays here: no From leads from usize to u32.
ghost use Rattle.std.specs.Prelude.{◌≡◌};
ghost use Rattle.layout.specs.Internal.Sizes.{marks_size, settings_size, states_size};
ghost use Rattle.scan_record.specs.Internal.Size.{length_of};

use event::write::EVENT_SIZE;
use host_bytes::rows::REPORT_SIZE;
use image::write::IMAGE_MOST;
use layout::sizes::{MARKS_WORDS, SETTINGS_WORDS, STATES_WORDS};
use scan::scan::EVENTS_ENOUGH;
use scan_record::check::record_length;
use settings::counts::Counts;

// Of these calls and their layouts.
#[unsafe(no_mangle)]
pub extern "C" fn meifgur_version() -> u32
    ensures { result ≡ 3 }
{
    3
}

// Bytes of an event record (`length-event` of crates/event).
#[unsafe(no_mangle)]
pub extern "C" fn meifgur_event_size() -> u32
    ensures { result ≡ 16 }
{
    EVENT_SIZE as u32
}

// Bytes of events that always suffice for one scan (`enough` of crates/bank_history).
#[unsafe(no_mangle)]
pub extern "C" fn meifgur_events_enough() -> u32
    ensures { result ≡ 3840 }
{
    EVENTS_ENOUGH as u32
}

// Bytes of the longest settings image (`longest` of crates/image).
#[unsafe(no_mangle)]
pub extern "C" fn meifgur_image_most() -> u32
    ensures { result ≡ 842 }
{
    IMAGE_MOST as u32
}

// Bytes of an alarm's report (`length-report`).
#[unsafe(no_mangle)]
pub extern "C" fn meifgur_report_size() -> u32
    ensures { result ≡ 224 }
{
    REPORT_SIZE as u32
}

// Words of a bank's settings, of its states, and of its counts and stamps (the lengths that `fit_of` of crates/bank asks for).
#[unsafe(no_mangle)]
pub extern "C" fn meifgur_settings_words() -> u32
    ensures { result ≡ settings_size }
{
    SETTINGS_WORDS as u32
}

#[unsafe(no_mangle)]
pub extern "C" fn meifgur_states_words() -> u32
    ensures { result ≡ states_size }
{
    STATES_WORDS as u32
}

#[unsafe(no_mangle)]
pub extern "C" fn meifgur_marks_words() -> u32
    ensures { result ≡ marks_size }
{
    MARKS_WORDS as u32
}

// Bytes of a scan record, for so many alarms of each kind.
#[unsafe(no_mangle)]
pub extern "C" fn meifgur_record_length(digital: usize, analog: usize) -> usize
    ensures { result ≡ length_of (record { digital = digital; analog = analog }) }
{
    record_length(Counts { digital, analog })
}
