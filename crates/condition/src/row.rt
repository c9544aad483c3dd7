// Rows of scans that met a condition, by the time at which they began.
ghost use Rattle.std.specs.Prelude.{◌≡◌, ◌-◌, leb, cond};

// Whether a row that began at `start` has lasted `duration`. A later start, which no handed-back state has, counts as `time`.
fn lasted(start: u64, duration: u32, time: u64) -> bool
    ensures { result ≡ leb duration (time - start) }
{
    u64::from(duration) <= time.saturating_sub(start)
}

// Whether a row has lasted `duration` that goes on, or else begins now. Without a branch: whether it goes on can't be foreseen.
pub fn row_lasted(on: bool, start: u64, duration: u32, time: u64) -> bool
    ensures { result ≡ leb duration (time - cond on start time) }
{
    (on & lasted(start, duration, time)) | (duration == 0)
}
