// When runs and rows of met scans began: a start is stored with the scan that begins it, and stays otherwise.
ghost use Rattle.std.specs.Prelude.{◌≡◌};
ghost use Rattle.state.specs.Internal.Starts.{keep_starts};

// By place, as the definition sets them: a `zip` of both arrays would need a second definition, of the starts one by one.
pub fn begin_each<const N: usize>(starts: &mut [u64; N], begins: [bool; N], time: u64)
    ensures { starts.new ≡ keep_starts begins.entry time 0 starts.old }
{
    for (place, row) in begins.iter().enumerate() {
        if *row {
            starts[place] = time;
        }
    }
}
