// Values that stand in a slice of bytes, the lowest byte first. Each function takes an offset whose value fits, and no cursor: callers know
// their offsets, and read at them in an order of their own.
ghost use Rattle.std.specs.Prelude.{◌≡◌, ℕ, List, ◌+◌, ◌^◌, ◌≤◌, ◌<◌, length};
ghost use Rattle.std.proofs.lemmas.List.Edits.{sets};
ghost use Rattle.wire.specs.Number.{part, number, bytes};
ghost use Rattle.wire.specs.Internal.Kept.{length-bytes, number-back};

pub trait LittleEndian: Copy {
    // How many bytes a value has, and which; what is read at an offset; which values the type has.
    ghost width: { ℕ };

    ghost bytes_of: { Self → List ℕ };

    ghost read_at: { List ℕ → ℕ → Self };

    ghost IsValue: { Self → Type 0 };

    fn get(s: &[u8], at: usize) -> Self
        requires { at + width ≤ length s.now }
        ensures { result ≡ read_at s.now at };

    fn put(self, s: &mut [u8], at: usize)
        requires { at + width ≤ length s.old }
        ensures { s.new ≡ sets s.old at (bytes_of self) };

    // So many bytes are written, and what was put is got.
    ghost fills_width: { (x : Self) → length (bytes_of x) ≡ width };

    ghost gives_back: { (x : Self) (s : List ℕ) (at : ℕ) → IsValue x → at + width ≤ length s → read_at (sets s at (bytes_of x)) at ≡ x };
}

fn bytes_at<const N: usize>(s: &[u8], at: usize) -> [u8; N]
    requires { at + N ≤ length s.now }
    ensures { result ≡ part s.now at N }
{
    s[at..at + N].try_into().unwrap()
}

fn put_bytes<const N: usize>(s: &mut [u8], at: usize, bytes: [u8; N])
    requires { at + N ≤ length s.old }
    ensures { s.new ≡ sets s.old at bytes.entry }
{
    s[at..at + N].copy_from_slice(&bytes);
}

// The impls differ in a type only: no macro may write one here, and Rattle has no computed const argument for `[u8; Self::WIDTH]`.
impl LittleEndian for u16 {
    ghost width = { 2 };

    ghost bytes_of = { bytes 2 };

    ghost read_at = { λ s at. number s at 2 };

    ghost IsValue = { λ x. x < 2 ^ 16 };

    fn get(s: &[u8], at: usize) -> u16 {
        u16::from_le_bytes(bytes_at(s, at))
    }

    fn put(self, s: &mut [u8], at: usize) {
        put_bytes(s, at, self.to_le_bytes());
    }

    ghost fills_width = { length-bytes 2 };

    ghost gives_back = { number-back 2 };
}

impl LittleEndian for u32 {
    ghost width = { 4 };

    ghost bytes_of = { bytes 4 };

    ghost read_at = { λ s at. number s at 4 };

    ghost IsValue = { λ x. x < 2 ^ 32 };

    fn get(s: &[u8], at: usize) -> u32 {
        u32::from_le_bytes(bytes_at(s, at))
    }

    fn put(self, s: &mut [u8], at: usize) {
        put_bytes(s, at, self.to_le_bytes());
    }

    ghost fills_width = { length-bytes 4 };

    ghost gives_back = { number-back 4 };
}

impl LittleEndian for u64 {
    ghost width = { 8 };

    ghost bytes_of = { bytes 8 };

    ghost read_at = { λ s at. number s at 8 };

    ghost IsValue = { λ x. x < 2 ^ 64 };

    fn get(s: &[u8], at: usize) -> u64 {
        u64::from_le_bytes(bytes_at(s, at))
    }

    fn put(self, s: &mut [u8], at: usize) {
        put_bytes(s, at, self.to_le_bytes());
    }

    ghost fills_width = { length-bytes 8 };

    ghost gives_back = { number-back 8 };
}
