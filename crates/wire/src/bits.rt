// Words made of bits, the lowest first, and the bits of a word.
ghost use Rattle.std.specs.Prelude.{◌≡◌, ◌-◌, ◌*◌, ◌/◌, ◌%◌, ◌^◌, ◌<◌, ◌≤◌, eqb};
ghost use Rattle.std.specs.Int.Bits.{bit_and, bit_xor};
ghost use Rattle.wire.specs.Internal.Words.{word_of, spread};

pub fn word_of<const N: usize>(bits: [bool; N]) -> u32
    requires { N ≤ 32 }
    ensures { (result ≡ word_of bits.entry) × (result < 2 ^ N) }
{
    let mut word = 0;
    for (place, bit) in bits.iter().enumerate() {
        word += u32::from(*bit) << place;
    }
    word
}

// The same with a bit at every third place. One function for both would be no plainer: it takes a definition of bits so many places apart,
// and a bound with a product of two numbers.
pub fn spread_of<const N: usize>(bits: [bool; N]) -> u32
    requires { N ≤ 11 }
    ensures { (result ≡ word_of (spread bits.entry)) × (result < 2 ^ (3 * N - 2)) }
{
    let mut word = 0;
    for (place, bit) in bits.iter().enumerate() {
        word += u32::from(*bit) << (3 * place);
    }
    word
}

// The bit where a one counts `unit`.
pub fn is_set(word: u32, unit: u32) -> bool
    requires { 0 < unit }
    ensures { result ≡ eqb (word / unit % 2) 1 }
{
    word / unit % 2 == 1
}

// The bits that `a` has and `b` lacks.
pub fn only_in(a: u32, b: u32) -> u32
    ensures { result ≡ bit_xor a (bit_and a b) }
{
    a ^ (a & b)
}
