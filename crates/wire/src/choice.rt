// One of two values, of any type that is copied. No `if` at its callers is plainer: both values are at hand, and proofs read one clause.
ghost use Rattle.std.specs.Prelude.{◌≡◌, cond};

pub fn choose<T: Copy>(first: bool, a: T, b: T) -> T
    ensures { result ≡ cond first a b }
{
    if first { a } else { b }
}
