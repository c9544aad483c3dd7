// Words in front of an answer.
ghost use Rattle.std.specs.Prelude.{◌≡◌, ◌≤◌, length};
ghost use Rattle.std.proofs.lemmas.List.Edits.{sets};

pub fn put_words(words: &mut [u64], values: &[u64])
    requires { length values.now ≤ length words.old }
    ensures { words.new ≡ sets words.old 0 values.now }
{
    words[..values.len()].copy_from_slice(values);
}
