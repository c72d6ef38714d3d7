ghost use Rattle.std.specs.Prelude.{◌≡◌, ◌==◌, ◌≤◌, length};
ghost use Rattle.std.specs.List.{before_first, after_first, position_or_len};
ghost use Rattle.std.specs.Str.{bytes_eq};

/// Whether the characters are those of this ASCII spelling.
pub fn spells(word: &[char], spelling: &[u8]) -> bool
    ensures { result ≡ bytes_eq word.now spelling.now }
{
    if word.len() != spelling.len() {
        return false;
    }
    'characters: for (i, c) in word.iter().enumerate() {
        if u32::from(*c) != u32::from(spelling[i]) {
            return false;
        }
    }
    true
}

/// Where the character first stands, or the length of the word.
fn index_of(word: &[char], c: char) -> usize
    ensures exact { result ≡ position_or_len (λ d. d == c) word.now }
    ensures within { result ≤ length word.now }
{
    'characters: for (i, d) in word.iter().enumerate() {
        if *d == c {
            return i;
        }
    }
    word.len()
}

/// What stands before the first such character, or all; and what stands behind it, or nothing.
pub fn split(word: &[char], c: char) -> (&[char], &[char])
    ensures before { result.0.now ≡ before_first (λ d. d == c) word.now }
    ensures after { result.1.now ≡ after_first (λ d. d == c) word.now }
{
    let (before, rest) = word.split_at(index_of(word, c));
    match rest {
        [_, after @ ..] => (before, after),
        [] => (before, rest),
    }
}
