ghost use Rattle.std.specs.Prelude.{◌≡◌};
ghost use Rattle.text.specs.Words.{word_value};

// The number that a word of decimal digits writes, at most the largest of the type; none for any other word.
pub fn word_number(word: &[u8]) -> Option<u32>
    ensures { result ≡ word_value word.now }
{
    if word.is_empty() {
        return None;
    }
    let mut n: u32 = 0;
    for digit in word {
        if !digit.is_ascii_digit() {
            return None;
        }
        n = n
            .saturating_mul(10)
            .saturating_add(u32::from(*digit - b'0'));
    }
    Some(n)
}
