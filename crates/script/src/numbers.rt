ghost use Rattle.std.specs.Prelude.{◌≡◌, ◌+◌, ◌-◌, ◌*◌, if◌then◌else◌, Some, None, MatchOption};
ghost use Rattle.std.specs.Char.{is_ascii_digit};
ghost use Rattle.script.specs.Numerals.{fitting, numeral, cut_at, triple};

// The number whose digits are those of `n` and then `digit`.
fn append(n: u64, digit: u8) -> Option<u64>
    ensures { result ≡ (if is_ascii_digit digit then fitting (n * 10 + (digit - 48)) else None) }
{
    let value = char::from(digit).to_digit(10)?;
    n.checked_mul(10)?.checked_add(u64::from(value))
}

/// The number that a word of decimal digits stands for, if 64 bits hold it.
pub fn number(word: &[u8]) -> Option<u64>
    ensures { result ≡ numeral word.now }
{
    if word.is_empty() {
        return None;
    }
    // Not `parse`, which takes a plus sign in front of the digits too.
    let mut n = 0;
    for digit in word {
        n = append(n, *digit)?;
    }
    Some(n)
}

/// What stands before the first `at` of a word, and what behind it.
pub(crate) fn cut(word: &[u8], at: u8) -> Option<(&[u8], &[u8])>
    ensures { MatchOption result (cut_at at word.now ≡ None) (λ p. cut_at at word.now ≡ Some (p.0.now, p.1.now)) }
{
    let i = word.iter().position(|b| *b == at)?;
    Some((&word[..i], &word[i + 1..]))
}

/// Three numbers with a colon between them, as `0:0:12`.
pub fn numbers3(word: &[u8]) -> Option<(u64, u64, u64)>
    ensures { result ≡ triple word.now }
{
    let (first, rest) = cut(word, b':')?;
    let (second, third) = cut(rest, b':')?;
    let x = number(first)?;
    let y = number(second)?;
    let z = number(third)?;
    Some((x, y, z))
}
