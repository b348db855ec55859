ghost use Rattle.std.specs.Prelude.{◌≡◌, ◌+◌, ◌/◌, is_some, ◌<◌, ◌≤◌, ◌++◌, length, vec_len, vec_capacity, MatchResult};
ghost use Rattle.script.specs.Spelling.{hex_value, pair, one_byte, paired, plain, run, spelled, Added};
ghost use Rattle.script.specs.declared.bytes.BytesFault.TheVariants.{TooLong, NoMemory};

use crate::numbers::{cut, number};
use std::alloc::AllocError;

/// Why a word adds nothing to a byte string.
#[derive(Clone, Copy, PartialEq, Eq, Debug)]
pub enum BytesFault {
    /// The word stands for no bytes.
    Malformed,
    /// The byte string would become longer than its limit.
    TooLong,
    /// There is no memory for the bytes.
    NoMemory,
}

impl From<AllocError> for BytesFault {
    ghost from_gives = { λ _ fault. fault ≡ NoMemory };

    fn from(_: AllocError) -> BytesFault {
        BytesFault::NoMemory
    }
}

// The value of a hexadecimal digit, and 0 for any other byte: callers have looked, or give pairs of digits alone.
fn hex_value(digit: u8) -> u8
    ensures value { result ≡ hex_value digit }
    ensures bound { result < 16 }
{
    char::from(digit).to_digit(16).unwrap_or(0) as u8
}

fn pair_value(high: u8, low: u8) -> u8
    ensures { result ≡ pair high low }
{
    hex_value(high) * 16 + hex_value(low)
}

// The byte that exactly two hexadecimal digits write.
fn hex_byte(digits: &[u8]) -> Option<u8>
    ensures { result ≡ one_byte digits.now }
{
    match digits {
        [high, low] if high.is_ascii_hexdigit() && low.is_ascii_hexdigit() => {
            Some(pair_value(*high, *low))
        }
        _ => None,
    }
}

// The length with `more` bytes behind `len`, if `limit` allows it.
fn longer(len: usize, more: usize, limit: usize) -> Result<usize, BytesFault>
    ensures { MatchResult result (λ n. (n ≡ len + more) × (len + more ≤ limit)) (λ fault. (fault ≡ BytesFault.TooLong) × (limit < len + more)) }
{
    match len.checked_add(more) {
        Some(total) if total <= limit => Ok(total),
        _ => Err(BytesFault::TooLong),
    }
}

// `limit` goes along with `out` through three functions; a struct of them would be made for one word.

// Adds the bytes of a word `COUNT*BB`, given as its two parts.
fn add_run(count: &[u8], value: &[u8], limit: usize, out: &mut Vec<u8>) -> Result<(), BytesFault>
    ensures { Added (run count.now value.now) limit out.old.items out.new.items result }
{
    let n = number(count).ok_or(BytesFault::Malformed)?;
    let b = hex_byte(value).ok_or(BytesFault::Malformed)?;
    let total = longer(out.len(), n as usize, limit)?;
    out.resize(total, b)?;
    Ok(())
}

// Adds the bytes of the digits two by two. There is room for them, so unlike `extend` it cannot fail.
fn push_pairs(digits: &[u8], out: &mut Vec<u8>)
    requires { vec_len out.old + length digits.now / 2 ≤ vec_capacity out.old }
    ensures { out.new.items ≡ out.old.items ++ paired digits.now }
{
    let (pairs, _) = digits.as_chunks::<2>();
    for [high, low] in pairs {
        out.push_reserved(pair_value(*high, *low));
    }
}

// Whether a word is an even number of hexadecimal digits; an odd length is refused with no look at them.
fn is_plain(word: &[u8]) -> bool
    ensures { result ≡ (is_some (plain word.now)) }
{
    word.len() % 2 == 0 && word.iter().all(|digit| digit.is_ascii_hexdigit())
}

// Adds the bytes of a word of hexadecimal digits.
fn add_plain(word: &[u8], limit: usize, out: &mut Vec<u8>) -> Result<(), BytesFault>
    ensures { Added (plain word.now) limit out.old.items out.new.items result }
{
    if !is_plain(word) {
        return Err(BytesFault::Malformed);
    }
    let more = word.len() / 2;
    longer(out.len(), more, limit)?;
    out.try_reserve(more)?;
    push_pairs(word, out);
    Ok(())
}

/// Appends the bytes that one word of a byte string stands for, unless `out` would become longer than `limit`.
/// On an `Err` it holds what it held.
pub fn add_bytes(word: &[u8], limit: usize, out: &mut Vec<u8>) -> Result<(), BytesFault>
    ensures { Added (spelled word.now) limit out.old.items out.new.items result }
{
    match cut(word, b'*') {
        Some((count, value)) => add_run(count, value, limit, out),
        None => add_plain(word, limit, out),
    }
}
