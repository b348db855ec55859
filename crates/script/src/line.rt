ghost use Rattle.std.specs.Prelude.{◌≡◌, ◌<◌, ◌≤◌, length, MatchOption};
ghost use Rattle.std.specs.Iterator.{YieldsFirstBy, item_count};
ghost use Rattle.script.specs.Kinds.{blank, solid};
ghost use Rattle.script.specs.Lines.{words};

use crate::front::leading;

fn is_blank(b: u8) -> bool
    ensures { result ≡ blank b }
{
    b == b' ' || b == b'\t'
}

// The bytes that words are made of.
fn is_solid(b: u8) -> bool
    ensures { result ≡ solid b }
{
    !is_blank(b) && b != b'#'
}

/// The words of one line, first to last. A `#` ends the line.
#[derive(Clone, Copy)]
pub struct Words<'a> {
    rest: &'a [u8],
}

impl<'a> Words<'a> {
    /// The words of `line`, which has no newline.
    pub fn new(line: &'a [u8]) -> Words<'a>
        ensures { result.rest.now ≡ line.now }
    {
        Words { rest: line }
    }
}

impl<'a> Iterator for Words<'a> {
    type Item = &'a [u8];

    // It gives the first of the words that are left, which has a byte at least, and leaves the others.
    ghost next_gives = { λ s r t. YieldsFirstBy (λ w. w.now) (λ u. words u.rest.now) s r t × MatchOption r (length t.rest.now ≤ length s.rest.now) (λ w. (0 < length w.now) × (length t.rest.now < length s.rest.now)) };

    ghost remaining = { item_count (λ s. words s.rest.now) };

    /// The next word, and none past the last.
    fn next(&mut self) -> Option<&'a [u8]> {
        let line = self.rest;
        let (_, unread) = line.split_at(leading(line, is_blank));
        let (word, rest) = unread.split_at(leading(unread, is_solid));
        self.rest = rest;
        if word.is_empty() { None } else { Some(word) }
    }
}
