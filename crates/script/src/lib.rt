//! The words of a script's line, and the numbers and bytes that words stand for.
#![tactic(auto)]

ghost use Rattle.script.specs.Laws.{WordsRead, NumbersRead, TriplesRead, RunsLongest, BytesRead};

mod bytes;
mod front;
mod line;
mod numbers;
mod show;

pub use bytes::{BytesFault, add_bytes};
pub use line::Words;
pub use numbers::{number, numbers3};
pub use show::{show_bytes, show_number};

/// What is printed reads back as what it was, and what is read has the form that it should have.
pub fn laws()
    ensures words { WordsRead }
    ensures numbers { NumbersRead }
    ensures triples { TriplesRead }
    ensures runs { RunsLongest }
    ensures bytes { BytesRead }
{}

#[cfg(test)]
mod tests {
    use super::*;
    use std::test::Fail;

    #[test]
    fn counts_words(rt: HostRuntime) -> Result<(), Fail> {
        let mut n = 0usize;
        for word in Words::new(b"write\t0  512*42#all of it") {
            n = n.saturating_add(word.len());
        }
        assert_eq!(rt; n, 12);
        Ok(())
    }

    #[test]
    fn reads_numbers(rt: HostRuntime) {
        assert_eq!(rt; number(b"18446744073709551615"), Some(18446744073709551615));
        assert_eq!(rt; number(b"18446744073709551616"), None);
        assert_eq!(rt; numbers3(b"0:0:12"), Some((0, 0, 12)));
        assert_eq!(rt; numbers3(b"0:0:12:1"), None);
    }

    #[test]
    fn shows_bytes(rt: HostRuntime) -> Result<(), Fail> {
        let mut bytes = Vec::new(rt.alloc());
        assert_eq!(rt;
            add_bytes(b"99999999999*00", 512, &mut bytes),
            Err(BytesFault::TooLong)
        );
        add_bytes(b"000010A5", 512, &mut bytes)?;
        add_bytes(b"508*a5", 512, &mut bytes)?;
        let mut text = Vec::new(rt.alloc());
        show_bytes(bytes.as_slice(), &mut text)?;
        assert!(rt; text.as_slice() == b"2*00 1*10 509*a5".as_slice());
        Ok(())
    }
}
