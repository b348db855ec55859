// The requests that a line can make.
ghost use Rattle.std.specs.Prelude.{◌≡◌, ◌⊎◌, Ok, Err, MatchResult};
ghost use Rattle.script.specs.Lines.{words as words_of};
ghost use Rattle.jowlspur.specs.Language.{unread, ended, numbered, addressed, last_number, second_drives, buffer_of, extended, bytes_of, bus_of, break_of, broken_of, peek_of, poke_of, raw_of, asked_by, asked, leaving, Answers, Parses, Buffered, FirstBuffered};

use crate::shelf::{BusDrives, fresh};
use crate::wrong::Wrong;
use bus::BlockAddress;
use buses::Drives;
use script::{Words, add_bytes, number};
use std::alloc::Global;

// The longest buffer of a line.
pub const LONGEST: usize = 1048576;

#[derive(Drop)]
pub enum Request {
    Bus(BusDrives),
    Break { drive: usize, access: usize },
    Broken,
    Peek { at: BlockAddress, buffer: Vec<u8> },
    Poke { at: BlockAddress, bytes: Vec<u8> },
    Raw { at: BlockAddress },
}

fn add_word(word: &[u8], bytes: &mut Vec<u8>) -> Result<(), Wrong>
    ensures { MatchResult result (λ _. extended bytes.old.items word.now ≡ Ok bytes.new.items) (λ e. (extended bytes.old.items word.now ≡ Err e) ⊎ (e ≡ Wrong.NoMemory)) }
{
    add_bytes(word, LONGEST, bytes)?;
    Ok(())
}

// A buffer of `length` bytes that were never written.
#[tactic(auto, using(crate::proofs::Parsing::buffer_long, crate::proofs::Parsing::buffer_fits))]
fn fresh_buffer(heap: Global, length: usize) -> Result<Vec<u8>, Wrong>
    ensures { MatchResult result (λ v. buffer_of length ≡ Ok v.items) (λ e. (buffer_of length ≡ Err e) ⊎ (e ≡ Wrong.NoMemory)) }
{
    if length > LONGEST {
        return Err(Wrong::TooLong);
    }
    Ok(fresh(heap, length)?)
}

// A line that is read, of which the words are left that were not read, and where its buffers come from.
#[derive(Drop)]
struct Line<'a> {
    words: Words<'a>,
    heap: Global,
}

impl<'a> Line<'a> {
    fn next_number(&mut self) -> Result<usize, Wrong>
        ensures { numbered (unread self.old) ≡ leaving result (unread self.new) }
    {
        let word = self.words.next().ok_or(Wrong::Missing)?;
        let n = number(word).ok_or(Wrong::Number)?;
        Ok(n as usize)
    }

    // A drive and a block.
    #[tactic(auto, unfolding(crate::specs::Language::addressed))]
    fn next_address(&mut self) -> Result<BlockAddress, Wrong>
        ensures { addressed (unread self.old) ≡ leaving result (unread self.new) }
    {
        let drive = self.next_number()?;
        let block = self.next_number()?;
        Ok(BlockAddress { drive, block })
    }

    // A last number, if there is one.
    fn last_number(&mut self) -> Result<Option<usize>, Wrong>
        ensures { result ≡ last_number (unread self.old) }
    {
        let Some(word) = self.words.next() else {
            return Ok(None);
        };
        let n = number(word).ok_or(Wrong::Number)?;
        self.end()?;
        Ok(Some(n as usize))
    }

    #[tactic(auto, using(crate::proofs::Parsing::ended_none, crate::proofs::Parsing::ended_some))]
    fn end(&mut self) -> Result<(), Wrong>
        ensures { result ≡ ended (unread self.old) }
    {
        match self.words.next() {
            Some(_) => Err(Wrong::Surplus),
            None => Ok(()),
        }
    }

    // The bytes of the words that are left, of which there is one at least.
    fn rest_bytes(&mut self) -> Result<Vec<u8>, Wrong>
        ensures { MatchResult result (λ v. bytes_of (unread self.old) ≡ Ok v.items) (λ e. (bytes_of (unread self.old) ≡ Err e) ⊎ (e ≡ Wrong.NoMemory)) }
    {
        let mut bytes = Vec::new(self.heap);
        let first = self.words.next().ok_or(Wrong::Missing)?;
        add_word(first, &mut bytes)?;
        for word in self.words {
            add_word(word, &mut bytes)?;
        }
        Ok(bytes)
    }

    fn bus(&mut self) -> Result<Request, Wrong>
        ensures { Answers ⊥ (bus_of (unread self.old)) result }
    {
        let number = self.next_number()?;
        let capacity = self.next_number()?;
        let first = Drives { number, capacity };
        let second = self.joined()?;
        Ok(Request::Bus(BusDrives { first, second }))
    }

    // The drives of the bus that is joined, which end the line. Where nothing is left it has none, and is no Option, so that
    // the program has one type of bus.
    fn joined(&mut self) -> Result<Drives, Wrong>
        ensures { result ≡ second_drives (unread self.old) }
    {
        let Some(first) = self.words.next() else {
            return Ok(Drives {
                number: 0,
                capacity: 1,
            });
        };
        let n = number(first).ok_or(Wrong::Number)?;
        let capacity = self.next_number()?;
        self.end()?;
        Ok(Drives {
            number: n as usize,
            capacity,
        })
    }

    fn breaks(&mut self) -> Result<Request, Wrong>
        ensures { Answers ⊥ (break_of (unread self.old)) result }
    {
        let drive = self.next_number()?;
        match self.last_number()? {
            None => Ok(Request::Break { drive, access: 0 }),
            Some(0) => Err(Wrong::Access),
            Some(access) => Ok(Request::Break { drive, access }),
        }
    }

    fn peek(&mut self) -> Result<Request, Wrong>
        ensures { Answers (Unit {0}) (peek_of (unread self.old)) result }
    {
        let at = self.next_address()?;
        let length = self.next_number()?;
        self.end()?;
        let buffer = fresh_buffer(self.heap, length)?;
        Ok(Request::Peek { at, buffer })
    }

    fn poke(&mut self) -> Result<Request, Wrong>
        ensures { Answers (Unit {0}) (poke_of (unread self.old)) result }
    {
        let at = self.next_address()?;
        let bytes = self.rest_bytes()?;
        Ok(Request::Poke { at, bytes })
    }

    fn raw(&mut self) -> Result<Request, Wrong>
        ensures { Answers ⊥ (raw_of (unread self.old)) result }
    {
        let at = self.next_address()?;
        self.end()?;
        Ok(Request::Raw { at })
    }

    fn broken(&mut self) -> Result<Request, Wrong>
        ensures { Answers ⊥ (broken_of (unread self.old)) result }
    {
        self.end()?;
        Ok(Request::Broken)
    }

    // What a word asks for, with the words behind it.
    fn ask(&mut self, word: &[u8]) -> Result<Request, Wrong>
        ensures { Answers (Buffered word.now) (asked_by word.now (unread self.old)) result }
    {
        match word {
            b"bus" => self.bus(),
            b"break" => self.breaks(),
            b"broken" => self.broken(),
            b"peek" => self.peek(),
            b"poke" => self.poke(),
            b"raw" => self.raw(),
            _ => Err(Wrong::Unknown),
        }
    }
}

// What the line asks for, if it has a word.
pub fn parse(heap: Global, line: &[u8]) -> Result<Option<Request>, Wrong>
    ensures { Parses (FirstBuffered (words_of line.now)) (asked (words_of line.now)) result }
{
    let mut words = Words::new(line);
    let Some(word) = words.next() else {
        return Ok(None);
    };
    let mut rest = Line { words, heap };
    Ok(Some(rest.ask(word)?))
}
