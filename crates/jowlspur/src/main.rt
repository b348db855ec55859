// The console: reads a script, one call to a line, carries each out, and prints one answer for each.
#![tactic(auto)]

ghost use Rattle.std.specs.Prelude.{◌≡◌, true, []};
ghost use Rattle.script.specs.Showing.{Grown};
ghost use Rattle.jowlspur.specs.Printing.{complained};
ghost use Rattle.jowlspur.specs.Starting.{Starts};

mod answer;
mod request;
mod shelf;
mod wrong;

use crate::answer::{carry_out, complain_of, number_refused};
use crate::request::{Request, parse};
use crate::shelf::{BusDrives, Memory, Shelf, Unmade};
use crate::wrong::Wrong;
use anyhow::anyhow;
use std::alloc::{AllocError, Global};
use std::io;
use std::io::{BufRead, BufReader, BufWriter, Write};

// A script as it is read, and what is printed of it.
#[derive(Drop)]
struct Console<R, W> {
    heap: Global,
    input: R,
    output: W,
    // The line that is read, and its number from 1.
    line: Vec<u8>,
    number: u64,
    // What is printed of it.
    out: Vec<u8>,
    // Whether a line was malformed.
    malformed: bool,
}

impl<R: BufRead, W: Write> Console<R, W> {
    // Before its first line.
    fn new(heap: Global, input: R, output: W) -> Console<R, W> {
        Console {
            heap,
            input,
            output,
            line: Vec::new(heap),
            number: 0,
            out: Vec::new(heap),
            malformed: false,
        }
    }

    // Reads a line without its end; false where there is none. It is no Option of a line, since one buffer serves for all.
    fn read_line(&mut self) -> io::Result<bool> {
        self.line.clear();
        let n = self.input.read_until(b'\n', &mut self.line)?;
        if n == 0 {
            return Ok(false);
        }
        if self.line.last().copied() == Some(b'\n') {
            let _ = self.line.pop();
        }
        self.number = self.number.saturating_add(1);
        Ok(true)
    }

    // Prints what the line came to, if anything.
    fn print(&mut self) -> io::Result<()> {
        if self.out.is_empty() {
            return Ok(());
        }
        self.out.push(b'\n')?;
        self.output.write_all(self.out.as_slice())?;
        self.out.clear();
        Ok(())
    }

    fn complain(&mut self, wrong: Wrong) -> Result<(), AllocError>
        ensures malformed { self.new.malformed ≡ true }
        ensures text { Grown result (complained self.old.number wrong) [] self.new.out.items }
    {
        self.malformed = true;
        self.out.clear();
        complain_of(&mut self.out, self.number, wrong)
    }

    // New memory for a script's drives, where they fit a bus.
    fn start(&mut self, drives: BusDrives) -> Result<Option<Memory>, AllocError>
        ensures { Starts drives self.old.number self.new.malformed self.old.out.items self.new.out.items result }
    {
        match Memory::for_drives(self.heap, drives) {
            Ok(memory) => {
                self.out.extend_from_slice(b"ok")?;
                Ok(Some(memory))
            }
            Err(Unmade::Unfit(misfit)) => {
                number_refused(&mut self.out, misfit.number())?;
                Ok(None)
            }
            Err(Unmade::NoMemory) => {
                self.complain(Wrong::NoMemory)?;
                Ok(None)
            }
        }
    }

    // Carries out the line that was read, and gives new memory where it starts anew with other drives.
    fn turn(&mut self, shelf: &mut Option<Shelf>) -> Result<Option<Memory>, AllocError> {
        match parse(self.heap, self.line.as_slice()) {
            Err(wrong) => self.complain(wrong)?,
            Ok(None) => {}
            Ok(Some(Request::Bus(drives))) => return self.start(drives),
            Ok(Some(request)) => match shelf {
                Some(shelf) => carry_out(shelf, request, &mut self.out)?,
                None => self.complain(Wrong::NoBus)?,
            },
        }
        Ok(None)
    }

    // Carries out lines up to one that starts anew; before its first bus a script has no memory.
    fn serve(&mut self, memory: &mut Option<Memory>) -> io::Result<Option<Memory>> {
        let mut shelf = memory.as_mut().map(|memory| memory.shelf());
        // A count, since nothing shows that a reader ends.
        for _ in 0..u64::MAX {
            if !self.read_line()? {
                break;
            }
            let next = self.turn(&mut shelf)?;
            self.print()?;
            if next.is_some() {
                return Ok(next);
            }
        }
        Ok(None)
    }
}

// Carries out the whole script.
fn run<R: BufRead, W: Write>(console: &mut Console<R, W>) -> io::Result<()> {
    let mut memory = None;
    // A count again: a reader may give buses without end.
    for _ in 0..u64::MAX {
        memory = console.serve(&mut memory)?;
        if memory.is_none() {
            break;
        }
    }
    console.output.flush()
}

fn main(rt: HostRuntime) -> anyhow::Result<()> {
    let heap = rt.alloc();
    let input = BufReader::new(heap, rt.stdin())?;
    let output = BufWriter::new(heap, rt.stdout())?;
    let mut console = Console::new(heap, input, output);
    run(&mut console)?;
    if console.malformed {
        return Err(anyhow!("a line was malformed"));
    }
    Ok(())
}

#[cfg(test)]
mod tests {
    use super::*;
    use std::test::Fail;

    const SCRIPT: &[u8] = b"broken
bus 1 2
break 0 0
nonsense
peek 0 0
raw 0 1 2
poke 0 0 1048577*00
poke 0 2 512*00 # beyond the capacity

peek 0 1 511
break 1";

    const ANSWERS: &[u8] = b"error: 1: there is no bus yet
ok
error: 3: accesses are counted from 1
error: 4: unknown word
error: 5: a word is missing
error: 6: a word too many
error: 7: a buffer is at most 1048576 bytes
refused 7
refused 6
refused 4
";

    #[test]
    fn malformed_lines_are_passed_over(rt: HostRuntime) -> Result<(), Fail> {
        let heap = rt.alloc();
        let mut console = Console::new(heap, SCRIPT, Vec::new(heap));
        run(&mut console)?;
        assert!(rt; console.malformed);
        assert!(rt; console.output.as_slice() == ANSWERS);
        Ok(())
    }
}
