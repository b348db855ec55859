// What the console prints.
ghost use Rattle.std.specs.Prelude.{◌≡◌, [], ◌++◌};
ghost use Rattle.bus.specs.Numbers.{number_of};
ghost use Rattle.script.specs.Showing.{Grown, Written};
ghost use Rattle.jowlspur.specs.Carrying.{Peeks, Carries};
ghost use Rattle.jowlspur.specs.Printing.{refusal, place, answered, answered_bytes, mark_of, marks_of, complained};
ghost use Rattle.jowlspur.specs.Shelves.{on};

use crate::request::Request;
use crate::shelf::{Shelf, raw};
use crate::wrong::Wrong;
use bus::{BLOCK, BlockAddress, Bus, BusFault};
use script::{show_bytes, show_number};
use std::alloc::AllocError;

// One part of an answer; `write!` to a `Vec` does not say what stands there when it fails.
fn put(out: &mut Vec<u8>, text: &[u8]) -> Result<(), AllocError>
    ensures { Written result text.now out.old.items out.new.items }
{
    out.extend_from_slice(text)
}

// `refused` and the number; only a broken drive has a fault to name, since no drive was tried before.
fn refused(out: &mut Vec<u8>, fault: BusFault) -> Result<(), AllocError>
    ensures { Grown result (refusal (number_of fault) ++ place fault) out.old.items out.new.items }
{
    number_refused(out, fault.number())?;
    if let BusFault::Broken(at) = fault {
        put(out, b" drive ")?;
        show_number(at.drive as u64, out)?;
        put(out, b" at ")?;
        show_number(at.block as u64, out)?;
    }
    Ok(())
}

pub fn number_refused(out: &mut Vec<u8>, number: u8) -> Result<(), AllocError>
    ensures { Grown result (refusal number) out.old.items out.new.items }
{
    put(out, b"refused ")?;
    show_number(number as u64, out)
}

// Text for `put` too, and no `Display`.
fn done(out: &mut Vec<u8>, answer: Result<(), BusFault>) -> Result<(), AllocError>
    ensures { Grown result (answered answer []) out.old.items out.new.items }
{
    match answer {
        Ok(()) => put(out, b"ok"),
        Err(fault) => refused(out, fault),
    }
}

fn shown(out: &mut Vec<u8>, answer: Result<(), BusFault>, bytes: &[u8]) -> Result<(), AllocError>
    ensures { Grown result (answered_bytes answer bytes.now) out.old.items out.new.items }
{
    match answer {
        Ok(()) => {
            put(out, b"ok ")?;
            show_bytes(bytes, out)
        }
        Err(fault) => refused(out, fault),
    }
}

// A drive's broken mark, behind a space.
fn mark(broken: bool) -> &'static [u8]
    ensures { result.now ≡ mark_of broken }
{
    if broken { b" 1" } else { b" 0" }
}

fn marks(out: &mut Vec<u8>, shelf: &Shelf) -> Result<(), AllocError>
    ensures { Grown result (marks_of (on shelf.now)) out.old.items out.new.items }
{
    put(out, b"ok")?;
    // A bus is asked for a drive by its number.
    for d in 0..shelf.count() {
        put(out, mark(shelf.broken(d)))?;
    }
    Ok(())
}

// The line that a malformed line prints.
pub fn complain_of(out: &mut Vec<u8>, number: u64, wrong: Wrong) -> Result<(), AllocError>
    ensures { Grown result (complained number wrong) out.old.items out.new.items }
{
    put(out, b"error: ")?;
    show_number(number, out)?;
    put(out, b": ")?;
    put(out, wrong.text())
}

fn peek(
    shelf: &mut Shelf,
    at: BlockAddress,
    buffer: &mut [u8],
    out: &mut Vec<u8>,
) -> Result<(), AllocError>
    ensures { Peeks at.drive at.block buffer.old shelf.old shelf.new (λ text. Grown result text out.old.items out.new.items) }
{
    let answer = shelf.read(at, buffer);
    shown(out, answer, buffer)
}

// Carries the request out, and appends its answer.
pub fn carry_out(shelf: &mut Shelf, request: Request, out: &mut Vec<u8>) -> Result<(), AllocError>
    ensures { Carries request shelf.old shelf.new (λ text. Grown result text out.old.items out.new.items) }
{
    match request {
        Request::Bus(_) => put(out, b"ok"),
        Request::Break { drive, access } => done(out, shelf.break_in(drive, access)),
        Request::Broken => marks(out, shelf),
        Request::Peek { at, mut buffer } => peek(shelf, at, buffer.as_mut_slice(), out),
        Request::Poke { at, bytes } => done(out, shelf.write(at, bytes.as_slice())),
        Request::Raw { at } => {
            let mut buffer = [0u8; BLOCK];
            let answer = raw(shelf, at, &mut buffer);
            shown(out, answer, &buffer)
        }
    }
}
