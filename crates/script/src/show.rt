ghost use Rattle.std.specs.Prelude.{◌≡◌, ◌<◌, decimal};
ghost use Rattle.std.specs.Char.{digit_char};
ghost use Rattle.script.specs.Showing.{shown_run, shown_runs, shown, Grown, Written};

use crate::front::leading;
use itoa::Buffer;
use std::alloc::AllocError;

fn hex_digit(n: u8) -> u8
    requires { n < 16 }
    ensures { result ≡ digit_char n }
{
    char::from_digit(u32::from(n), 16).unwrap() as u8
}

/// Appends a number's decimal digits. On an `Err`, `out` holds what it held.
pub fn show_number(n: u64, out: &mut Vec<u8>) -> Result<(), AllocError>
    ensures { Written result (decimal n) out.old.items out.new.items }
{
    // A block of short runs shows mostly numbers of one digit, and these need no buffer.
    if n < 10 {
        out.push(b'0' + n as u8)?;
        return Ok(());
    }
    let mut digits = Buffer::new();
    out.extend_from_slice(digits.format(n).as_bytes())
}

// Writes a run of equal bytes, as `509*a5`; `write!` to a `Vec` does not say what stands there when it fails.
fn push_shown_run(n: u64, b: u8, out: &mut Vec<u8>) -> Result<(), AllocError>
    ensures { Grown result (shown_run (n, b)) out.old.items out.new.items }
{
    show_number(n, out)?;
    out.extend_from_slice(&[b'*', hex_digit(b / 16), hex_digit(b % 16)])
}

// Writes the longest runs, with a space between each two.
fn push_runs(bytes: &[u8], out: &mut Vec<u8>) -> Result<(), AllocError>
    ensures { Grown result (shown_runs bytes.now) out.old.items out.new.items }
{
    let mut first = true;
    for run in bytes.chunk_by(|a, b| a == b) {
        if !first {
            out.push(b' ')?;
        }
        push_shown_run(run.len() as u64, run[0], out)?;
        first = false;
    }
    Ok(())
}

/// Appends the printed form of bytes: their longest runs, as `2*00 1*10 509*a5`, or `0` where there is none.
/// On an `Err`, `out` holds what it held.
pub fn show_bytes(bytes: &[u8], out: &mut Vec<u8>) -> Result<(), AllocError>
    ensures { Written result (shown bytes.now) out.old.items out.new.items }
{
    if bytes.is_empty() {
        return show_number(0, out);
    }
    let start = out.len();
    let shown = push_runs(bytes, out);
    if shown.is_err() {
        out.truncate(start);
    }
    shown
}
