// Prints the place of every protected block of many groups, one group to a line, for a comparison with the model.
#![tactic(auto)]

use layout::geometry::Geometry;
use layout::method::Method;
use layout::mirror::Mirror;
use layout::parity::Parity;
use layout::unprotected::Unprotected;
use std::io;
use std::io::{BufWriter, Write};

const DEPTHS: [usize; 7] = [0, 1, 2, 3, 5, 64, 65];

// Groups with more protected blocks than this are only sampled.
const MOST_PRINTED: usize = 400;

fn print_place<M: Method, W: Write>(out: &mut W, group: &Geometry, q: usize) -> io::Result<()> {
    match group.locate::<M>(q) {
        Ok(place) => write!(out, "{},{}", place.member, place.row),
        Err(refusal) => write!(out, "refused {}", refusal.number()),
    }
}

fn print_all<M: Method, W: Write>(out: &mut W, group: &Geometry) -> io::Result<()> {
    // Places are asked for by number.
    for q in 0..group.protected_blocks::<M>() {
        write!(out, " ")?;
        print_place::<M, W>(out, group, q)?;
    }
    Ok(())
}

// Places near the ends of strips and of the group.
fn print_some<M: Method, W: Write>(out: &mut W, group: &Geometry) -> io::Result<()> {
    let depth = group.depth();
    let count = group.protected_blocks::<M>();
    let samples = [
        0,
        1,
        depth.saturating_sub(1),
        depth,
        count / 2,
        count.saturating_sub(2),
        count.saturating_sub(1),
    ];
    for (i, q) in samples.iter().enumerate() {
        if !samples[..i].contains(q) {
            write!(out, " {q}:")?;
            print_place::<M, W>(out, group, *q)?;
        }
    }
    Ok(())
}

// The numbers may be no group's, so they are no geometry yet; the name goes along, since a method has none.
fn print_group<M: Method, W: Write>(
    out: &mut W,
    name: &str,
    members: usize,
    depth: usize,
    rows: usize,
) -> io::Result<()> {
    write!(out, "{name} {members} {depth} {rows} ")?;
    match Geometry::new::<M>(members, depth, rows) {
        Err(refusal) => write!(out, "refused {}", refusal.number())?,
        Ok(group) => {
            let count = group.protected_blocks::<M>();
            write!(out, "{count}")?;
            if count > MOST_PRINTED {
                print_some::<M, W>(out, &group)?;
            } else {
                print_all::<M, W>(out, &group)?;
            }
        }
    }
    writeln!(out)
}

fn print_groups<M: Method, W: Write>(
    out: &mut W,
    name: &str,
    members: usize,
    depth: usize,
) -> io::Result<()> {
    let unit = depth.saturating_mul(members);
    let lengths = [
        0,
        1,
        depth,
        depth.saturating_add(1),
        unit,
        unit.saturating_mul(2),
        65536,
        65537,
    ];
    for (i, rows) in lengths.iter().enumerate() {
        if !lengths[..i].contains(rows) {
            print_group::<M, W>(out, name, members, depth, *rows)?;
        }
    }
    Ok(())
}

fn print_method<M: Method, W: Write>(out: &mut W, name: &str) -> io::Result<()> {
    // Numbers of members that a group can have, and some that it can't.
    for members in 0..10 {
        for depth in DEPTHS {
            print_groups::<M, W>(out, name, members, depth)?;
        }
    }
    Ok(())
}

fn main(rt: HostRuntime) -> anyhow::Result<()> {
    let mut out = BufWriter::new(rt.alloc(), rt.stdout())?;
    print_method::<Unprotected, _>(&mut out, "none")?;
    print_method::<Mirror, _>(&mut out, "copy")?;
    print_method::<Parity, _>(&mut out, "xor")?;
    out.flush()?;
    Ok(())
}
