//! Whole runs from a new array.
ghost use Rattle.std.specs.Prelude.{◌≡◌, ℕ, true, IfOk, OnErr, slice_index_or};
ghost use Rattle.bus.specs.Drives.{at, Worse};
ghost use Rattle.controller.specs.Runs.{Turned, Ran};

use crate::log::{Event, Request};
use crate::perform::perform;
use array::tables::Array;
use bus::{Bus, MOST_DRIVES};
use std::alloc::{AllocError, Global};
use std::array::from_fn;

/// What happens to a bus between two calls: some drives may break, and nothing else changes.
pub trait Between<B: Bus> {
    fn between(&mut self, bus: &mut B)
        ensures { Worse (B.Bus.drives bus.old) (B.Bus.drives bus.new) };
}

// Of every drive whether it is broken.
fn marks<B: Bus>(bus: &B) -> [bool; MOST_DRIVES]
    ensures { (d : ℕ) → slice_index_or result d true ≡ (at (B.Bus.drives bus.now) d).broken }
{
    from_fn(|d| bus.broken(d))
}

// One request, put into the log. Where memory is wanting nothing has happened.
fn turn<'a, B: Bus>(
    heap: Global,
    array: &mut Array,
    bus: &mut B,
    request: Request<'a>,
) -> Result<Event<'a>, AllocError>
    ensures turned { IfOk result (λ e. Turned request.entry e array.old array.new (B.Bus.drives bus.old) (B.Bus.drives bus.new)) }
    ensures refused { OnErr result ((bus.new ≡ bus.old) × (array.new ≡ array.old)) }
{
    let buffer = request.buffer.to_vec(heap)?;
    let mut left = request.buffer.to_vec(heap)?;
    let before = marks(bus);
    let answer = perform(array, bus, request.call, &mut left);
    let after = marks(bus);
    Ok(Event {
        call: request.call,
        buffer,
        answer,
        left,
        before,
        after,
    })
}

/// Carries the requests out on a new array over any bus, with drives of any content, broken or not, and with any world
/// between the calls, and answers the log. The law holds of it.
pub fn run<'a, B: Bus, W: Between<B>>(
    heap: Global,
    bus: &mut B,
    world: &mut W,
    requests: &[Request<'a>],
) -> Result<Vec<Event<'a>>, AllocError>
    ensures { IfOk result (λ log. Ran (B.Bus.drives bus.old) (B.Bus.drives bus.new) requests.now log.items) }
{
    let mut log = Vec::with_capacity(heap, requests.len())?;
    let mut array = Array::new();
    for request in requests {
        world.between(bus);
        let event = turn(heap, &mut array, bus, *request)?;
        log.push_reserved(event);
    }
    Ok(log)
}
