//! One call on an array in use.
ghost use Rattle.controller.specs.Law.{Step, Goes, entry};

use crate::calls::{Answer, Call, Value};
use array::tables::Array;
use array::volume::VolumeBlock;
use bus::Bus;
use layout::block::bytes_fit;

// One call: whatever log the tables and the drives keep, the answer is right after it, and they keep the log with this
// entry at its end.
fn answer<B: Bus>(array: &mut Array, bus: &mut B, call: Call, buf: &mut [u8]) -> Answer
    ensures { Step (entry call.entry buf.old result buf.new (B.Bus.drives bus.old) (B.Bus.drives bus.new)) array.old array.new (B.Bus.drives bus.old) (B.Bus.drives bus.new) }
{
    let done = |()| Value::Done;
    match call {
        Call::MakeGroup {
            group,
            code,
            depth,
            extents,
        } => array.make_group(bus, group, code, depth, extents).map(done),
        Call::DeleteGroup { group } => array.delete_group(group).map(done),
        Call::MakeVolume { volume, runs } => array.make_volume(volume, runs).map(done),
        Call::DeleteVolume { volume } => array.delete_volume(volume).map(done),
        Call::WriteControl { volume, enabled } => array.write_control(volume, enabled).map(done),
        Call::Size { volume } => array.size(volume).map(Value::Blocks),
        Call::Map { volume, block } => array.map(VolumeBlock { volume, block }).map(Value::At),
        Call::Read { volume, block } => array
            .read(bus, VolumeBlock { volume, block }, buf)
            .map(done),
        Call::Write { volume, block } => {
            bytes_fit(buf);
            array
                .write(bus, VolumeBlock { volume, block }, buf)
                .map(done)
        }
    }
}

/// One call on an array in use, after any run of calls that led to it from a new array, with any drives broken meanwhile: it
/// is performed as promised, and the run goes on by it.
// The array and the bus stand apart: between two calls the world has the bus alone, and a struct of both would be made for
// one call and taken apart after it.
pub fn perform<B: Bus>(array: &mut Array, bus: &mut B, call: Call, buf: &mut [u8]) -> Answer
    ensures { Goes (entry call.entry buf.old result buf.new (B.Bus.drives bus.old) (B.Bus.drives bus.new)) array.old array.new (B.Bus.drives bus.old) (B.Bus.drives bus.new) }
{
    answer(array, bus, call, buf)
}
