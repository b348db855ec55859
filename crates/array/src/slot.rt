//! A group as the array keeps it.
ghost use Rattle.std.specs.Prelude.{◌≤◌};
ghost use Rattle.array.specs.Kinds.{method};

use crate::kind::MethodKind;
use group::record::Group;

/// A group with its method, of no fewer members than the method's least.
#[derive(Clone, Copy)]
pub struct GroupSlot {
    pub(crate) kind: MethodKind,
    pub(crate) group: Group,
    ghost enough: { (method kind).LEAST ≤ group.geometry.members },
}
