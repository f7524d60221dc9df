ghost use Rattle.std.specs.Prelude.{◌≡◌};
ghost use Rattle.lan_schema.specs.declared.fault.SchemaFault.TheVariants.{Memory, Wire};

use lan_model::Text;
use lan_wire::WireFault;
use std::alloc::{AllocError, AllocFailed};

/// Why messages stand for no fields. A number is that of a field; each fault presumes that those above
/// it stand for no field.
#[derive(Debug, Drop)]
pub enum SchemaFault {
    /// The messages can't be read, and where.
    Wire(WireFault),
    /// There are no fields.
    Empty,
    /// The field's number is negative.
    BadId(i32),
    /// The field's number is listed before it.
    SameId(i32),
    /// The field's parent is neither -1 nor listed before it.
    BadParent(i32),
    /// The field's name is empty.
    NoName(i32),
    /// A field before it with the same parent has its name.
    SameName(i32),
    /// The field has this logical type, which is none of the format's.
    UnknownType(i32, Text),
    /// The field has more or fewer fields in it than its type takes.
    Children(i32),
    /// The field is a leaf of over 16 layers.
    TooDeep(i32),
    /// There are over 1,024 leaves.
    TooManyLeaves,
    Memory,
}

impl From<AllocError> for SchemaFault {
    ghost from_gives = { λ _ e. e ≡ Memory };

    fn from(_fault: AllocError) -> SchemaFault {
        SchemaFault::Memory
    }
}

impl From<WireFault> for SchemaFault {
    ghost from_gives = { λ fault e. e ≡ Wire fault };

    fn from(fault: WireFault) -> SchemaFault {
        SchemaFault::Wire(fault)
    }
}
