ghost use Rattle.std.specs.Prelude.{◌≡◌};
ghost use Rattle.lan_model.specs.Plain.{plain_type};
ghost use Rattle.lan_levels.specs.ZipForm.{kind_of};

use crate::codes::Codes;
use lan_model::{Blob, Leaf, Ty, width};

/// How the values of a page's slots are stored.
#[derive(Drop)]
pub enum ValueKind {
    /// So many bits a value, one value after another; bools from the lowest bit of each byte.
    Flat(u64),
    /// Offsets of four bytes, then the values' bytes.
    Variable,
    /// Each value has these bytes, and the page stores none; a bool has one byte, 0 for false.
    Constant(Blob),
}

impl ValueKind {
    /// How the writer stores values of that type, where a page stores any.
    pub fn of(ty: &Ty) -> ValueKind
        ensures { result ≡ kind_of (plain_type ty.now) }
    {
        match ty {
            Ty::Bits(primitive) => ValueKind::Flat(u64::from(width(*primitive))),
            Ty::Vector(primitive, count) => {
                ValueKind::Flat(u64::from(*count) * u64::from(width(*primitive)))
            }
            _ => ValueKind::Variable,
        }
    }
}

/// How a value stands in a slot of a full-zip page.
#[derive(Clone, Copy, Debug)]
pub enum ValueForm {
    /// One byte, 0 for false and any other for true.
    Bool,
    /// So many bytes.
    Fixed(u64),
    /// A length of four bytes, low byte first, and so many bytes.
    Variable,
}

/// What a page's bytes are read by: the layer codes, the leaf, and how values are stored.
#[derive(Clone, Copy)]
pub struct Shape<'a> {
    pub codes: &'a Codes,
    pub leaf: &'a Leaf,
    pub values: &'a ValueKind,
}
