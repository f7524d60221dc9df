ghost use Rattle.std.specs.Prelude.{◌≡◌, ◌+◌, ◌≤◌, ◌==◌, not, length, slice_index};
ghost use Rattle.lan_model.specs.Plain.{plain_type};
ghost use Rattle.lan_levels.specs.Codes.{FitCodes};
ghost use Rattle.lan_levels.specs.SlotsOf.{lists_in};
ghost use Rattle.lan_levels.specs.PlainSlots.{plain_piece};
ghost use Rattle.lan_levels.specs.ConstantSlots.{own_piece};
ghost use Rattle.lan_levels.specs.ChunkForm.{chunk_form_of, flat_encoding, has_reps, has_defs, has_values, storing, buffered};
ghost use Rattle.lan_mini.specs.Form.{IsForm, plain_form, plain_storing};

use lan_levels::{Codes, Piece, Shape, ValueKind, greatest};
use lan_model::{Blob, Layer, Leaf, Primitive, Ty};

/// What the slots of a chunk are read by, established once.
#[derive(Clone, Copy)]
pub struct Form<'a> {
    pub codes: &'a Codes,
    pub leaf: &'a Leaf,
    /// How many list layers the leaf has, which is the greatest repetition number.
    pub lists: u16,
    /// The greatest definition number.
    pub greatest: u16,
    pub values: Storing<'a>,
}

/// Where the values of a chunk's slots stand.
#[derive(Clone, Copy)]
pub enum Storing<'a> {
    /// One after another, so many bytes each.
    Flat(u64),
    /// Eight in a byte, from its lowest bit on.
    Bools,
    /// Behind their offsets.
    Variable,
    /// Nowhere: each is this piece.
    Always(Piece<'a>),
}

impl<'a> Form<'a> {
    pub fn of(shape: Shape<'a>) -> Form<'a>
        requires codes { FitCodes shape.codes.now shape.leaf.now.layers }
        requires few { length shape.leaf.now.layers ≤ 16 }
        ensures value { plain_form result ≡ chunk_form_of shape.entry }
        ensures is { IsForm result }
    {
        Form {
            codes: shape.codes,
            leaf: shape.leaf,
            lists: lists(shape.leaf.layers.as_slice()),
            greatest: greatest(shape.codes),
            values: storing_of(&shape.leaf.ty, shape.values),
        }
    }

    /// Whether a chunk stores repetition numbers.
    pub fn has_reps(&self) -> bool
        ensures { result ≡ has_reps (plain_form self.now) }
    {
        self.lists > 0
    }

    /// Whether a chunk stores definition numbers.
    pub fn has_defs(&self) -> bool
        requires { IsForm self.now }
        ensures { result ≡ has_defs (plain_form self.now) }
    {
        self.greatest > 0
    }

    /// Whether a chunk stores values.
    pub fn has_values(&self) -> bool
        ensures { result ≡ has_values (plain_form self.now) }
    {
        match self.values {
            Storing::Always(_) => false,
            _ => true,
        }
    }
}

/// How many of the layers are lists.
fn lists(layers: &[Layer]) -> u16
    requires { length layers.now ≤ 16 }
    ensures value { result ≡ lists_in layers.now }
    ensures few { result ≤ 16 }
{
    let mut count = 0;
    for layer in layers {
        if let Layer::List { .. } = layer {
            count += 1;
        }
    }
    count
}

/// Where the values of a leaf of that type stand.
fn storing_of<'a>(ty: &Ty, values: &'a ValueKind) -> Storing<'a>
    ensures { plain_storing result ≡ storing (plain_type ty.now) values.now }
{
    match values {
        ValueKind::Flat(bits) => flat(ty, *bits),
        ValueKind::Variable => Storing::Variable,
        ValueKind::Constant(value) => Storing::Always(constant(ty, value)),
    }
}

/// Where values of so many bits stand.
fn flat<'a>(ty: &Ty, bits: u64) -> Storing<'a>
    ensures { plain_storing result ≡ buffered (flat_encoding (plain_type ty.now) bits) }
{
    match ty {
        Ty::Bits(Primitive::Bool) => Storing::Bools,
        _ => Storing::Flat(bits / 8),
    }
}

/// The value that has these bytes.
fn constant<'a>(ty: &Ty, value: &'a Blob) -> Piece<'a>
    ensures { plain_piece result ≡ own_piece (plain_type ty.now) value.now }
{
    let bytes = value.as_slice();
    match ty {
        Ty::Bits(Primitive::Bool) => Piece::Bit(is_true(bytes)),
        _ => Piece::Bytes(bytes),
    }
}

/// Whether the first byte isn't 0.
fn is_true(bytes: &[u8]) -> bool
    ensures { result ≡ not (slice_index bytes.now 0 == 0) }
{
    match bytes {
        [] => false,
        [byte, ..] => *byte != 0,
    }
}
