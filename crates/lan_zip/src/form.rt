ghost use Rattle.std.specs.Prelude.{◌≡◌, ◌⊎◌, ◌+◌, ◌-◌, ◌*◌, ◌^◌, ◌<◌, ◌≤◌, length};
ghost use Rattle.lan_levels.specs.Codes.{FitCodes, states_of};
ghost use Rattle.lan_model.specs.Plain.{plain_type};
ghost use Rattle.lan_zip.specs.Form.{IsForm, plain_form};
ghost use Rattle.lan_levels.specs.ZipForm.{digits, form_of, value_form, word_size};

use lan_levels::{Codes, Shape, ValueForm, ValueKind, greatest, lists_in};
use lan_model::{Leaf, Primitive, Ty};

/// What each slot of a page is read by, established once.
#[derive(Clone, Copy)]
pub struct Form<'a> {
    pub codes: &'a Codes,
    pub leaf: &'a Leaf,
    /// How many list layers the leaf has.
    pub lists: u16,
    /// How many bits of the control word are the definition number; those above are the
    /// repetition number.
    pub bits: u16,
    /// The greatest number in so many bits.
    pub mask: u16,
    /// How many bytes the control word has.
    pub word: u8,
    pub value: ValueForm,
}

impl<'a> Form<'a> {
    pub fn of(shape: Shape<'a>) -> Form<'a>
        requires codes { FitCodes shape.codes.now shape.leaf.now.layers }
        requires few { length shape.leaf.now.layers ≤ 16 }
        ensures value { plain_form result ≡ form_of shape.entry }
        ensures is { IsForm result }
    {
        let lists = lists_in(shape.leaf.layers.as_slice());
        let bits = digits(greatest(shape.codes));
        Form {
            codes: shape.codes,
            leaf: shape.leaf,
            lists,
            bits,
            mask: (1 << u32::from(bits)) - 1,
            word: word_size(digits(lists) + bits),
            value: value_form(&shape.leaf.ty, shape.values),
        }
    }
}

/// How many binary digits the number has, none for 0.
fn digits(n: u16) -> u16
    requires { n < 64 }
    ensures value { result ≡ digits n }
    ensures room { n < 2 ^ result }
    ensures least { (result ≡ 0) ⊎ 2 ^ (result - 1) ≤ n }
    ensures few { result ≤ 6 }
    ensures some { 0 < n → 0 < result }
{
    if n < 1 {
        0
    } else if n < 2 {
        1
    } else if n < 4 {
        2
    } else if n < 8 {
        3
    } else if n < 16 {
        4
    } else if n < 32 {
        5
    } else {
        6
    }
}

/// How many bytes a control word has, whose two numbers have so many bits together.
fn word_size(bits: u16) -> u8
    ensures value { result ≡ word_size bits }
    ensures few { result ≤ 2 }
    ensures room { bits ≤ 16 → bits ≤ 8 * result }
    ensures some { 0 < bits → 0 < result }
{
    if bits < 1 {
        0
    } else if bits < 9 {
        1
    } else {
        2
    }
}

fn value_form(ty: &Ty, values: &ValueKind) -> ValueForm
    ensures { result ≡ value_form (plain_type ty.now) values.now }
{
    match ty {
        Ty::Bits(Primitive::Bool) => ValueForm::Bool,
        _ => match values {
            ValueKind::Flat(bits) => ValueForm::Fixed(*bits / 8),
            _ => ValueForm::Variable,
        },
    }
}
