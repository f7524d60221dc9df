ghost use Rattle.std.specs.Prelude.{◌≡◌, codes, option_map, option_copied};
ghost use Rattle.lan_model.specs.Plain.{plain_type};
ghost use Rattle.lan_schema.specs.Logical.{named, items_of_vectors, behind, count_in, vector_of, leaf_type};

use lan_model::{Primitive, Ty, number_of};

/// How many items a vector has at most.
const MAX_COUNT: u64 = 65_536;

/// The type that a logical type of the Lance format names, where it has no fields in it: the name of a
/// primitive, `string`, `binary`, or `fixed_size_list:T:n` with a primitive other than `bool` and from
/// 1 to 65,536 items in plain decimal.
pub fn leaf_type(logical: &str) -> Option<Ty>
    ensures { option_map plain_type result ≡ leaf_type logical.now }
{
    match logical {
        "string" => Some(Ty::Text),
        "binary" => Some(Ty::Bytes),
        "bool" => Some(Ty::Bits(Primitive::Bool)),
        _ => match named(logical) {
            Some(primitive) => Some(Ty::Bits(primitive)),
            None => vector_of(logical),
        },
    }
}

// The primitive of this name, of which a vector may be.
fn named(name: &str) -> Option<Primitive>
    ensures { result ≡ named name.now items_of_vectors }
{
    match name {
        "int8" => Some(Primitive::Int8),
        "int16" => Some(Primitive::Int16),
        "int32" => Some(Primitive::Int32),
        "int64" => Some(Primitive::Int64),
        "uint8" => Some(Primitive::Uint8),
        "uint16" => Some(Primitive::Uint16),
        "uint32" => Some(Primitive::Uint32),
        "uint64" => Some(Primitive::Uint64),
        "halffloat" => Some(Primitive::Half),
        "float" => Some(Primitive::Float),
        "double" => Some(Primitive::Double),
        "date32:day" => Some(Primitive::Date),
        _ => None,
    }
}

#[tactic(auto, unfolding(crate::specs::Logical::vector_of))]
fn vector_of(logical: &str) -> Option<Ty>
    ensures { option_map plain_type result ≡ vector_of logical.now }
{
    let parts = behind(logical)?;
    let (name, count) = parts.rsplit_once(':')?;
    let primitive = named(name)?;
    let count = count_in(count)?;
    Some(Ty::Vector(primitive, count))
}

fn behind(logical: &str) -> Option<&str>
    ensures { option_copied result ≡ behind (codes "fixed_size_list:") logical.now }
{
    logical.strip_prefix("fixed_size_list:")
}

fn count_in(text: &str) -> Option<u32>
    ensures { result ≡ count_in text.now }
{
    let count = number_of(text)?;
    if count == 0 || count > MAX_COUNT {
        return None;
    }
    Some(count as u32)
}
