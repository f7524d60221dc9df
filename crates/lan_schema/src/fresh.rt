ghost use Rattle.std.specs.Prelude.{◌≡◌, ◌^◌, ◌<◌, ◌≤◌, IfSome, IfNone};
ghost use Rattle.lan_model.specs.Plain.{plain_type, plain_field, plain_fields};
ghost use Rattle.lan_schema.specs.Fresh.{end_of_type, end_of, end_of_all, end_of_ids, fresh};

use lan_model::{Field, FieldList, Ty};

#[cycle(end)]
fn end_of(field: &Field) -> u32
    requires { end_of (plain_field field.now) ≤ 2 ^ 31 }
    ensures { result ≡ end_of (plain_field field.now) }
{
    let end = end_of_type(&field.ty);
    end.max(field.id + 1)
}

#[cycle(end)]
fn end_of_type(ty: &Ty) -> u32
    requires { end_of_type (plain_type ty.now) ≤ 2 ^ 31 }
    ensures { result ≡ end_of_type (plain_type ty.now) }
{
    match ty {
        Ty::List(item) => end_of(item.get()),
        Ty::Struct(members) => end_of_all(members.as_slice()),
        _ => 0,
    }
}

#[cycle(end)]
fn end_of_all(fields: &[Field]) -> u32
    requires { end_of_all (plain_fields fields.now) ≤ 2 ^ 31 }
    ensures { result ≡ end_of_all (plain_fields fields.now) }
{
    let mut end = 0;
    for field in fields {
        end = end.max(end_of(field));
    }
    end
}

fn end_of_ids(ids: &[i32]) -> u32
    ensures value { result ≡ end_of_ids ids.now }
    ensures fits { result ≤ 2 ^ 31 }
{
    let mut end = 0;
    for id in ids {
        if *id >= 0 {
            end = end.max(id.cast_unsigned() + 1);
        }
    }
    end
}

/// A number that no field has: one above the greatest of all in the fields and in the list that
/// aren't negative, or 0 where there is none. None where that is 2^31.
pub fn fresh_id(fields: &FieldList, ids: &[i32]) -> Option<u32>
    requires below { end_of_all (plain_fields fields.now) ≤ 2 ^ 31 }
    ensures some { IfSome result (λ id. id ≡ fresh (plain_fields fields.now) ids.now) }
    ensures fits { IfSome result (λ id. id < 2 ^ 31) }
    ensures none { IfNone result (fresh (plain_fields fields.now) ids.now ≡ 2 ^ 31) }
{
    let end = end_of_all(fields.as_slice()).max(end_of_ids(ids));
    if end == 1 << 31 {
        return None;
    }
    Some(end)
}
