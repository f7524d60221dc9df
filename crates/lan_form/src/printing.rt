// The JSON of a schema.
ghost use Rattle.std.specs.Prelude.{◌≡◌, [], ◌∷◌, ◌++◌, OnOk, IfOk, string_bytes};
ghost use Rattle.json.specs.Print.{print};
ghost use Rattle.json.specs.Token as Token;
ghost use Rattle.json.specs.Tree.{json_tokens, items_tokens, members_tokens};
ghost use Rattle.lan_model.specs.Plain.{plain_type, plain_field, plain_fields};
ghost use Rattle.lan_form.specs.Printed.{kind_of, label_members, field_json, fields_json, inside_tokens, json_of};

use json::Writer;
use lan_model::{Field, FieldList, Text, Ty};
use lan_schema::logical_of;
use std::alloc::{AllocError, Global};

/// The JSON form of a schema, without white space, the keys of each object in the order of their bytes.
#[tactic(auto, unfolding(crate::specs::Printed::json_of))]
pub fn to_json(alloc: Global, fields: &FieldList) -> Result<Text, AllocError>
    ensures { IfOk result (λ text. text ≡ json_of (plain_fields fields.now)) }
{
    let mut out = Writer::new(Vec::new(alloc));
    out.begin_array()?;
    write_fields(alloc, fields.as_slice(), &mut out)?;
    Ok(finish(out))
}

// The text of all that was written.
fn finish(out: Writer) -> Text
    requires { out.before ≡ [] }
    ensures { result ≡ print out.tokens }
{
    Text::from_string(String::from_utf8(out.into_inner()).unwrap())
}

#[cycle(print)]
fn write_field(alloc: Global, field: &Field, out: &mut Writer) -> Result<(), AllocError>
    ensures before { out.new.before ≡ out.old.before }
    ensures ok { OnOk result (out.new.tokens ≡ out.old.tokens ++ json_tokens (field_json (plain_field field.now))) }
{
    out.begin_object()?;
    write_inside(alloc, &field.ty, out)?;
    write_label(alloc, field, out)
}

// The fields, and the bracket behind them.
#[cycle(print)]
fn write_fields(alloc: Global, fields: &[Field], out: &mut Writer) -> Result<(), AllocError>
    ensures before { out.new.before ≡ out.old.before }
    ensures ok { OnOk result (out.new.tokens ≡ out.old.tokens ++ items_tokens (fields_json (plain_fields fields.now))) }
{
    for field in fields {
        write_field(alloc, field, out)?;
    }
    out.end_array()
}

#[cycle(print)]
fn write_inside(alloc: Global, ty: &Ty, out: &mut Writer) -> Result<(), AllocError>
    ensures before { out.new.before ≡ out.old.before }
    ensures ok { OnOk result (out.new.tokens ≡ out.old.tokens ++ inside_tokens (plain_type ty.now)) }
{
    match ty {
        Ty::List(item) => {
            out.key("item")?;
            write_field(alloc, item.get(), out)
        }
        Ty::Struct(members) => {
            out.key("fields")?;
            out.begin_array()?;
            write_fields(alloc, members.as_slice(), out)
        }
        _ => Ok(()),
    }
}

// What every field says of itself, and the bracket behind it.
fn write_label(alloc: Global, field: &Field, out: &mut Writer) -> Result<(), AllocError>
    ensures before { out.new.before ≡ out.old.before }
    ensures ok { OnOk result (out.new.tokens ≡ out.old.tokens ++ members_tokens (label_members field.now.name field.now.nullable (plain_type field.now.ty))) }
{
    let kind = kind_of(alloc, &field.ty)?;
    write_text("name", field.name.as_str(), out)?;
    write_flag("nullable", field.nullable, out)?;
    write_text("type", kind.as_str(), out)?;
    out.end_object()
}

fn write_text(key: &str, text: &str, out: &mut Writer) -> Result<(), AllocError>
    ensures before { out.new.before ≡ out.old.before }
    ensures ok { OnOk result (out.new.tokens ≡ out.old.tokens ++ Token.key key.now ∷ Token.string text.now ∷ []) }
{
    out.key(key)?;
    out.string(text)
}

fn write_flag(key: &str, flag: bool, out: &mut Writer) -> Result<(), AllocError>
    ensures before { out.new.before ≡ out.old.before }
    ensures ok { OnOk result (out.new.tokens ≡ out.old.tokens ++ Token.key key.now ∷ Token.boolean flag ∷ []) }
{
    out.key(key)?;
    out.boolean(flag)
}

fn kind_of(alloc: Global, ty: &Ty) -> Result<String, AllocError>
    ensures { IfOk result (λ s. string_bytes s ≡ kind_of (plain_type ty.now)) }
{
    match ty {
        Ty::List(_) => String::from_str(alloc, "list"),
        _ => logical_of(alloc, ty),
    }
}
