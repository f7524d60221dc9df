// The fields of a schema in JSON.
ghost use Rattle.std.specs.Prelude.{◌≡◌, ◌⊎◌, ℕ, ◌<◌, ◌∷◌, [], map, IfOk, IfErr, IfSome, IfNone, Ok, Err, Some, None};
ghost use Rattle.serde_json.specs.Data.{object, depth};
ghost use Rattle.serde_json.specs.Read.{read};
ghost use Rattle.serde_json.specs.View.{view, members_view};
ghost use Rattle.lan_model.specs.Plain.{plain_type, plain_field, plain_fields, fields_from, type_unnumbered};
ghost use Rattle.lan_model.specs.PlainTable.{column_of};
ghost use Rattle.lan_model.specs.Table.{AreColumns};
ghost use Rattle.lan_form.specs.declared.faults.FormFault.TheVariants.{Form};
ghost use Rattle.lan_schema.specs.Logical.{leaf_type};
ghost use Rattle.lan_schema.specs.Written.{CanTell, CanTellAll};
ghost use Rattle.lan_form.specs.Form.{known, typed, field_form, item_form, fields_form, list_form, form, form_of_field};
ghost use Rattle.lan_form.specs.Names.{HasTextNames, HasTextsInside, HaveTextNames};
ghost use Rattle.lan_form.specs.Numbers.{CountsFrom, CountFrom, FieldCounted, TypeCounted, AllCounted};

use crate::faults::FormFault;
use crate::limits::within;
use crate::names::distinct;
use crate::shape::read_label;
use lan_model::{Boxed, Field, FieldList, Text, Ty};
use lan_schema::leaf_type;
use serde_json::{Map, Value};
use std::alloc::Global;
use std::slice;

/// The fields of a schema, numbered depth first from 0, or the first fault: a text that is no JSON, then
/// each field in order, depth first, and each list's names after its fields, then the limits.
///
/// A schema is an array of objects with the keys `name`, `nullable` and `type`, and also `item`, a field,
/// where the type is `list`, and `fields`, an array of fields, where it is `struct`. The other types are
/// the logical types of the Lance format.
#[tactic(auto, unfolding(crate::specs::Form::form))]
pub fn from_json(alloc: Global, text: &str) -> Result<FieldList, FormFault>
    ensures fields { IfOk result (λ fs. form text.now ≡ Ok (map column_of fs)) }
    ensures ids { IfOk result (λ fs. CountFrom 0 (plain_fields fs)) }
    ensures told { IfOk result (λ fs. CanTellAll (plain_fields fs)) }
    ensures columns { IfOk result (λ fs. AreColumns (map column_of fs)) }
    ensures fault { IfErr result (λ e. (e ≡ FormFault.Memory) ⊎ (form text.now ≡ Err e)) }
{
    let value = read_value(alloc, text)?;
    let mut next = 0;
    let fields = read_list(alloc, &value, &mut next)?;
    within(fields.as_slice())?;
    Ok(fields)
}

/// One field in the form that it has in a schema, numbered depth first from 0, or the first fault.
#[tactic(auto, unfolding(crate::specs::Form::form_of_field))]
pub fn field_from_json(alloc: Global, text: &str) -> Result<Field, FormFault>
    ensures field { IfOk result (λ f. form_of_field text.now ≡ Ok (column_of f)) }
    ensures ids { IfOk result (λ f. CountsFrom 0 (plain_field f)) }
    ensures told { IfOk result (λ f. CanTell (plain_field f)) }
    ensures columns { IfOk result (λ f. AreColumns (column_of f ∷ [])) }
    ensures fault { IfErr result (λ e. (e ≡ FormFault.Memory) ⊎ (form_of_field text.now ≡ Err e)) }
{
    let value = read_value(alloc, text)?;
    let mut next = 0;
    let field = read_field(alloc, &value, &mut next)?;
    within(slice::from_ref(&field))?;
    Ok(field)
}

fn read_value(alloc: Global, text: &str) -> Result<Value, FormFault>
    ensures ok { IfOk result (λ v. read text.now ≡ Some (view v)) }
    ensures err { IfErr result (λ e. (e ≡ FormFault.Memory) ⊎ ((e ≡ FormFault.Json) × (read text.now ≡ None))) }
{
    match Value::from_str(alloc, text) {
        Ok(value) => Ok(value),
        Err(error) if error.is_memory() => Err(FormFault::Memory),
        Err(_) => Err(FormFault::Json),
    }
}

#[cycle(form)]
fn read_list(alloc: Global, value: &Value, next: &mut u32) -> Result<FieldList, FormFault>
    ensures ok { IfOk result (λ fs. list_form (view value.now) ≡ Ok (map column_of fs)) }
    ensures ids { IfOk result (λ fs. AllCounted next.old (plain_fields fs) next.new) }
    ensures texts { IfOk result (λ fs. HaveTextNames (plain_fields fs)) }
    ensures err { IfErr result (λ e. (e ≡ FormFault.Memory) ⊎ (list_form (view value.now) ≡ Err e)) }
{
    let Some(items) = value.as_array() else {
        return Err(FormFault::Form);
    };
    if items.is_empty() {
        return Err(FormFault::NoFields);
    }
    let mut fields = FieldList::new(alloc);
    for item in items {
        let field = read_field(alloc, item, next)?;
        fields.push(field)?;
    }
    distinct(alloc, fields.as_slice())?;
    Ok(fields)
}

#[cycle(form)]
fn read_field(alloc: Global, value: &Value, next: &mut u32) -> Result<Field, FormFault>
    ensures ok { IfOk result (λ f. field_form (view value.now) ≡ Ok (column_of f)) }
    ensures ids { IfOk result (λ f. FieldCounted next.old (plain_field f) next.new) }
    ensures texts { IfOk result (λ f. HasTextNames (plain_field f)) }
    ensures err { IfErr result (λ e. (e ≡ FormFault.Memory) ⊎ (field_form (view value.now) ≡ Err e)) }
{
    let Some(members) = value.as_object() else {
        return Err(FormFault::Form);
    };
    let label = read_label(value, members)?;
    let name = Text::of(alloc, label.name)?;
    if name.as_str().is_empty() {
        return Err(FormFault::NoName);
    }
    let id = *next;
    *next = id.wrapping_add(1);
    let ty = read_type(alloc, value, members, label.kind, next)?;
    Ok(Field {
        id,
        name,
        nullable: label.nullable,
        ty,
    })
}

#[cycle(form)]
fn read_type(
    alloc: Global,
    value: &Value,
    members: &Map<String, Value>,
    kind: &str,
    next: &mut u32,
) -> Result<Ty, FormFault>
    requires { view value.now ≡ object (members_view members.now.entries) }
    ensures ok { IfOk result (λ t. typed kind.now (item_form (members_view members.now.entries)) (fields_form (members_view members.now.entries)) ≡ Ok (type_unnumbered (plain_type t))) }
    ensures ids { IfOk result (λ t. TypeCounted next.old (plain_type t) next.new) }
    ensures texts { IfOk result (λ t. HasTextsInside (plain_type t)) }
    ensures err { IfErr result (λ e. (e ≡ FormFault.Memory) ⊎ (typed kind.now (item_form (members_view members.now.entries)) (fields_form (members_view members.now.entries)) ≡ Err e)) }
{
    match kind {
        "list" => {
            let Some(item) = item_of(value, members) else {
                return Err(FormFault::Form);
            };
            let item = read_field(alloc, item, next)?;
            Ok(Ty::List(Boxed::new(alloc, item)?))
        }
        "struct" => {
            let Some(fields) = fields_of(value, members) else {
                return Err(FormFault::Form);
            };
            Ok(Ty::Struct(read_list(alloc, fields, next)?))
        }
        _ => known(alloc, kind),
    }
}

// A type without fields in it.
fn known(alloc: Global, kind: &str) -> Result<Ty, FormFault>
    ensures ok { IfOk result (λ t. known kind.now (leaf_type kind.now) ≡ Ok (type_unnumbered (plain_type t))) }
    ensures ids { IfOk result (λ t. (n : ℕ) → TypeCounted n (plain_type t) n) }
    ensures texts { IfOk result (λ t. HasTextsInside (plain_type t)) }
    ensures err { IfErr result (λ e. (e ≡ FormFault.Memory) ⊎ (known kind.now (leaf_type kind.now) ≡ Err e)) }
{
    match leaf_type(kind) {
        Some(ty) => Ok(ty),
        None => Err(FormFault::UnknownType(Text::of(alloc, kind)?)),
    }
}

// The member `item`, which is less deep than the whole.
fn item_of<'v>(value: &'v Value, members: &Map<String, Value>) -> Option<&'v Value>
    requires { view value.now ≡ object (members_view members.now.entries) }
    ensures none { IfNone result (item_form (members_view members.now.entries) ≡ Err Form) }
    ensures some { IfSome result (λ v. item_form (members_view members.now.entries) ≡ field_form (view v.now)) }
    ensures less_deep { IfSome result (λ v. depth (view v.now) < depth (view value.now)) }
{
    value.get("item")
}

// The member `fields`, which is less deep than the whole.
fn fields_of<'v>(value: &'v Value, members: &Map<String, Value>) -> Option<&'v Value>
    requires { view value.now ≡ object (members_view members.now.entries) }
    ensures none { IfNone result (fields_form (members_view members.now.entries) ≡ Err Form) }
    ensures some { IfSome result (λ v. fields_form (members_view members.now.entries) ≡ list_form (view v.now)) }
    ensures less_deep { IfSome result (λ v. depth (view v.now) < depth (view value.now)) }
{
    value.get("fields")
}
