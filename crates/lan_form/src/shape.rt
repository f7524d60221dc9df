// What the keys of an object say of a field.
ghost use Rattle.std.specs.Prelude.{◌≡◌, IfOk, IfErr, Ok, Err};
ghost use Rattle.serde_json.specs.Data.{object};
ghost use Rattle.serde_json.specs.Find.{as_bool, as_str};
ghost use Rattle.serde_json.specs.View.{view, members_view};
ghost use Rattle.lan_form.specs.declared.faults.FormFault.TheVariants.{Form};
ghost use Rattle.lan_form.specs.Shape.{has_only, has_shape, member_of, label_of};
ghost use Rattle.lan_form.specs.Labels.{plain_label};

use crate::faults::FormFault;
use serde_json::{Map, Value};

/// What a field says of itself, apart from the fields in it.
#[derive(Debug, Clone, Copy, Drop)]
pub(crate) struct Label<'v> {
    pub name: &'v str,
    pub nullable: bool,
    pub kind: &'v str,
}

/// The label, where the object has the keys that a field of its type has, and no other.
pub(crate) fn read_label<'v>(
    value: &'v Value,
    members: &Map<String, Value>,
) -> Result<Label<'v>, FormFault>
    requires { view value.now ≡ object (members_view members.now.entries) }
    ensures ok { IfOk result (λ l. label_of (members_view members.now.entries) ≡ Ok (plain_label l)) }
    ensures err { IfErr result (λ e. (e ≡ FormFault.Form) × (label_of (members_view members.now.entries) ≡ Err Form)) }
{
    let name = read_text(value, members, "name")?;
    let nullable = read_flag(value, members, "nullable")?;
    let kind = read_text(value, members, "type")?;
    if !has_shape(value, members, kind) {
        return Err(FormFault::Form);
    }
    Ok(Label {
        name,
        nullable,
        kind,
    })
}

fn read_text<'v>(
    value: &'v Value,
    members: &Map<String, Value>,
    key: &str,
) -> Result<&'v str, FormFault>
    requires { view value.now ≡ object (members_view members.now.entries) }
    ensures ok { IfOk result (λ s. member_of as_str key.now (members_view members.now.entries) ≡ Ok s.now) }
    ensures err { IfErr result (λ e. (e ≡ FormFault.Form) × (member_of as_str key.now (members_view members.now.entries) ≡ Err Form)) }
{
    value
        .get(key)
        .and_then(Value::as_str)
        .ok_or(FormFault::Form)
}

fn read_flag(value: &Value, members: &Map<String, Value>, key: &str) -> Result<bool, FormFault>
    requires { view value.now ≡ object (members_view members.now.entries) }
    ensures ok { IfOk result (λ b. member_of as_bool key.now (members_view members.now.entries) ≡ Ok b) }
    ensures err { IfErr result (λ e. (e ≡ FormFault.Form) × (member_of as_bool key.now (members_view members.now.entries) ≡ Err Form)) }
{
    value
        .get(key)
        .and_then(Value::as_bool)
        .ok_or(FormFault::Form)
}

fn has_shape(value: &Value, members: &Map<String, Value>, kind: &str) -> bool
    requires { view value.now ≡ object (members_view members.now.entries) }
    ensures { result ≡ has_shape kind.now (members_view members.now.entries) }
{
    match kind {
        "list" => has_only(members, "item") && value.get("item").is_some(),
        "struct" => {
            has_only(members, "fields") && value.get("fields").and_then(Value::as_array).is_some()
        }
        _ => has_only(members, "type"),
    }
}

// Whether each key is one that every field has, or the other one.
fn has_only(members: &Map<String, Value>, other: &str) -> bool
    ensures { result ≡ has_only other.now (members_view members.now.entries) }
{
    for (key, _member) in members.iter() {
        let key = key.as_str();
        if key != "name" && key != "nullable" && key != "type" && key != other {
            return false;
        }
    }
    true
}
