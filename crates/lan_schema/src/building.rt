ghost use Rattle.std.specs.Prelude.{◌≡◌, ◌≢◌, ℕ, ℤ, negsuc, false, Some, IfOk, OnOk, IsSome, if◌then◌else◌};
ghost use Rattle.lan_model.specs.Plain.{PlainFields, list, plain_type, plain_field, plain_fields, one_field};
ghost use Rattle.lan_schema.specs.Building.{siblings};
ghost use Rattle.lan_schema.specs.FieldsOf.{AreLinked, AreTyped, type_of, fields_of, with_others};
ghost use Rattle.lan_schema.specs.Listed.{is_negative};
ghost use Rattle.lan_schema.specs.Forest.{same, forest, label_of};

use crate::logical::leaf_type;
use crate::node::Node;
use crate::shape::{Shape, shape_of};
use lan_model::{Boxed, Field, FieldList, List, Text, Ty};
use std::alloc::{AllocError, AllocFailed, Global};
use std::collections::BTreeMap;

// The type of a list of items like this field.
fn list_of(alloc: Global, item: Field) -> Result<Ty, AllocError>
    ensures { IfOk result (λ ty. plain_type ty ≡ list (plain_field item)) }
{
    Ok(Ty::List(Boxed::new(alloc, item)?))
}

// The type of a field with these fields in it.
fn type_of(alloc: Global, logical: &str, members: FieldList) -> Result<Ty, AllocError>
    requires { IsSome (type_of logical.now (plain_fields members)) }
    ensures { IfOk result (λ ty. type_of logical.now (plain_fields members) ≡ Some (plain_type ty)) }
{
    match shape_of(logical) {
        Shape::Struct => Ok(Ty::Struct(members)),
        Shape::List => {
            let mut items = members.into_vec();
            match items.pop() {
                Some(item) => list_of(alloc, item),
                None => unreachable!(),
            }
        }
        Shape::Leaf => match leaf_type(logical) {
            Some(ty) => Ok(ty),
            None => unreachable!(),
        },
    }
}

// The fields that stand for a parent so far, the last one first; none are left of it.
fn taken(alloc: Global, built: &mut BTreeMap<i32, FieldList>, parent: i32) -> FieldList
    ensures value { plain_fields result ≡ siblings built.old parent }
    ensures others { (q : ℤ) → q ≢ parent → siblings built.new q ≡ siblings built.old q }
{
    match built.remove(&parent) {
        Some(fields) => {
            let mut fields = fields.into_vec();
            fields.reverse();
            List::from_vec(fields)
        }
        None => List::new(alloc),
    }
}

// Puts a field before those of its parent.
fn put(
    alloc: Global,
    built: &mut BTreeMap<i32, FieldList>,
    parent: i32,
    field: Field,
) -> Result<(), AllocError>
    ensures here { OnOk result (siblings built.new parent ≡ one_field (plain_field field) (siblings built.old parent)) }
    ensures others { OnOk result ((q : ℤ) → q ≢ parent → siblings built.new q ≡ siblings built.old q) }
{
    let mut fields = match built.remove(&parent) {
        Some(fields) => fields,
        None => List::new(alloc),
    };
    fields.push(field)?;
    built.insert(parent, fields)?;
    Ok(())
}

// The field of a node with these fields in it.
fn field_of(alloc: Global, node: &Node<'_>, members: FieldList) -> Result<Field, AllocError>
    requires typed { IsSome (type_of node.now.logical (plain_fields members)) }
    requires natural { is_negative node.now.id ≡ false }
    ensures { IfOk result (λ f. (others : PlainFields ℕ)
        → with_others (label_of node.now) (plain_fields members) (Some others) ≡ Some (one_field (plain_field f) others)) }
{
    let ty = type_of(alloc, node.logical(), members)?;
    let name = Text::of(alloc, node.name())?;
    Ok(Field {
        id: node.id().cast_unsigned(),
        name,
        nullable: node.nullable(),
        ty,
    })
}

/// The fields whose nodes these are, each listed behind its parent.
pub fn build(alloc: Global, nodes: &[Node<'_>]) -> Result<FieldList, AllocError>
    requires linked { AreLinked nodes.now }
    requires typed { AreTyped nodes.now }
    ensures { IfOk result (λ fields. fields_of (forest (negsuc 0) nodes.now) ≡ Some (plain_fields fields)) }
{
    let mut built = BTreeMap::new(alloc);
    let mut i = nodes.len();
    while i > 0 {
        i -= 1;
        let node = &nodes[i];
        let id = node.id();
        let members = taken(alloc, &mut built, id);
        let field = field_of(alloc, node, members)?;
        let parent = node.parent();
        put(alloc, &mut built, parent, field)?;
    }
    Ok(taken(alloc, &mut built, -1))
}
