// How deep leaves may lie, and how many they may be.
ghost use Rattle.std.specs.Prelude.{◌≡◌, ◌+◌, ◌<◌, ◌≤◌, map, IfErr, OnOk, Ok, Err, MatchOption};
ghost use Rattle.lan_model.specs.Plain.{plain_field, plain_fields, all_unnumbered};
ghost use Rattle.lan_model.specs.PlainTable.{column_of};
ghost use Rattle.lan_model.specs.Table.{IsField, AreFields, depths_of, all_depths};
ghost use Rattle.lan_form.specs.Limits.{are_shallow, leaves_in, all_leaves, within};

use crate::faults::FormFault;
use lan_model::{Field, Ty};

const MAX_LAYERS: u32 = 16;

const MAX_LEAVES: u32 = 1024;

/// Refuses fields with a leaf that lies too deep, or else with too many leaves.
pub(crate) fn within(fields: &[Field]) -> Result<(), FormFault>
    requires { AreFields (all_unnumbered (plain_fields fields.now)) }
    ensures ok { OnOk result (within (map column_of fields.now) ≡ Ok (map column_of fields.now)) }
    ensures err { IfErr result (λ e. within (map column_of fields.now) ≡ Err e) }
{
    if !are_shallow(fields, 0) {
        return Err(FormFault::TooDeep);
    }
    if all_leaves(fields, MAX_LEAVES).is_none() {
        return Err(FormFault::TooManyLeaves);
    }
    Ok(())
}

#[cycle(shallow)]
fn is_shallow(field: &Field, outer: u32) -> bool
    requires field { IsField (column_of field.now) }
    requires outer { outer ≤ 16 }
    ensures { result ≡ are_shallow (depths_of (column_of field.now) outer) }
{
    if outer == MAX_LAYERS {
        return false;
    }
    match &field.ty {
        Ty::List(item) => is_shallow(item.get(), outer + 1),
        Ty::Struct(members) => are_shallow(members.as_slice(), outer + 1),
        _ => true,
    }
}

#[cycle(shallow)]
fn are_shallow(fields: &[Field], outer: u32) -> bool
    requires fields { AreFields (all_unnumbered (plain_fields fields.now)) }
    requires outer { outer ≤ 16 }
    ensures { result ≡ are_shallow (all_depths (all_unnumbered (plain_fields fields.now)) outer) }
{
    for field in fields {
        if !is_shallow(field, outer) {
            return false;
        }
    }
    true
}

// How many leaves there is room for behind those of the field.
#[cycle(leaves)]
fn leaves_in(field: &Field, room: u32) -> Option<u32>
    ensures { MatchOption result (room < leaves_in (column_of field.now)) (λ left. left + leaves_in (column_of field.now) ≡ room) }
{
    match &field.ty {
        Ty::List(item) => leaves_in(item.get(), room),
        Ty::Struct(members) => all_leaves(members.as_slice(), room),
        _ => room.checked_sub(1),
    }
}

#[cycle(leaves)]
fn all_leaves(fields: &[Field], room: u32) -> Option<u32>
    ensures { MatchOption result (room < all_leaves (all_unnumbered (plain_fields fields.now))) (λ left. left + all_leaves (all_unnumbered (plain_fields fields.now)) ≡ room) }
{
    let mut left = room;
    for field in fields {
        left = leaves_in(field, left)?;
    }
    Some(left)
}
