ghost use Rattle.std.specs.Prelude.{◌≡◌, ◌≢◌, ◌↔◌, ◌⊎◌, ◌+◌, ◌<◌, ◌≤◌, ℕ, Bool, length, IfOk, IfErr, IsTrue};
ghost use Rattle.lan_model.specs.Plain.{list, struct, items, group, plain_type, plain_field, plain_fields, plain_value, plain_values};
ghost use Rattle.lan_model.specs.Table.{IsField, AreNamed, AreFields};
ghost use Rattle.lan_levels.specs.EachLeaf.{leaf_count, leaf_count_of, first_depth, first_depth_of, first_lists};
ghost use Rattle.lan_levels.specs.BadSlots.{slots_at};
ghost use Rattle.lan_levels.specs.Taken.{left_at, IsShallow, AreShallow, IsAlone, MarkIs, Took, Refused, TookAs, RefusedAs, TookEach, EachRefused, Continues, TookItems, ItemsRefused};
ghost use Rattle.lan_levels.specs.declared.join.Join.TheVariants as join;
ghost use Rattle.lan_levels.specs.declared.bare.Mark.TheVariants as mark;

use crate::bare::{Mark, bare_at, bare_members, mark_at};
use crate::cursor::{next_slot, take_slot};
use crate::join::Join;
use crate::leaf_value::leaf_value;
use crate::slot::SlotRun;
use lan_model::{Field, List, Ty, Val, Vals};
use std::alloc::Global;

/// Takes the value that comes next in the leaves of the field, of which the first has the place
/// `leaf`, and gives the place after them. Since the last slot that began the value, `lists` list
/// layers were entered.
#[cycle(value)]
pub fn value_at(
    alloc: Global,
    field: &Field,
    lists: u16,
    leaf: usize,
    runs: &[SlotRun<'_>],
    places: &mut [usize],
) -> Result<(Val, usize), Join>
    requires field { IsField (plain_field field.now) }
    requires shallow { IsShallow (plain_field field.now) lists }
    requires places { length places.old ≡ length runs.now }
    ensures ok { IfOk result (λ found. Took (plain_field field.now) lists leaf (left_at runs.now places.old) (left_at runs.now places.new) (plain_value found.0)) }
    ensures past { IfOk result (λ found. found.1 ≡ leaf + leaf_count (plain_field field.now)) }
    ensures err { IfErr result (Refused (plain_field field.now) lists leaf (slots_at runs.now) (left_at runs.now places.old)) }
{
    match &field.ty {
        Ty::List(item) => list_at(
            alloc,
            field.id,
            field.nullable,
            item.get(),
            lists,
            leaf,
            runs,
            places,
        ),
        Ty::Struct(members) => struct_at(
            alloc,
            field.id,
            field.nullable,
            members.as_slice(),
            lists,
            leaf,
            runs,
            places,
        ),
        ty => leaf_at(
            alloc,
            field.id,
            field.nullable,
            ty,
            lists,
            leaf,
            runs,
            places,
        ),
    }
}

/// The value of a leaf.
fn leaf_at(
    alloc: Global,
    id: u32,
    nullable: bool,
    ty: &Ty,
    lists: u16,
    leaf: usize,
    runs: &[SlotRun<'_>],
    places: &mut [usize],
) -> Result<(Val, usize), Join>
    requires alone { IsAlone (plain_type ty.now) }
    requires places { length places.old ≡ length runs.now }
    ensures ok { IfOk result (λ found. TookAs id nullable (plain_type ty.now) lists leaf (left_at runs.now places.old) (left_at runs.now places.new) (plain_value found.0)) }
    ensures past { IfOk result (λ found. found.1 ≡ leaf + 1) }
    ensures err { IfErr result (RefusedAs id nullable (plain_type ty.now) lists leaf (slots_at runs.now) (left_at runs.now places.old)) }
{
    match take_slot(runs, places, leaf) {
        Some(slot) if slot.rep == lists => {
            let val = leaf_value(alloc, id, nullable, ty, slot)?;
            Ok((val, leaf + 1))
        }
        _ => Err(Join::Shape(id)),
    }
}

/// The value of a list.
#[cycle(value)]
fn list_at(
    alloc: Global,
    id: u32,
    nullable: bool,
    item: &Field,
    lists: u16,
    leaf: usize,
    runs: &[SlotRun<'_>],
    places: &mut [usize],
) -> Result<(Val, usize), Join>
    requires field { IsField (plain_field item.now) }
    requires shallow { IsShallow (plain_field item.now) (lists + 1) }
    requires places { length places.old ≡ length runs.now }
    ensures ok { IfOk result (λ found. TookAs id nullable (list (plain_field item.now)) lists leaf (left_at runs.now places.old) (left_at runs.now places.new) (plain_value found.0)) }
    ensures past { IfOk result (λ found. found.1 ≡ leaf + leaf_count (plain_field item.now)) }
    ensures err { IfErr result (RefusedAs id nullable (list (plain_field item.now)) lists leaf (slots_at runs.now) (left_at runs.now places.old)) }
{
    match mark_at(item, runs, places, leaf) {
        Mark::Null => null_list(id, nullable, item, lists, leaf, runs, places),
        Mark::Empty => empty_list(alloc, id, nullable, item, lists, leaf, runs, places),
        Mark::Inside => {
            let (vals, past) = items_at(alloc, item, lists, leaf, runs, places)?;
            Ok((items_value(vals), past))
        }
    }
}

/// The null list whose slot comes next in the first leaf.
fn null_list(
    id: u32,
    nullable: bool,
    item: &Field,
    lists: u16,
    leaf: usize,
    runs: &[SlotRun<'_>],
    places: &mut [usize],
) -> Result<(Val, usize), Join>
    requires field { IsField (plain_field item.now) }
    requires shallow { IsShallow (plain_field item.now) (lists + 1) }
    requires places { length places.old ≡ length runs.now }
    requires null { MarkIs (first_depth (plain_field item.now) + 1) (left_at runs.now places.old leaf) mark.Null }
    ensures ok { IfOk result (λ found. TookAs id nullable (list (plain_field item.now)) lists leaf (left_at runs.now places.old) (left_at runs.now places.new) (plain_value found.0)) }
    ensures past { IfOk result (λ found. found.1 ≡ leaf + leaf_count (plain_field item.now)) }
    ensures err { IfErr result (RefusedAs id nullable (list (plain_field item.now)) lists leaf (slots_at runs.now) (left_at runs.now places.old)) }
{
    match bare_at(item, false, 1, lists + 1, leaf, runs, places) {
        Err(other) => Err(Join::Shape(other)),
        Ok(past) => {
            if nullable {
                Ok((Val::Null, past))
            } else {
                Err(Join::NotNull(id))
            }
        }
    }
}

/// The empty list whose slot comes next in the first leaf.
fn empty_list(
    alloc: Global,
    _id: u32,
    _nullable: bool,
    item: &Field,
    lists: u16,
    leaf: usize,
    runs: &[SlotRun<'_>],
    places: &mut [usize],
) -> Result<(Val, usize), Join>
    requires field { IsField (plain_field item.now) }
    requires shallow { IsShallow (plain_field item.now) (lists + 1) }
    requires places { length places.old ≡ length runs.now }
    requires empty { MarkIs (first_depth (plain_field item.now) + 1) (left_at runs.now places.old leaf) mark.Empty }
    ensures ok { IfOk result (λ found. TookAs _id _nullable (list (plain_field item.now)) lists leaf (left_at runs.now places.old) (left_at runs.now places.new) (plain_value found.0)) }
    ensures past { IfOk result (λ found. found.1 ≡ leaf + leaf_count (plain_field item.now)) }
    ensures err { IfErr result (RefusedAs _id _nullable (list (plain_field item.now)) lists leaf (slots_at runs.now) (left_at runs.now places.old)) }
{
    match bare_at(item, true, 1, lists + 1, leaf, runs, places) {
        Err(other) => Err(Join::Shape(other)),
        Ok(past) => Ok((items_value(Vals::new(alloc)), past)),
    }
}

/// The value of a struct.
#[cycle(value)]
fn struct_at(
    alloc: Global,
    id: u32,
    nullable: bool,
    members: &[Field],
    lists: u16,
    leaf: usize,
    runs: &[SlotRun<'_>],
    places: &mut [usize],
) -> Result<(Val, usize), Join>
    requires some { 0 < length members.now }
    requires named { AreNamed (plain_fields members.now) }
    requires fields { AreFields (plain_fields members.now) }
    requires shallow { AreShallow (plain_fields members.now) (lists + 1) }
    requires places { length places.old ≡ length runs.now }
    ensures ok { IfOk result (λ found. TookAs id nullable (struct (plain_fields members.now)) lists leaf (left_at runs.now places.old) (left_at runs.now places.new) (plain_value found.0)) }
    ensures past { IfOk result (λ found. found.1 ≡ leaf + leaf_count_of (plain_fields members.now)) }
    ensures err { IfErr result (RefusedAs id nullable (struct (plain_fields members.now)) lists leaf (slots_at runs.now) (left_at runs.now places.old)) }
{
    match mark_at(&members[0], runs, places, leaf) {
        Mark::Null => null_struct(id, nullable, members, lists, leaf, runs, places),
        _ => {
            let (vals, past) = members_at(alloc, members, lists, leaf, runs, places)?;
            Ok((group_value(vals), past))
        }
    }
}

/// The null struct whose slot comes next in the first leaf.
fn null_struct(
    id: u32,
    nullable: bool,
    members: &[Field],
    lists: u16,
    leaf: usize,
    runs: &[SlotRun<'_>],
    places: &mut [usize],
) -> Result<(Val, usize), Join>
    requires some { 0 < length members.now }
    requires named { AreNamed (plain_fields members.now) }
    requires fields { AreFields (plain_fields members.now) }
    requires shallow { AreShallow (plain_fields members.now) (lists + 1) }
    requires places { length places.old ≡ length runs.now }
    requires null { MarkIs (first_depth_of (plain_fields members.now)) (left_at runs.now places.old leaf) mark.Null }
    ensures ok { IfOk result (λ found. TookAs id nullable (struct (plain_fields members.now)) lists leaf (left_at runs.now places.old) (left_at runs.now places.new) (plain_value found.0)) }
    ensures past { IfOk result (λ found. found.1 ≡ leaf + leaf_count_of (plain_fields members.now)) }
    ensures err { IfErr result (RefusedAs id nullable (struct (plain_fields members.now)) lists leaf (slots_at runs.now) (left_at runs.now places.old)) }
{
    match bare_members(members, false, 1, lists, leaf, runs, places) {
        Err(other) => Err(Join::Shape(other)),
        Ok(past) => {
            if nullable {
                Ok((Val::Null, past))
            } else {
                Err(Join::NotNull(id))
            }
        }
    }
}

/// The items of a list that is neither null nor empty.
#[cycle(value)]
fn items_at(
    alloc: Global,
    item: &Field,
    lists: u16,
    leaf: usize,
    runs: &[SlotRun<'_>],
    places: &mut [usize],
) -> Result<(Vals, usize), Join>
    requires field { IsField (plain_field item.now) }
    requires shallow { IsShallow (plain_field item.now) (lists + 1) }
    requires places { length places.old ≡ length runs.now }
    ensures ok { IfOk result (λ found. TookItems (plain_field item.now) lists leaf (left_at runs.now places.old) (left_at runs.now places.new) (plain_values found.0)) }
    ensures stop { IfOk result (λ found. Continues (plain_field item.now) leaf (left_at runs.now places.new) → ⊥) }
    ensures past { IfOk result (λ found. found.1 ≡ leaf + leaf_count (plain_field item.now)) }
    ensures err { IfErr result (ItemsRefused (plain_field item.now) lists leaf (slots_at runs.now) (left_at runs.now places.old)) }
{
    let (first, past) = value_at(alloc, item, lists + 1, leaf, runs, places)?;
    let mut vals = Vals::new(alloc);
    vals.push(first)?;
    while goes_on(item, leaf, runs, places) {
        let (val, _) = value_at(alloc, item, 0, leaf, runs, places)?;
        vals.push(val)?;
    }
    Ok((vals, past))
}

/// Whether the next slot in the item's first leaf begins a further item of the same list.
fn goes_on(item: &Field, leaf: usize, runs: &[SlotRun<'_>], places: &[usize]) -> bool
    requires { length places.now ≡ length runs.now }
    ensures { IsTrue result ↔ Continues (plain_field item.now) leaf (left_at runs.now places.now) }
{
    match next_slot(runs, places, leaf) {
        Some(slot) => has_lists(item, slot.rep),
        None => false,
    }
}

/// Whether the first leaf has so many list layers.
fn has_lists(field: &Field, lists: u16) -> bool
    ensures { IsTrue result ↔ (lists ≡ first_lists (plain_field field.now)) }
{
    match &field.ty {
        Ty::List(item) => lists > 0 && has_lists(item.get(), lists - 1),
        Ty::Struct(members) => match members.as_slice() {
            [] => lists == 0,
            [first, ..] => has_lists(first, lists),
        },
        _ => lists == 0,
    }
}

/// The members of a struct that is not null.
#[cycle(value)]
fn members_at(
    alloc: Global,
    members: &[Field],
    lists: u16,
    leaf: usize,
    runs: &[SlotRun<'_>],
    places: &mut [usize],
) -> Result<(Vals, usize), Join>
    requires fields { AreFields (plain_fields members.now) }
    requires shallow { AreShallow (plain_fields members.now) lists }
    requires places { length places.old ≡ length runs.now }
    ensures ok { IfOk result (λ found. TookEach (plain_fields members.now) lists leaf (left_at runs.now places.old) (left_at runs.now places.new) (plain_values found.0)) }
    ensures past { IfOk result (λ found. found.1 ≡ leaf + leaf_count_of (plain_fields members.now)) }
    ensures err { IfErr result (λ e. (e ≡ join.Memory) ⊎ EachRefused (plain_fields members.now) lists leaf (slots_at runs.now) (left_at runs.now places.old) e) }
{
    let mut vals = Vals::new(alloc);
    let mut next = leaf;
    for member in members {
        let (val, past) = value_at(alloc, member, lists, next, runs, places)?;
        vals.push(val)?;
        next = past;
    }
    Ok((vals, next))
}

fn items_value(vals: Vals) -> Val
    ensures { plain_value result ≡ items (plain_values vals) }
{
    Val::Items(vals)
}

fn group_value(vals: Vals) -> Val
    ensures { plain_value result ≡ group (plain_values vals) }
{
    Val::Group(vals)
}
