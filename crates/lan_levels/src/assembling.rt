ghost use Rattle.std.specs.Prelude.{◌≡◌, ◌≢◌, ◌≤◌, length, All, IfOk, IfErr};
ghost use Rattle.lan_model.specs.Plain.{PlainValue, plain_field, plain_value};
ghost use Rattle.lan_model.specs.Table.{IsField, depths_of};
ghost use Rattle.lan_levels.specs.Taken.{left_at, AtStart, IsShallow};
ghost use Rattle.lan_levels.specs.Joins.{AreRunsOf, IsJoin, JoinCause};
ghost use Rattle.lan_levels.specs.declared.join.Join.TheVariants as join;

use crate::cursor::unread;
use crate::join::Join;
use crate::slot::{Runs, SlotRun};
use crate::walk::value_at;
use lan_model::{Field, Val};
use std::alloc::Global;

/// The one value that fits the field and has these slots in every leaf, one run for each leaf.
pub fn assemble(alloc: Global, field: &Field, runs: &Runs<'_>) -> Result<Val, Join>
    requires field { IsField (plain_field field.now) }
    requires layers { All (λ depth. depth ≤ 16) (depths_of (plain_field field.now) 0) }
    requires runs { AreRunsOf (plain_field field.now) runs.now }
    ensures ok { IfOk result (λ v. IsJoin (plain_field field.now) runs.now (plain_value v)) }
    ensures cause { IfErr result (JoinCause (plain_field field.now) runs.now) }
    ensures none { IfErr result (λ e. e ≢ join.Memory → (v : PlainValue) → IsJoin (plain_field field.now) runs.now v → ⊥) }
{
    let runs = runs.as_slice();
    let mut places = Vec::from_elem(alloc, 0, runs.len())?;
    joined(alloc, field, runs, places.as_mut_slice())
}

/// The same, where no slot is taken yet.
fn joined(
    alloc: Global,
    field: &Field,
    runs: &[SlotRun<'_>],
    places: &mut [usize],
) -> Result<Val, Join>
    requires field { IsField (plain_field field.now) }
    requires shallow { IsShallow (plain_field field.now) 0 }
    requires runs { AreRunsOf (plain_field field.now) runs.now }
    requires places { length places.old ≡ length runs.now }
    requires start { AtStart runs.now (left_at runs.now places.old) }
    ensures ok { IfOk result (λ v. IsJoin (plain_field field.now) runs.now (plain_value v)) }
    ensures cause { IfErr result (JoinCause (plain_field field.now) runs.now) }
{
    let (val, _) = value_at(alloc, field, 0, 0, runs, places)?;
    match unread(runs, places) {
        Some(leaf) => Err(Join::Shape(leaf)),
        None => Ok(val),
    }
}
