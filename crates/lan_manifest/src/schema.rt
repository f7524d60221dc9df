ghost use Rattle.std.specs.Prelude.{◌≡◌, ◌++◌, ℤ, IfOk, OnOk};
ghost use Rattle.std.specs.Ordering.{int_cmp};
ghost use Rattle.std.specs.BTreeSet.{contains};
ghost use Rattle.lan_model.specs.Plain.{plain_field, plain_fields};
ghost use Rattle.lan_manifest.specs.SchemaLeaves.{leaf_ids, all_leaf_ids, top_of, tops_of, is_listed, shape_of, shape_in};

use lan_model::{Field, FieldList, List, Ty};
use std::alloc::{AllocError, Global};
use std::collections::BTreeSet;

/// A top field, as fragments are held against it: the ids of its leaves, depth first.
#[derive(Drop)]
pub(crate) struct Top {
    pub nullable: bool,
    pub leaves: List<i32>,
}

/// The leaves of a schema, by their ids, and its top fields.
#[derive(Drop)]
pub(crate) struct Schema {
    pub leaves: BTreeSet<i32>,
    pub tops: List<Top>,
}

#[cycle(gather)]
fn gather(field: &Field, ids: &mut List<i32>) -> Result<(), AllocError>
    ensures { OnOk result (ids.new ≡ ids.old ++ leaf_ids (plain_field field.now)) }
{
    match &field.ty {
        Ty::List(item) => gather(item.get(), ids),
        Ty::Struct(members) => gather_all(members.as_slice(), ids),
        _ => ids.push(field.id.cast_signed()),
    }
}

#[cycle(gather)]
fn gather_all(fields: &[Field], ids: &mut List<i32>) -> Result<(), AllocError>
    ensures { OnOk result (ids.new ≡ ids.old ++ all_leaf_ids (plain_fields fields.now)) }
{
    for field in fields {
        gather(field, ids)?;
    }
    Ok(())
}

fn top_of(alloc: Global, field: &Field) -> Result<Top, AllocError>
    ensures { IfOk result (λ top. top ≡ top_of (plain_field field.now)) }
{
    let mut leaves = List::new(alloc);
    gather(field, &mut leaves)?;
    Ok(Top {
        nullable: field.nullable,
        leaves,
    })
}

fn tops_of(alloc: Global, fields: &[Field]) -> Result<List<Top>, AllocError>
    ensures { IfOk result (λ tops. tops ≡ tops_of (plain_fields fields.now)) }
{
    let mut tops = List::new(alloc);
    for field in fields {
        tops.push(top_of(alloc, field)?)?;
    }
    Ok(tops)
}

/// The numbers of a list, as a set.
pub(crate) fn set_of(alloc: Global, ids: &[i32]) -> Result<BTreeSet<i32>, AllocError>
    ensures { IfOk result (λ set. (id : ℤ) → contains int_cmp set id ≡ is_listed ids.now id) }
{
    let mut set = BTreeSet::new(alloc);
    let mut i = ids.len();
    while i > 0 {
        i -= 1;
        set.insert(ids[i])?;
    }
    Ok(set)
}

impl Schema {
    /// That of these fields.
    pub(crate) fn of(alloc: Global, fields: &FieldList) -> Result<Schema, AllocError>
        ensures { IfOk result (λ schema. shape_in schema ≡ shape_of (plain_fields fields.now)) }
    {
        let fields = fields.as_slice();
        let mut ids = List::new(alloc);
        gather_all(fields, &mut ids)?;
        let leaves = set_of(alloc, ids.as_slice())?;
        let tops = tops_of(alloc, fields)?;
        Ok(Schema { leaves, tops })
    }

    pub(crate) fn is_leaf(&self, id: i32) -> bool
        ensures { result ≡ (shape_in self.now).is_leaf id }
    {
        self.leaves.contains(&id)
    }
}
