// The data file of new rows, and how a manifest lists it.
ghost use Rattle.std.specs.Prelude.{◌≡◌, ◌+◌, ◌^◌, ◌<◌, ◌++◌, ℕ, List as Sequence, map, IfOk, OnOk};
ghost use Rattle.lan_model.specs.Plain.{PlainValue, plain_field, plain_fields, unnumbered};
ghost use Rattle.lan_model.specs.Table.{AreColumns};
ghost use Rattle.lan_levels.specs.EachLeaf.{leaf_count, leaf_count_of};
ghost use Rattle.lan_fresh.specs.Fresh.{file_path};
ghost use Rattle.lan_read.specs.Listings.{all_listings, columns_in, file_of_fields, ids_in, listings_of};
ghost use Rattle.lan_commit.specs.ChangePuts.{data_object};
ghost use Rattle.lan_commit.specs.NewRows.{HasRows};

use crate::new_rows::NewRows;
use lan_file::write_file;
use lan_fresh::file_path;
use lan_manifest::DataFile;
use lan_model::{Blob, Field, FieldList, List, Ty};
use lan_store::{Dir, Name, Object};
use std::alloc::{AllocError, Global};

// The lists of a data file, and the column of the next leaf.
#[derive(Drop)]
struct Lists {
    ids: List<i32>,
    columns: List<i32>,
    next: u32,
}

/// The data file of these fields under the path of a number: its fields depth first, each leaf in the column
/// of its place, and -1 for the column of a list or a struct.
pub fn new_file(alloc: Global, fields: &FieldList, number: u64) -> Result<DataFile, AllocError>
    requires number { number < 2 ^ 53 }
    requires columns { AreColumns (map unnumbered (map plain_field fields.now)) }
    ensures { IfOk result (λ file. file ≡ file_of_fields (file_path number) (map plain_field fields.now)) }
{
    let mut lists = Lists {
        ids: List::new(alloc),
        columns: List::new(alloc),
        next: 0,
    };
    list_all(fields.as_slice(), &mut lists)?;
    let Lists {
        ids,
        columns,
        next: _,
    } = lists;
    Ok(DataFile {
        path: file_path(alloc, number)?,
        ids,
        columns,
    })
}

#[cycle(list)]
fn list_field(field: &Field, lists: &mut Lists) -> Result<(), AllocError>
    requires { lists.old.next + leaf_count (plain_field field.now) < 2 ^ 31 }
    ensures ids { OnOk result (lists.new.ids ≡ lists.old.ids ++ ids_in (listings_of (plain_field field.now) lists.old.next)) }
    ensures columns { OnOk result (lists.new.columns ≡ lists.old.columns ++ columns_in (listings_of (plain_field field.now) lists.old.next)) }
    ensures next { OnOk result (lists.new.next ≡ lists.old.next + leaf_count (plain_field field.now)) }
{
    lists.ids.push(field.id.cast_signed())?;
    match &field.ty {
        Ty::List(item) => {
            lists.columns.push(-1)?;
            list_field(item.get(), lists)
        }
        Ty::Struct(members) => {
            lists.columns.push(-1)?;
            list_all(members.as_slice(), lists)
        }
        _ => {
            lists.columns.push(lists.next as i32)?;
            lists.next += 1;
            Ok(())
        }
    }
}

#[cycle(list)]
fn list_all(fields: &[Field], lists: &mut Lists) -> Result<(), AllocError>
    requires { lists.old.next + leaf_count_of (plain_fields fields.now) < 2 ^ 31 }
    ensures ids { OnOk result (lists.new.ids ≡ lists.old.ids ++ ids_in (all_listings (plain_fields fields.now) lists.old.next)) }
    ensures columns { OnOk result (lists.new.columns ≡ lists.old.columns ++ columns_in (all_listings (plain_fields fields.now) lists.old.next)) }
    ensures next { OnOk result (lists.new.next ≡ lists.old.next + leaf_count_of (plain_fields fields.now)) }
{
    for field in fields {
        list_field(field, lists)?;
    }
    Ok(())
}

/// The data file of the rows under the path of a number.
pub fn data_object(
    alloc: Global,
    fields: &FieldList,
    number: u64,
    rows: &NewRows,
) -> Result<Object, AllocError>
    requires number { number < 2 ^ 53 }
    requires columns { AreColumns (map unnumbered (map plain_field fields.now)) }
    requires rows { (list : Sequence (Sequence PlainValue)) × HasRows (map plain_field fields.now) list rows.now }
    ensures { (list : Sequence (Sequence PlainValue)) → HasRows (map plain_field fields.now) list rows.now → IfOk result (λ object. object ≡ data_object number (map plain_field fields.now) list) }
{
    let columns = rows.build(alloc)?;
    let bytes = write_file(alloc, fields, rows.len(), &columns)?;
    let name = Name {
        dir: Dir::Data,
        rest: file_path(alloc, number)?,
    };
    Ok(Object {
        name,
        bytes: Blob::from_vec(bytes),
    })
}
