// The columns that are read for fields, by the data files in which they lie.
ghost use Rattle.std.specs.Prelude.{◌≡◌, ◌++◌, ◌<◌, ℕ, ℤ, List as Sequence, [], All, cond, length, map, IfOk, IfSome, OnOk};
ghost use Rattle.std.specs.BTreeMap.{get, get_by};
ghost use Rattle.std.specs.Cmp.Lexicographic.{slice_cmp};
ghost use Rattle.std.specs.Option.{option_or};
ghost use Rattle.std.specs.Ordering.{int_cmp, nat_cmp};
ghost use Rattle.lan_model.specs.Leaves.{IsNarrow, leaves_of, plain_leaves};
ghost use Rattle.lan_model.specs.Plain.{plain_field};
ghost use Rattle.lan_schema.specs.Forest.{same};
ghost use Rattle.lan_file.specs.Heads.{picks_of};
ghost use Rattle.lan_manifest.specs.declared.manifest.DataFile.{DataFile as PlainFile};
ghost use Rattle.lan_read.specs.Grouped.{ArePlaces, grouped, last_place, numbers_for, numbers_of, placed};
ghost use Rattle.lan_read.specs.Opened.{Use, column_listed, leaves_in, own_column, uses_of};

use lan_file::{ColumnPick, ColumnPicks};
use lan_manifest::{DataFile, DataFiles};
use lan_model::{Field, FieldList, Leaf, Leaves, List, Nums, copy_field, leaves};
use std::alloc::{AllocError, Global};
use std::collections::BTreeMap;

/// A column of a data file, which goes by its number among a fragment's.
#[derive(Clone, Copy)]
pub struct Place {
    pub file: u64,
    pub column: u32,
}

// By fields' numbers.
type Places = BTreeMap<i32, Place>;

/// The columns that are read for fields.
#[derive(Drop)]
pub struct Used {
    /// Of each data file. Of files with one path only the last has them.
    pub picks: List<ColumnPicks>,
    /// For each field the files of its leaves' columns, leaf by leaf; a leaf that no file gives is left out.
    pub files: List<Nums>,
}

// The number of the last file of each path.
fn last_places(alloc: Global, files: &DataFiles) -> Result<BTreeMap<&str, u64>, AllocError>
    ensures { IfOk result (λ last. (path : Sequence ℕ) → get_by (λ k. slice_cmp nat_cmp path k.now) last ≡ last_place files.now path) }
{
    let mut last = BTreeMap::new(alloc);
    for i in 0..files.len() {
        last.insert(files.at(i).path.as_str(), i)?;
    }
    Ok(last)
}

// Adds a column that a file lists for a field, where it is one of its own and the field has none yet.
fn list_column(places: &mut Places, id: i32, column: i32, number: u64) -> Result<(), AllocError>
    ensures { OnOk result ((q : ℤ) → get int_cmp places.new q ≡ option_or (get int_cmp places.old q) (cond (same id q) (placed number (own_column column)) None)) }
{
    if column < 0 || places.contains_key(&id) {
        return Ok(());
    }
    let column = column.cast_unsigned();
    places.insert(
        id,
        Place {
            file: number,
            column,
        },
    )?;
    Ok(())
}

// Adds the columns that a file lists for fields that have none yet.
fn list_columns(places: &mut Places, file: &DataFile, number: u64) -> Result<(), AllocError>
    ensures { OnOk result ((q : ℤ) → get int_cmp places.new q ≡ option_or (get int_cmp places.old q) (placed number (column_listed file.now.ids file.now.columns q))) }
{
    for k in 0..file.ids.len().min(file.columns.len()) {
        list_column(places, *file.ids.at(k), *file.columns.at(k), number)?;
    }
    Ok(())
}

// The first column that files list for each field.
fn places_of(alloc: Global, files: &DataFiles) -> Result<Places, AllocError>
    ensures { IfOk result (ArePlaces files.now) }
{
    let last = last_places(alloc, files)?;
    let mut places = BTreeMap::new(alloc);
    for file in files.as_slice() {
        let number = last.get(file.path.as_str()).copied().unwrap_or(0);
        list_columns(&mut places, file, number)?;
    }
    Ok(places)
}

// No column of any file.
fn no_picks(alloc: Global, files: &DataFiles) -> Result<List<ColumnPicks>, AllocError>
    ensures { IfOk result (λ picks. map picks_of picks ≡ grouped files.now []) }
{
    let mut picks = List::new(alloc);
    for _file in files.as_slice() {
        picks.push(ColumnPicks::new(alloc))?;
    }
    Ok(picks)
}

fn leaves_of(alloc: Global, field: &Field) -> Result<Leaves, AllocError>
    requires { IsNarrow (plain_field field.now) }
    ensures { IfOk result (λ found. plain_leaves found ≡ leaves_of (plain_field field.now) 0 []) }
{
    let mut fields = FieldList::new(alloc);
    fields.push(copy_field(alloc, field)?)?;
    leaves(alloc, &fields)
}

// Adds the columns of leaves to those that are read, and gives the files in which they lie.
fn use_leaves(
    alloc: Global,
    places: &Places,
    leaves: Leaves,
    picks: &mut List<ColumnPicks>,
) -> Result<Nums, AllocError>
    requires { (id : ℤ) → IfSome (get int_cmp places.now id) (λ place. place.file < length picks.old) }
    ensures picks { OnOk result ((files : Sequence PlainFile) (uses : Sequence Use) → ArePlaces files places.now → map picks_of picks.old ≡ grouped files uses → map picks_of picks.new ≡ grouped files (uses ++ uses_of files (plain_leaves leaves))) }
    ensures numbers { IfOk result (λ numbers. (files : Sequence PlainFile) → ArePlaces files places.now → numbers ≡ numbers_of files (uses_of files (plain_leaves leaves))) }
{
    let mut numbers = Nums::new(alloc);
    for leaf in leaves.into_vec() {
        let Some(place) = places.get(&leaf.id.cast_signed()).copied() else {
            continue;
        };
        numbers.push(place.file)?;
        let pick = ColumnPick {
            column: place.column,
            leaf,
        };
        picks.at_mut(place.file).push(pick)?;
    }
    Ok(numbers)
}

/// The columns of these files that are read for fields. A leaf is read of the first file that lists a column of
/// its own for it.
pub fn used_columns(
    alloc: Global,
    fields: &FieldList,
    files: &DataFiles,
) -> Result<Used, AllocError>
    requires { All IsNarrow (map plain_field fields.now) }
    ensures picks { IfOk result (λ used. map picks_of used.picks ≡ grouped files.now (uses_of files.now (leaves_in (map plain_field fields.now)))) }
    ensures files { IfOk result (λ used. used.files ≡ map (numbers_for files.now) (map plain_field fields.now)) }
{
    let places = places_of(alloc, files)?;
    let mut picks = no_picks(alloc, files)?;
    let mut numbers = List::new(alloc);
    for field in fields.as_slice() {
        let leaves = leaves_of(alloc, field)?;
        numbers.push(use_leaves(alloc, &places, leaves, &mut picks)?)?;
    }
    Ok(Used {
        picks,
        files: numbers,
    })
}
