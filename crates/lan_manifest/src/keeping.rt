// Whether what a manifest's message says keeps to the rules.
ghost use Rattle.std.specs.Prelude.{◌≡◌, ◌⊎◌, ◌↔◌, ◌^◌, ◌<◌, false, length, ℤ, All, IsTrue, IfOk, IfErr, IfSome, IfNone, OnOk};
ghost use Rattle.std.specs.List.{list_any, list_all};
ghost use Rattle.std.specs.Ordering.{int_cmp};
ghost use Rattle.std.specs.BTreeSet.{contains};
ghost use Rattle.lan_manifest.specs.declared.fault.ManifestFault.TheVariants.{Memory};
ghost use Rattle.lan_manifest.specs.FragmentRules.{deleted_fit, type_fits, are_indexed, lists_fit, is_current, listed_ids, repeats, is_whole, may_lack, Keeps, fault_of, Breaks, KeepEach, BreakOne, HaveIds, BreaksId};
ghost use Rattle.lan_manifest.specs.declared.keeping.TheConstants.{FRAGMENT_RULES};
ghost use Rattle.lan_manifest.specs.ManifestObjects.{KeepsRules, BreaksRule};
ghost use Rattle.lan_manifest.specs.Paths.{IsPath};
ghost use Rattle.lan_manifest.specs.SchemaLeaves.{is_listed, shape_in};
ghost use Rattle.lan_manifest.specs.Stage.{is_read_type};

use crate::fault::ManifestFault;
use crate::manifest::DataFile;
use crate::rules::is_path;
use crate::said::{SaidDeletion, SaidFile, SaidFragment, SaidManifest};
use crate::schema::{Schema, Top, set_of};
use lan_model::List;
use std::alloc::{AllocError, Global};
use std::collections::BTreeSet;

const MAX_FRAGMENTS: u64 = 65_536;

// The reader's flags that say nothing that this reader doesn't do.
const KNOWN_FLAGS: u64 = 13;

/// A rule of each fragment.
#[derive(Clone, Copy, Debug, PartialEq, Eq)]
pub(crate) enum FragmentRule {
    RowIds,
    Rows,
    Path,
    Lists,
    FileVersion,
    DeletionType,
    FieldTwice,
    PartField,
    Absent,
}

// In the order in which they are looked at.
const FRAGMENT_RULES: [FragmentRule; 9] = [
    FragmentRule::RowIds,
    FragmentRule::Rows,
    FragmentRule::Path,
    FragmentRule::Lists,
    FragmentRule::FileVersion,
    FragmentRule::DeletionType,
    FragmentRule::FieldTwice,
    FragmentRule::PartField,
    FragmentRule::Absent,
];

// Whether deletion files of a type are read. So far none are.
fn is_read_type(_kind: u64) -> bool
    ensures { result ≡ is_read_type _kind }
{
    false
}

fn have_rows(fragment: &SaidFragment) -> bool
    ensures { IsTrue result ↔ ((fragment.now.rows < 2 ^ 31) × IsTrue (deleted_fit fragment.now.rows fragment.now.deletion)) }
{
    let deleted = match &fragment.deletion {
        Some(said) => said.deletion.rows,
        None => 0,
    };
    fragment.rows < 1 << 31 && deleted <= fragment.rows
}

fn have_paths(files: &[SaidFile]) -> bool
    ensures { IsTrue result ↔ All (λ s. IsPath s.file.path) files.now }
{
    files.iter().all(|said| is_path(said.file.path.as_slice()))
}

// Whether no leaf has a negative column.
fn are_indexed(schema: &Schema, ids: &[i32], columns: &[i32]) -> bool
    requires { length ids.now ≡ length columns.now }
    ensures { result ≡ are_indexed (shape_in schema.now).is_leaf ids.now columns.now }
{
    for i in 0..ids.len() {
        if schema.is_leaf(ids[i]) && columns[i] < 0 {
            return false;
        }
    }
    true
}

fn lists_fit(schema: &Schema, file: &DataFile) -> bool
    ensures { result ≡ lists_fit (shape_in schema.now).is_leaf file.now }
{
    let ids = file.ids.as_slice();
    let columns = file.columns.as_slice();
    ids.len() == columns.len() && are_indexed(schema, ids, columns)
}

fn have_lists(schema: &Schema, files: &[SaidFile]) -> bool
    ensures { IsTrue result ↔ All (λ s. IsTrue (lists_fit (shape_in schema.now).is_leaf s.file)) files.now }
{
    files.iter().all(|said| lists_fit(schema, &said.file))
}

fn are_current(files: &[SaidFile]) -> bool
    ensures { IsTrue result ↔ All (λ s. IsTrue (is_current s)) files.now }
{
    files.iter().all(|said| said.major == 2 && said.minor == 1)
}

fn has_read_type(deletion: &Option<SaidDeletion>) -> bool
    ensures { IsTrue result ↔ IsTrue (type_fits deletion.now) }
{
    match deletion {
        Some(said) => is_read_type(said.kind),
        None => true,
    }
}

// The ids that files list, one file after the other.
fn listed_ids(alloc: Global, files: &[SaidFile]) -> Result<List<i32>, AllocError>
    ensures { IfOk result (λ ids. ids ≡ listed_ids files.now) }
{
    let mut ids = List::new(alloc);
    for said in files {
        ids.extend(said.file.ids.as_slice())?;
    }
    Ok(ids)
}

// Whether a leaf is listed twice.
fn repeats(alloc: Global, schema: &Schema, ids: &[i32]) -> Result<bool, AllocError>
    ensures { IfOk result (λ twice. twice ≡ repeats (shape_in schema.now).is_leaf ids.now) }
{
    let mut seen = BTreeSet::new(alloc);
    let mut i = ids.len();
    while i > 0 {
        i -= 1;
        let added = seen.insert(ids[i])?;
        if !added && schema.is_leaf(ids[i]) {
            return Ok(true);
        }
    }
    Ok(false)
}

fn list_once(alloc: Global, schema: &Schema, files: &[SaidFile]) -> Result<bool, AllocError>
    ensures { IfOk result (λ once. IsTrue once ↔ (repeats (shape_in schema.now).is_leaf (listed_ids files.now) ≡ false)) }
{
    let ids = listed_ids(alloc, files)?;
    let twice = repeats(alloc, schema, ids.as_slice())?;
    Ok(!twice)
}

// The ids that files list, as a set.
fn given_in(alloc: Global, files: &[SaidFile]) -> Result<BTreeSet<i32>, AllocError>
    ensures { IfOk result (λ given. (id : ℤ) → contains int_cmp given id ≡ is_listed (listed_ids files.now) id) }
{
    let ids = listed_ids(alloc, files)?;
    set_of(alloc, ids.as_slice())
}

fn gives_all(given: &BTreeSet<i32>, leaves: &[i32]) -> bool
    ensures { result ≡ list_all (contains int_cmp given.now) leaves.now }
{
    leaves.iter().all(|id| given.contains(id))
}

fn gives_any(given: &BTreeSet<i32>, leaves: &[i32]) -> bool
    ensures { result ≡ list_any (contains int_cmp given.now) leaves.now }
{
    leaves.iter().any(|id| given.contains(id))
}

fn are_whole(given: &BTreeSet<i32>, tops: &[Top]) -> bool
    ensures { IsTrue result ↔ All (λ top. IsTrue (is_whole (contains int_cmp given.now) top)) tops.now }
{
    tops.iter().all(|top| {
        gives_all(given, top.leaves.as_slice()) || !gives_any(given, top.leaves.as_slice())
    })
}

fn may_lack(given: &BTreeSet<i32>, tops: &[Top]) -> bool
    ensures { IsTrue result ↔ All (λ top. IsTrue (may_lack (contains int_cmp given.now) top)) tops.now }
{
    tops.iter().all(|top| top.nullable || gives_any(given, top.leaves.as_slice()))
}

// Whether the leaves of each top field are given all, or none is.
fn give_whole(alloc: Global, schema: &Schema, files: &[SaidFile]) -> Result<bool, AllocError>
    ensures { IfOk result (λ whole. IsTrue whole ↔ All (λ top. IsTrue (is_whole (is_listed (listed_ids files.now)) top)) schema.now.tops) }
{
    let given = given_in(alloc, files)?;
    Ok(are_whole(&given, schema.tops.as_slice()))
}

// Whether each top field that isn't nullable is given.
fn give_needed(alloc: Global, schema: &Schema, files: &[SaidFile]) -> Result<bool, AllocError>
    ensures { IfOk result (λ needed. IsTrue needed ↔ All (λ top. IsTrue (may_lack (is_listed (listed_ids files.now)) top)) schema.now.tops) }
{
    let given = given_in(alloc, files)?;
    Ok(may_lack(&given, schema.tops.as_slice()))
}

// Whether the fragment keeps the rule.
fn keeps(
    alloc: Global,
    rule: FragmentRule,
    schema: &Schema,
    fragment: &SaidFragment,
) -> Result<bool, AllocError>
    ensures { IfOk result (λ kept. IsTrue kept ↔ Keeps rule (shape_in schema.now) fragment.now) }
{
    let files = fragment.files.as_slice();
    match rule {
        FragmentRule::RowIds => Ok(!fragment.row_ids),
        FragmentRule::Rows => Ok(have_rows(fragment)),
        FragmentRule::Path => Ok(have_paths(files)),
        FragmentRule::Lists => Ok(have_lists(schema, files)),
        FragmentRule::FileVersion => Ok(are_current(files)),
        FragmentRule::DeletionType => Ok(has_read_type(&fragment.deletion)),
        FragmentRule::FieldTwice => list_once(alloc, schema, files),
        FragmentRule::PartField => give_whole(alloc, schema, files),
        FragmentRule::Absent => {
            if fragment.rows == 0 {
                return Ok(true);
            }
            give_needed(alloc, schema, files)
        }
    }
}

// The fault of a fragment that breaks the rule.
fn fault_of(rule: FragmentRule, fragment: &SaidFragment) -> ManifestFault
    ensures { result ≡ fault_of rule fragment.now }
{
    let id = fragment.id;
    match rule {
        FragmentRule::RowIds => ManifestFault::RowIds(id),
        FragmentRule::Rows => ManifestFault::Rows(id),
        FragmentRule::Path => ManifestFault::Path(id),
        FragmentRule::Lists => ManifestFault::Lists(id),
        FragmentRule::FileVersion => ManifestFault::FileVersion(id),
        FragmentRule::DeletionType => match &fragment.deletion {
            Some(said) => ManifestFault::DeletionType(said.kind),
            None => ManifestFault::DeletionType(0),
        },
        FragmentRule::FieldTwice => ManifestFault::FieldTwice(id),
        FragmentRule::PartField => ManifestFault::PartField(id),
        FragmentRule::Absent => ManifestFault::Absent(id),
    }
}

// Whether all fragments keep the rule: nothing, or the fault of the first that breaks it.
fn judge_rule(
    alloc: Global,
    rule: FragmentRule,
    schema: &Schema,
    fragments: &[SaidFragment],
) -> Result<(), ManifestFault>
    ensures ok { OnOk result (All (Keeps rule (shape_in schema.now)) fragments.now) }
    ensures fault { IfErr result (λ fault. (fault ≡ Memory) ⊎ Breaks rule (shape_in schema.now) fragments.now fault) }
{
    for fragment in fragments {
        if !keeps(alloc, rule, schema, fragment)? {
            return Err(fault_of(rule, fragment));
        }
    }
    Ok(())
}

// Whether all fragments keep each of these rules: nothing, or the fault of the first rule that is broken.
fn judge_each(
    alloc: Global,
    rules: &[FragmentRule],
    schema: &Schema,
    fragments: &[SaidFragment],
) -> Result<(), ManifestFault>
    ensures ok { OnOk result (KeepEach rules.now (shape_in schema.now) fragments.now) }
    ensures fault { IfErr result (λ fault. (fault ≡ Memory) ⊎ BreakOne rules.now (shape_in schema.now) fragments.now fault) }
{
    for rule in rules {
        match judge_rule(alloc, *rule, schema, fragments) {
            Ok(()) => {}
            Err(fault) => return Err(fault),
        }
    }
    Ok(())
}

// The last id that has over 32 bits, or that comes again behind.
fn bad_id(alloc: Global, fragments: &[SaidFragment]) -> Result<Option<u64>, AllocError>
    ensures some { IfOk result (λ found. IfSome found (λ id. BreaksId id fragments.now)) }
    ensures none { IfOk result (λ found. IfNone found (HaveIds fragments.now)) }
{
    let mut ids = BTreeSet::new(alloc);
    let mut i = fragments.len();
    while i > 0 {
        i -= 1;
        let id = fragments[i].id;
        if id >= 1 << 32 {
            return Ok(Some(id));
        }
        let added = ids.insert(id)?;
        if !added {
            return Ok(Some(id));
        }
    }
    Ok(None)
}

/// Whether what a manifest's message says keeps to the rules of manifests of a version whose fields have
/// this schema: nothing, or the first rule that it breaks.
pub(crate) fn judge(
    alloc: Global,
    version: u64,
    schema: &Schema,
    said: &SaidManifest,
) -> Result<(), ManifestFault>
    ensures ok { OnOk result (KeepsRules version (shape_in schema.now) said.now) }
    ensures fault { IfErr result (λ fault. (fault ≡ Memory) ⊎ BreaksRule version (shape_in schema.now) said.now fault) }
{
    if said.version != version {
        return Err(ManifestFault::VersionDiffers(version, said.version));
    }
    let unknown = said.flags & !KNOWN_FLAGS;
    if unknown != 0 {
        return Err(ManifestFault::UnknownFlag(unknown));
    }
    if said.fragments.len() > MAX_FRAGMENTS {
        return Err(ManifestFault::Fragments);
    }
    let fragments = said.fragments.as_slice();
    if let Some(id) = bad_id(alloc, fragments)? {
        return Err(ManifestFault::FragmentId(id));
    }
    match judge_each(alloc, &FRAGMENT_RULES, schema, fragments) {
        Ok(()) => Ok(()),
        Err(fault) => Err(fault),
    }
}
