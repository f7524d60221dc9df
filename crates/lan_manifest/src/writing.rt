// Manifests as objects.
ghost use Rattle.std.specs.Prelude.{◌≡◌, ◌++◌, flat_map, is_some, length, OnOk, IfOk};
ghost use Rattle.std.specs.List.{list_any};
ghost use Rattle.lan_wire.specs.Spelling.{part_item};
ghost use Rattle.lan_manifest.specs.Manifests.{plain_manifest, framed, manifest_text, complements, file_text, deletion_text, fragment_text, greatest_text};

use crate::manifest::{DataFile, Deletion, Fragment, Manifest};
use lan_schema::write_fields;
use lan_wire::Writer;
use std::alloc::{AllocError, Global};

fn complements(alloc: Global, values: &[i32]) -> Result<Vec<u64>, AllocError>
    ensures { IfOk result (λ list. list.items ≡ complements values.now) }
{
    let mut list = Vec::new(alloc);
    for value in values {
        list.push(i64::from(*value).cast_unsigned())?;
    }
    Ok(list)
}

fn file_text(alloc: Global, file: &DataFile) -> Result<Vec<u8>, AllocError>
    ensures { IfOk result (λ bytes. bytes.items ≡ file_text file.now) }
{
    let ids = complements(alloc, file.ids.as_slice())?;
    let columns = complements(alloc, file.columns.as_slice())?;
    let mut out = Writer::new(alloc);
    out.text(1, file.path.as_str())?;
    out.packed(2, ids.as_slice())?;
    out.packed(3, columns.as_slice())?;
    out.num(4, 2)?;
    out.num(5, 1)?;
    Ok(out.finish())
}

fn write_files(alloc: Global, files: &[DataFile], out: &mut Writer) -> Result<(), AllocError>
    ensures { OnOk result (out.new ≡ out.old ++ flat_map (λ file. part_item 2 (file_text file)) files.now) }
{
    for file in files {
        let text = file_text(alloc, file)?;
        out.part(2, text.as_slice())?;
    }
    Ok(())
}

fn write_deletion(
    alloc: Global,
    deletion: Option<Deletion>,
    out: &mut Writer,
) -> Result<(), AllocError>
    ensures { OnOk result (out.new ≡ out.old ++ deletion_text deletion) }
{
    if let Some(deletion) = deletion {
        let mut message = Writer::new(alloc);
        message.num(2, deletion.read_version)?;
        message.num(3, deletion.id)?;
        message.num(4, deletion.rows)?;
        let message = message.finish();
        out.part(3, message.as_slice())?;
    }
    Ok(())
}

fn fragment_text(alloc: Global, fragment: &Fragment) -> Result<Vec<u8>, AllocError>
    ensures { IfOk result (λ bytes. bytes.items ≡ fragment_text fragment.now) }
{
    let mut out = Writer::new(alloc);
    out.num(1, u64::from(fragment.id))?;
    write_files(alloc, fragment.files.as_slice(), &mut out)?;
    write_deletion(alloc, fragment.deletion, &mut out)?;
    out.num(4, fragment.rows)?;
    Ok(out.finish())
}

fn write_fragments(
    alloc: Global,
    fragments: &[Fragment],
    out: &mut Writer,
) -> Result<(), AllocError>
    ensures { OnOk result (out.new ≡ out.old ++ flat_map (λ f. part_item 2 (fragment_text f)) fragments.now) }
{
    for fragment in fragments {
        let text = fragment_text(alloc, fragment)?;
        out.part(2, text.as_slice())?;
    }
    Ok(())
}

fn has_deletions(fragments: &[Fragment]) -> bool
    ensures { result ≡ list_any (λ f. is_some f.deletion) fragments.now }
{
    fragments.iter().any(|fragment| fragment.deletion.is_some())
}

fn write_greatest(greatest: Option<u32>, out: &mut Writer) -> Result<(), AllocError>
    ensures { OnOk result (out.new ≡ out.old ++ greatest_text greatest) }
{
    if let Some(id) = greatest {
        out.present(11, u64::from(id))?;
    }
    Ok(())
}

#[tactic(auto, unfolding(crate::specs::Manifests::manifest_text))]
fn manifest_text(alloc: Global, manifest: &Manifest) -> Result<Vec<u8>, AllocError>
    ensures { IfOk result (λ bytes. bytes.items ≡ manifest_text (plain_manifest manifest.now)) }
{
    let fragments = manifest.fragments.as_slice();
    let deletions = u64::from(has_deletions(fragments));
    let mut out = Writer::new(alloc);
    write_fields(alloc, &manifest.fields, 1, &mut out)?;
    write_fragments(alloc, fragments, &mut out)?;
    out.num(3, manifest.version)?;
    out.num(9, deletions)?;
    out.num(10, deletions)?;
    write_greatest(manifest.greatest, &mut out)?;
    Ok(out.finish())
}

#[tactic(auto, unfolding(crate::specs::Manifests::framed))]
fn frame(alloc: Global, message: &[u8]) -> Result<Vec<u8>, AllocError>
    ensures { IfOk result (λ bytes. bytes.items ≡ framed message.now) }
{
    let mut object = Vec::new(alloc);
    let len = (message.len() % (1 << 32)) as u32;
    object.extend_from_slice(&len.to_le_bytes())?;
    object.extend_from_slice(message)?;
    object.extend_from_slice(&0u64.to_le_bytes())?;
    object.extend_from_slice(&0u16.to_le_bytes())?;
    object.extend_from_slice(&2u16.to_le_bytes())?;
    object.extend_from_slice(b"LANC")?;
    Ok(object)
}

/// The bytes of the object that a manifest is put as: its message, as the Manifest of the Lance format,
/// behind four bytes of its length; then the place of the message, eight bytes of 0, the format's version
/// 0.2 as two numbers of two bytes, and the mark `LANC`. All numbers have their lowest byte first.
pub fn write_manifest(alloc: Global, manifest: &Manifest) -> Result<Vec<u8>, AllocError>
    ensures { IfOk result (λ bytes. bytes.items ≡ framed (manifest_text (plain_manifest manifest.now))) }
{
    let message = manifest_text(alloc, manifest)?;
    frame(alloc, message.as_slice())
}
