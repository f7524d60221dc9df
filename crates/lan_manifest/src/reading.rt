// Manifests from their objects.
ghost use Rattle.std.specs.Prelude.{◌≡◌, ◌^◌, ◌<◌, map, IfOk, IfErr};
ghost use Rattle.lan_manifest.specs.FragmentRules.{HaveIds};
ghost use Rattle.lan_manifest.specs.ManifestObjects.{fragment_of, StandsForManifest, RefusesMessage, IsManifestObject, RefusesManifest};
ghost use Rattle.lan_manifest.specs.Manifests.{plain_manifest};

use crate::fault::ManifestFault;
use crate::frame::message_in;
use crate::keeping::judge;
use crate::manifest::{DataFiles, Fragment, Fragments, Manifest};
use crate::said::{SaidFile, SaidFragment, SaidManifest, read_message};
use crate::schema::Schema;
use lan_bytes::View;
use lan_model::List;
use lan_schema::{SchemaFault, read_fields};
use std::alloc::{AllocError, Global};

fn files_of(alloc: Global, said: List<SaidFile>) -> Result<DataFiles, AllocError>
    ensures { IfOk result (λ files. files ≡ map (λ s. s.file) said) }
{
    let mut files = DataFiles::new(alloc);
    for one in said.into_vec() {
        let SaidFile {
            file,
            major: _,
            minor: _,
        } = one;
        files.push(file)?;
    }
    Ok(files)
}

fn fragment_of(alloc: Global, said: SaidFragment) -> Result<Fragment, AllocError>
    requires { said.id < 2 ^ 32 }
    ensures { IfOk result (λ fragment. fragment ≡ fragment_of said) }
{
    let SaidFragment {
        id,
        files,
        deletion,
        rows,
        row_ids: _,
    } = said;
    let files = files_of(alloc, files)?;
    Ok(Fragment {
        id: id as u32,
        files,
        deletion: deletion.map(|said| said.deletion),
        rows,
    })
}

fn fragments_of(alloc: Global, said: List<SaidFragment>) -> Result<Fragments, AllocError>
    requires { HaveIds said }
    ensures { IfOk result (λ fragments. fragments ≡ map fragment_of said) }
{
    let mut fragments = Fragments::new(alloc);
    for one in said.into_vec() {
        fragments.push(fragment_of(alloc, one)?)?;
    }
    Ok(fragments)
}

// The manifest of a version in its message.
fn read_framed(alloc: Global, message: View<'_>, version: u64) -> Result<Manifest, ManifestFault>
    ensures ok { IfOk result (λ m. StandsForManifest message.entry version (plain_manifest m)) }
    ensures fault { IfErr result (RefusesMessage message.entry version) }
{
    let said = match read_message(alloc, message.again()) {
        Ok(said) => said,
        Err(fault) => return Err(fault),
    };
    let fields = match read_fields(alloc, message, 1) {
        Ok(fields) => fields,
        Err(SchemaFault::Memory) => return Err(ManifestFault::Memory),
        Err(fault) => return Err(ManifestFault::Schema(fault)),
    };
    let schema = Schema::of(alloc, &fields)?;
    match judge(alloc, version, &schema, &said) {
        Ok(()) => {}
        Err(fault) => return Err(fault),
    }
    let SaidManifest {
        fragments,
        version: _,
        flags: _,
        greatest,
    } = said;
    Ok(Manifest {
        fields,
        fragments: fragments_of(alloc, fragments)?,
        version,
        greatest,
    })
}

/// The manifest of a version that an object stands for. The object ends in the place of a message, the
/// format's version, which is read past, and the mark `LANC`; the message, after the Manifest of the Lance
/// format, stands there behind its length. Bytes around it are free, as are the order of its items, numbers
/// that aren't known, and lists that aren't packed.
pub fn read_manifest(alloc: Global, view: View<'_>, version: u64) -> Result<Manifest, ManifestFault>
    ensures ok { IfOk result (λ m. IsManifestObject view.entry version (plain_manifest m)) }
    ensures fault { IfErr result (RefusesManifest view.entry version) }
{
    let message = match message_in(&view) {
        Ok(message) => message,
        Err(fault) => return Err(fault),
    };
    read_framed(alloc, message, version)
}
