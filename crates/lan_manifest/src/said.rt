// The messages of a manifest, read before their rules are looked at.
ghost use Rattle.std.specs.Prelude.{◌≡◌, ◌⊎◌, IfOk, IfErr};
ghost use Rattle.lan_wire.specs.Messages.{ReadsItems, FailsPlainly, ReadEach, FailsInOne};
ghost use Rattle.lan_wire.specs.Rules.{open_to, kind_at};
ghost use Rattle.lan_wire.specs.Values.{parts_under, Under};
ghost use Rattle.lan_wire.specs.declared.rules.Kind.TheVariants.{Message, Messages};
ghost use Rattle.lan_manifest.specs.declared.fault.ManifestFault.TheVariants.{Wire, Memory};
ghost use Rattle.lan_manifest.specs.ManifestMessages.{SaysFile, FailsFile, SaysDeletion, FailsDeletion, SaysDeletions, SaysRowIds, SaysFragment, FailsFragment, SaysManifest, FailsManifest};

use crate::fault::ManifestFault;
use crate::manifest::{DataFile, Deletion};
use lan_bytes::View;
use lan_model::{List, Text};
use lan_wire::{Kind, Rule, Said};
use std::alloc::Global;

// The Manifest, after the Lance format. Its fields are read by themselves, the writer's flags (10) are read
// past.
const MANIFEST: [Rule; 6] = [
    Rule(1, Kind::Messages),
    Rule(2, Kind::Messages),
    Rule(3, Kind::Number),
    Rule(9, Kind::Number),
    Rule(10, Kind::Past),
    Rule(11, Kind::Small),
];

const DATA_FRAGMENT: [Rule; 4] = [
    Rule(1, Kind::Number),
    Rule(2, Kind::Messages),
    Rule(3, Kind::Message),
    Rule(4, Kind::Number),
];

// The numbers under which a DataFragment has row ids.
const ROW_IDS: [Rule; 2] = [Rule(5, Kind::Refused), Rule(6, Kind::Refused)];

const DATA_FILE: [Rule; 5] = [
    Rule(1, Kind::Text),
    Rule(2, Kind::SignedNumbers),
    Rule(3, Kind::SignedNumbers),
    Rule(4, Kind::Small),
    Rule(5, Kind::Small),
];

const DELETION_FILE: [Rule; 4] = [
    Rule(1, Kind::Number),
    Rule(2, Kind::Number),
    Rule(3, Kind::Number),
    Rule(4, Kind::Number),
];

/// A data file as its message says it, with the version of its format.
#[derive(Drop)]
pub(crate) struct SaidFile {
    pub file: DataFile,
    pub major: u32,
    pub minor: u32,
}

/// A deletion file as its message says it, with the number of its type.
#[derive(Clone, Copy)]
pub(crate) struct SaidDeletion {
    pub kind: u64,
    pub deletion: Deletion,
}

/// A fragment as its message says it.
#[derive(Drop)]
pub(crate) struct SaidFragment {
    pub id: u64,
    pub files: List<SaidFile>,
    pub deletion: Option<SaidDeletion>,
    pub rows: u64,
    pub row_ids: bool,
}

/// A manifest as its message says it, but for its fields.
#[derive(Drop)]
pub(crate) struct SaidManifest {
    pub fragments: List<SaidFragment>,
    pub version: u64,
    pub flags: u64,
    pub greatest: Option<u32>,
}

// What a message says, of which all other numbers are read past.
fn read_open<'a, 'r>(view: View<'a>, rules: &'r [Rule]) -> Result<Said<'a, 'r>, ManifestFault>
    ensures rules { IfOk result (λ said. said.rules ≡ open_to rules.now) }
    ensures ok { IfOk result (λ said. ReadsItems (open_to rules.now) view.entry said.items) }
    ensures fault { IfErr result (FailsPlainly Wire (open_to rules.now) view.entry) }
{
    match Said::read(view, rules) {
        Ok(said) => Ok(said),
        Err(fault) => Err(ManifestFault::Wire(fault)),
    }
}

fn read_file(alloc: Global, message: View<'_>) -> Result<SaidFile, ManifestFault>
    ensures ok { IfOk result (SaysFile message.entry) }
    ensures fault { IfErr result (FailsFile message.entry) }
{
    let said = read_open(message, &DATA_FILE)?;
    let path = Text::of(alloc, said.text(1))?;
    let ids = said.signeds(alloc, 2)?;
    let columns = said.signeds(alloc, 3)?;
    Ok(SaidFile {
        file: DataFile { path, ids, columns },
        major: said.small(4),
        minor: said.small(5),
    })
}

fn read_files(alloc: Global, said: &Said<'_, '_>) -> Result<List<SaidFile>, ManifestFault>
    requires { kind_at said.now.rules 2 ≡ Messages }
    ensures ok { IfOk result (ReadEach SaysFile (parts_under 2 said.now.items)) }
    ensures fault { IfErr result (λ fault. (fault ≡ Memory) ⊎ FailsInOne FailsFile (parts_under 2 said.now.items) fault) }
{
    let mut parts = said.parts(2);
    let mut files = List::new(alloc);
    while let Some(part) = parts.next() {
        match read_file(alloc, part) {
            Ok(file) => files.push(file)?,
            Err(fault) => return Err(fault),
        }
    }
    Ok(files)
}

fn read_deletion(message: View<'_>) -> Result<SaidDeletion, ManifestFault>
    ensures ok { IfOk result (SaysDeletion message.entry) }
    ensures fault { IfErr result (FailsDeletion message.entry) }
{
    let said = read_open(message, &DELETION_FILE)?;
    Ok(SaidDeletion {
        kind: said.num(1),
        deletion: Deletion {
            read_version: said.num(2),
            id: said.num(3),
            rows: said.num(4),
        },
    })
}

fn read_deletions(said: &Said<'_, '_>) -> Result<Option<SaidDeletion>, ManifestFault>
    requires { kind_at said.now.rules 3 ≡ Message }
    ensures ok { IfOk result (SaysDeletions said.now.items) }
    ensures fault { IfErr result (Under 3 FailsDeletion said.now.items) }
{
    match said.part(3) {
        Some(part) => match read_deletion(part) {
            Ok(deletion) => Ok(Some(deletion)),
            Err(fault) => Err(fault),
        },
        None => Ok(None),
    }
}

// Whether the message of a fragment, which can be read, has row ids.
fn has_row_ids(message: View<'_>) -> bool
    ensures { SaysRowIds message.entry result }
{
    Said::read(message, &ROW_IDS).is_err()
}

fn read_fragment(alloc: Global, message: View<'_>) -> Result<SaidFragment, ManifestFault>
    ensures ok { IfOk result (SaysFragment message.entry) }
    ensures fault { IfErr result (FailsFragment message.entry) }
{
    let row_ids = has_row_ids(message.again());
    let said = read_open(message, &DATA_FRAGMENT)?;
    let files = match read_files(alloc, &said) {
        Ok(files) => files,
        Err(fault) => return Err(fault),
    };
    let deletion = match read_deletions(&said) {
        Ok(deletion) => deletion,
        Err(fault) => return Err(fault),
    };
    Ok(SaidFragment {
        id: said.num(1),
        files,
        deletion,
        rows: said.num(4),
        row_ids,
    })
}

/// What the message of a manifest says, but for its fields.
pub(crate) fn read_message(alloc: Global, message: View<'_>) -> Result<SaidManifest, ManifestFault>
    ensures ok { IfOk result (SaysManifest message.entry) }
    ensures fault { IfErr result (FailsManifest message.entry) }
{
    let said = read_open(message, &MANIFEST)?;
    let mut parts = said.parts(2);
    let mut fragments = List::new(alloc);
    while let Some(part) = parts.next() {
        match read_fragment(alloc, part) {
            Ok(fragment) => fragments.push(fragment)?,
            Err(fault) => return Err(fault),
        }
    }
    Ok(SaidManifest {
        fragments,
        version: said.num(3),
        flags: said.num(9),
        greatest: said.maybe_small(11),
    })
}
