// An old version again, as the next one.
ghost use Rattle.std.specs.Prelude.{ℕ, List, Some, Ok, Err};
ghost use Rattle.std.specs.Option.{ForSome};
ghost use Rattle.lan_read.specs.Opening.{Opens};
ghost use Rattle.lan_store.specs.Budget.{ranges};
ghost use Rattle.lan_store.specs.Looked.{Looked};
ghost use Rattle.lance_cli.specs.Commands.{restore};
ghost use Rattle.lance_cli.specs.Failures.{failure_of};
ghost use Rattle.lance_cli.specs.Plans.{Plans};

use crate::change::Planned;
use crate::fault::Fault;
use crate::opening::open_version;
use lan_commit::prepare_restore;
use lan_manifest::Manifest;
use lan_read::{ReadFault, Reason};
use lan_store::laws::looks_add_up;
use lan_store::{Name, Store};
use std::alloc::Global;

/// Plans to make the next version of the fields and the fragments of an old one. Nothing is put.
///
/// A version that isn't listed is refused before anything is asked, and the newest version's manifest is
/// judged before the old one's.
pub fn plan_restore<S: Store>(alloc: Global, version: u64, store: &mut S) -> Result<Planned, Fault>
    ensures plans { (line : ℕ) (lines : List (ℕ × List ℕ)) → Plans (S.tells store.old).objects (record { asked = restore version; line = line; lines = lines }) result }
    ensures looked { Looked (failure_of result) (ranges 2) (S.tells store.old) (S.tells store.new) }
{
    looks_add_up();
    match open_version(alloc, store, Some(version)) {
        Ok(old) => plan_as(alloc, old.into_manifest(), store),
        Err(
            ReadFault::Outside {
                object,
                reason,
                place,
            },
        ) => refuse_behind_newest(alloc, object, reason, place, store),
        Err(fault) => Err(fault.into()),
    }
}

// Plans to make the next version of what the manifest of an old one tells.
fn plan_as<S: Store>(alloc: Global, old: Manifest, store: &mut S) -> Result<Planned, Fault>
    ensures plans { (version line : ℕ) (lines : List (ℕ × List ℕ)) → ForSome (S.tells store.old).objects (λ all. Opens all (Some version) (Ok old)) → Plans (S.tells store.old).objects (record { asked = restore version; line = line; lines = lines }) result }
    ensures looked { Looked (failure_of result) (ranges 1) (S.tells store.old) (S.tells store.new) }
{
    let newest = open_version(alloc, store, None)?.into_manifest();
    let version = newest.version + 1;
    let objects = prepare_restore(alloc, newest, old)?;
    Ok(Planned { version, objects })
}

// Why no version is made of an old one that isn't read: the newest version's manifest is judged first.
fn refuse_behind_newest<S: Store>(
    alloc: Global,
    object: Name,
    reason: Reason,
    place: u64,
    store: &mut S,
) -> Result<Planned, Fault>
    ensures plans { (version line : ℕ) (lines : List (ℕ × List ℕ)) → ForSome (S.tells store.old).objects (λ all. Opens all (Some version) (Err (ReadFault.Outside object reason place))) → Plans (S.tells store.old).objects (record { asked = restore version; line = line; lines = lines }) result }
    ensures looked { Looked (failure_of result) (ranges 1) (S.tells store.old) (S.tells store.new) }
{
    let _newest = open_version(alloc, store, None)?;
    Err(Fault::Outside(object, reason, place))
}
