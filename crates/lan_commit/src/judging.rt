// The limits of numbers that a change reaches.
ghost use Rattle.std.specs.Prelude.{◌≡◌, ◌<◌, ◌^◌, ⊤, None, IfOk, IsErrOf};
ghost use Rattle.std.specs.Option.{ForSome};
ghost use Rattle.lan_manifest.specs.Manifests.{plain_manifest};
ghost use Rattle.lan_manifest.specs.Versions.{IsVersion};
ghost use Rattle.lan_store.specs.Budget.{nothing};
ghost use Rattle.lan_store.specs.Looked.{Looked};
ghost use Rattle.lan_store.specs.declared.name.Name.{Name};
ghost use Rattle.lan_commit.specs.Failures.{change_failure};
ghost use Rattle.lan_commit.specs.Limits.{fragment_limit, version_limit};
ghost use Rattle.lan_commit.specs.Prepares.{DrawsFile, JudgesLimit, StopsRightly};

use crate::committing::CommitFault;
use crate::limits::Which;
use crate::objects::folder_of;
use lan_fresh::{fresh_file, fresh_fragment};
use lan_manifest::Manifest;
use lan_store::{Dir, ListFault, Store};
use std::alloc::Global;

const MAX_FRAGMENTS: u64 = 65536;

const PAST_FRAGMENT_IDS: u64 = 1 << 32;

const PAST_NUMBERS: u64 = 1 << 53;

/// Judges the numbers that a manifest with one fragment more has.
pub fn judge_fragment(manifest: &Manifest) -> Result<(), CommitFault>
    requires { IsVersion manifest.now.version }
    ensures judges { JudgesLimit (fragment_limit (plain_manifest manifest.now) None) (λ _. ⊤) result }
    ensures unfailing { (name : Name) → IsErrOf result (CommitFault.Store name) → ⊥ }
{
    if manifest.fragments.len() >= MAX_FRAGMENTS {
        return Err(CommitFault::Limit(Which::Fragments, MAX_FRAGMENTS));
    }
    if fresh_fragment(manifest) >= PAST_FRAGMENT_IDS {
        return Err(CommitFault::Limit(Which::FragmentId, PAST_FRAGMENT_IDS));
    }
    judge_version(manifest)
}

/// Judges the number of the next version.
pub fn judge_version(manifest: &Manifest) -> Result<(), CommitFault>
    requires { IsVersion manifest.now.version }
    ensures judges { JudgesLimit (version_limit (plain_manifest manifest.now) None) (λ _. ⊤) result }
    ensures unfailing { (name : Name) → IsErrOf result (CommitFault.Store name) → ⊥ }
{
    if manifest.version + 1 >= PAST_NUMBERS {
        return Err(CommitFault::Limit(Which::Version, PAST_NUMBERS));
    }
    Ok(())
}

/// The number of a new data file.
pub fn draw_file<S: Store>(alloc: Global, store: &mut S) -> Result<u64, CommitFault>
    ensures looked { Looked (change_failure result) nothing (S.tells store.old) (S.tells store.new) }
    ensures draws { ForSome (S.tells store.old).objects (λ all. DrawsFile all result) }
    ensures below { IfOk result (λ number. number < 2 ^ 53) }
    ensures stops { StopsRightly result }
{
    match fresh_file(alloc, store) {
        Ok(number) if number < PAST_NUMBERS => Ok(number),
        Ok(_) => Err(CommitFault::Limit(Which::FileNumber, PAST_NUMBERS)),
        Err(ListFault::Failed) => Err(CommitFault::Store(folder_of(alloc, Dir::Data))),
        Err(ListFault::Memory) => Err(CommitFault::Memory),
    }
}
