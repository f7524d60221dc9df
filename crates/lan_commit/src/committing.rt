// The puts of a change.
ghost use Rattle.std.specs.Prelude.{◌≡◌, ◌<◌, length, slice_get, option_map, Some};
ghost use Rattle.lan_store.specs.Budget.{nothing};
ghost use Rattle.lan_store.specs.Looked.{Stored};
ghost use Rattle.lan_commit.specs.Commits.{Commits};
ghost use Rattle.lan_commit.specs.Failures.{change_failure, change_clashed};
ghost use Rattle.lan_commit.specs.declared.committing.CommitFault.TheVariants.{Memory};

use crate::limits::Which;
use lan_store::{Name, Object, PutAllFault, Store, put_all};
use std::alloc::{AllocError, Global};

/// Why a change isn't made.
#[derive(Debug, Drop)]
pub enum CommitFault {
    /// A version is listed; this is the newest.
    AlreadyThere(u64),
    /// A limit, and the number at which it lies.
    Limit(Which, u64),
    /// An object of this name was held, though it wasn't listed.
    Raced(Name),
    /// The store failed at this name.
    Store(Name),
    Memory,
}

impl From<AllocError> for CommitFault {
    ghost from_gives = { λ _ e. e ≡ Memory };

    fn from(_: AllocError) -> Self {
        CommitFault::Memory
    }
}

/// Puts the objects of a change in their order, its manifest last.
pub fn put_change<S: Store>(
    alloc: Global,
    store: &mut S,
    objects: Vec<Object>,
) -> Result<(), CommitFault>
    ensures commits { Commits objects.items (S.tells store.old).objects (S.tells store.new).objects result }
    ensures stored { Stored (change_failure result) nothing (change_clashed result) (S.tells store.old) (S.tells store.new) }
{
    match put_all(alloc, store, objects.as_slice()) {
        Ok(()) => Ok(()),
        Err(PutAllFault::Exists(place)) => Err(CommitFault::Raced(name_at(objects, place))),
        Err(PutAllFault::Failed(place)) => Err(CommitFault::Store(name_at(objects, place))),
        Err(PutAllFault::Memory) => Err(CommitFault::Memory),
    }
}

fn name_at(mut objects: Vec<Object>, place: usize) -> Name
    requires { place < length objects.items }
    ensures { option_map (λ o. o.name) (slice_get objects.items place) ≡ Some result }
{
    let Object { name, bytes: _ } = objects.remove(place);
    name
}
