// Objects that are put one after another.
ghost use Rattle.lan_store.specs.Budget.{nothing};
ghost use Rattle.lan_store.specs.Looked.{Stored, put_all_failure, put_all_clashed};
ghost use Rattle.lan_store.specs.PutsAll.{PutsAll};

use crate::{Object, Put, PutFault, Store};
use std::alloc::Global;

/// Where a list of puts stopped: the place of the object, counted from 0.
#[derive(Clone, Copy, Debug)]
pub enum PutAllFault {
    /// The object's name was held.
    Exists(usize),
    /// The put failed, before its effect or after it.
    Failed(usize),
    Memory,
}

/// Puts the objects in their order, and stops at the first that isn't done.
pub fn put_all<S: Store>(
    alloc: Global,
    store: &mut S,
    objects: &[Object],
) -> Result<(), PutAllFault>
    ensures puts { PutsAll objects.now (S.tells store.old).objects (S.tells store.new).objects result }
    ensures stored { Stored (put_all_failure objects.now result) nothing (put_all_clashed result) (S.tells store.old) (S.tells store.new) }
{
    for i in 0..objects.len() {
        let object = &objects[i];
        match store.put_if_absent(alloc, &object.name, object.bytes.as_slice()) {
            Ok(Put::Done) => {}
            Ok(Put::Exists) => return Err(PutAllFault::Exists(i)),
            Err(PutFault::Failed) => return Err(PutAllFault::Failed(i)),
            Err(PutFault::Memory) => return Err(PutAllFault::Memory),
        }
    }
    Ok(())
}
