// A store in memory that never fails.
ghost use Rattle.std.specs.Prelude.{◌≡◌, ◌<◌, [], length, slice_get, Some, None, option_map};
ghost use Rattle.lan_store.specs.Objects.{told_distinct};

use crate::shelf::Shelf;
use crate::{Dir, GetFault, ListFault, Name, Names, Put, PutFault, SizeFault, Store};
use lan_model::Blob;
use std::alloc::Global;

/// A store in memory that never fails.
#[derive(Drop)]
pub struct CalmStore {
    shelf: Shelf,
}

impl CalmStore {
    ghost use Rattle.lan_store.specs.InMemory.{calm_objects, calm_tells};
    ghost use Rattle.lan_store.specs.Telling.{at_first};

    pub fn new(alloc: Global) -> CalmStore
        ensures { calm_tells result ≡ at_first (Some []) }
    {
        CalmStore {
            shelf: Shelf::new(alloc),
        }
    }

    pub fn count(&self) -> u64
        ensures { result ≡ length (calm_objects self.now) }
    {
        self.shelf.objects.len()
    }

    /// The name of an object, counted from 0 in the order of the puts.
    pub fn name(&self, i: u64) -> &Name
        requires { i < length (calm_objects self.now) }
        ensures { option_map (λ o. o.name) (slice_get (calm_objects self.now) i) ≡ Some result.now }
    {
        &self.shelf.objects.at(i).name
    }

    /// The bytes of an object, counted from 0 in the order of the puts.
    pub fn bytes(&self, i: u64) -> &[u8]
        requires { i < length (calm_objects self.now) }
        ensures { option_map (λ o. o.bytes) (slice_get (calm_objects self.now) i) ≡ Some result.now }
    {
        self.shelf.objects.at(i).bytes.as_slice()
    }
}

impl Store for CalmStore {
    ghost use Rattle.lan_store.specs.InMemory.{calm_objects, calm_tells};

    ghost tells = { calm_tells };

    ghost distinct = { λ s. told_distinct s.shelf.objects s.shelf.distinct };

    fn size(&mut self, _alloc: Global, name: &Name) -> Result<u64, SizeFault> {
        self.shelf.size(name)
    }

    fn get(
        &mut self,
        _alloc: Global,
        name: &Name,
        at: u64,
        len: u64,
        into: &mut Blob,
    ) -> Result<(), GetFault> {
        self.shelf.get(name, at, len, into)
    }

    fn list(&mut self, alloc: Global, dir: Dir, into: &mut Names) -> Result<(), ListFault> {
        match self.shelf.list(alloc, dir) {
            Ok(names) => {
                *into = names;
                Ok(())
            }
            Err(_) => Err(ListFault::Memory),
        }
    }

    fn put_if_absent(&mut self, alloc: Global, name: &Name, bytes: &[u8]) -> Result<Put, PutFault> {
        if self.shelf.holds(name) {
            self.shelf.clash();
            return Ok(Put::Exists);
        }
        match self.shelf.add(alloc, name, bytes) {
            Ok(()) => Ok(Put::Done),
            Err(_) => Err(PutFault::Memory),
        }
    }
}
