// A store that tells nothing of its objects.
ghost use Rattle.std.specs.Prelude.{◌≡◌, ◌+◌, ◌^◌, ◌≤◌, [], None, OnOk, OnErr};
ghost use Rattle.lan_store.specs.Objects.{nothing_told};

use crate::{Dir, GetFault, ListFault, MemStore, Name, Names, Put, PutFault, SizeFault, Store};
use lan_model::{Blob, Nums};
use std::alloc::Global;

/// A store over another that tells nothing, and answers `Exists` at the puts of these numbers.
#[derive(Drop)]
pub struct BlindStore {
    store: MemStore,
    exists: Nums,
    puts: u64,
    clashes: u64,
}

impl BlindStore {
    ghost use Rattle.lan_store.specs.InMemory.{memory_tells, blind_tells};

    pub fn new(store: MemStore, exists: Nums) -> BlindStore
        ensures tells { blind_tells result ≡ record (memory_tells store) { objects = None; failed = None; clashes = 0 } }
        ensures store { result.store ≡ store }
        ensures exists { (result.exists ≡ exists) × (result.puts ≡ 0) }
    {
        BlindStore {
            store,
            exists,
            puts: 0,
            clashes: 0,
        }
    }
}

impl Store for BlindStore {
    ghost use Rattle.lan_store.specs.Budget.{nothing, range, Counts};
    ghost use Rattle.lan_store.specs.Gets.{IsRangeOf};
    ghost use Rattle.lan_store.specs.InMemory.{memory_objects, blind_tells};
    ghost use Rattle.lan_store.specs.Looked.{Looked, Stored, size_failure, get_failure, list_failure, put_failure, put_clashed};
    ghost use Rattle.lan_store.specs.Objects.{object, IsListing};
    ghost use Rattle.lan_store.specs.Planned.{AsStated};
    ghost use Rattle.lan_store.specs.Puts.{Puts};
    ghost use Rattle.lan_store.specs.Sizes.{IsSizeOf};

    ghost tells = { blind_tells };

    ghost distinct = { λ _. nothing_told };

    fn size(&mut self, alloc: Global, name: &Name) -> Result<u64, SizeFault>
        ensures answer { IsSizeOf (object (memory_objects self.old.store) name.now) result }
        ensures looked { Looked (size_failure name.now result) nothing (blind_tells self.old) (blind_tells self.new) }
    {
        self.store.size(alloc, name)
    }

    fn get(
        &mut self,
        alloc: Global,
        name: &Name,
        at: u64,
        len: u64,
        into: &mut Blob,
    ) -> Result<(), GetFault>
        requires { at + len ≤ 2 ^ 63 }
        ensures answer { IsRangeOf (object (memory_objects self.old.store) name.now) at len into.old into.new result }
        ensures as_before { OnErr result (into.new ≡ into.old) }
        ensures looked { Looked (get_failure name.now result) (range len) (blind_tells self.old) (blind_tells self.new) }
        ensures counted { OnOk result (Counts len (blind_tells self.old) (blind_tells self.new)) }
    {
        self.store.get(alloc, name, at, len, into)
    }

    fn list(&mut self, alloc: Global, dir: Dir, into: &mut Names) -> Result<(), ListFault>
        requires { into.old ≡ [] }
        ensures answer { OnOk result (IsListing dir (memory_objects self.old.store) into.new) }
        ensures as_before { OnErr result (into.new ≡ into.old) }
        ensures looked { Looked (list_failure dir result) nothing (blind_tells self.old) (blind_tells self.new) }
    {
        self.store.list(alloc, dir, into)
    }

    fn put_if_absent(&mut self, alloc: Global, name: &Name, bytes: &[u8]) -> Result<Put, PutFault>
        ensures answer { Puts (record { name = name.now; bytes = bytes.now }) None None result }
        ensures stored { Stored (put_failure name.now result) nothing (put_clashed result) (blind_tells self.old) (blind_tells self.new) }
        ensures stated { AsStated (record { name = name.now; bytes = bytes.now }) result self.old self.new }
    {
        self.puts = self.puts.saturating_add(1);
        if self.exists.as_slice().contains(&self.puts) {
            self.clashes = self.clashes.saturating_add(1);
            return Ok(Put::Exists);
        }
        let answer = self.store.put_if_absent(alloc, name, bytes);
        if let Ok(Put::Exists) = answer {
            self.clashes = self.clashes.saturating_add(1);
        }
        answer
    }
}
