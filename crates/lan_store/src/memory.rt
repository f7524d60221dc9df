// Stores in memory.
ghost use Rattle.std.specs.Prelude.{◌≡◌, ◌+◌, ◌^◌, ◌<◌, ◌≤◌, ◌⊎◌, ◌==◌, ◌∷◌, ◌++◌, [], length, take, find, slice_get, Some, None, option_map, OnOk, OnErr};
ghost use Rattle.lan_store.specs.Causes.{Rose};
ghost use Rattle.lan_store.specs.Objects.{told_distinct};

use crate::shelf::Shelf;
use crate::{Dir, GetFault, ListFault, Name, Names, Put, PutFault, SizeFault, Store};
use lan_model::{Blob, List, Text};
use std::alloc::{AllocError, Global};

/// The call of this number, counted from 1 over all calls, fails: a put before its effect or after it.
#[derive(Clone, Copy, Debug)]
pub struct Plan {
    pub call: u64,
    pub after: bool,
}

pub type Plans = List<Plan>;

// The plan of a call.
fn plan_of(plans: &[Plan], call: u64) -> Option<Plan>
    ensures { result ≡ find (λ p. p.call == call) plans.now }
{
    plans.iter().copied().find(|p| p.call == call)
}

/// A store in memory that fails at planned calls.
#[derive(Drop)]
pub struct MemStore {
    shelf: Shelf,
    plans: Plans,
    calls: u64,
    faults: u64,
    failed: Option<Name>,
}

impl MemStore {
    ghost use Rattle.lan_store.specs.InMemory.{memory_objects, memory_tells};
    ghost use Rattle.lan_store.specs.Calls.{next_call};
    ghost use Rattle.lan_store.specs.Objects.{object};
    ghost use Rattle.lan_store.specs.Planned.{next_plan, LeavesPut};
    ghost use Rattle.lan_store.specs.Shelf.{SameCounts};
    ghost use Rattle.lan_store.specs.Telling.{at_first};

    pub fn new(alloc: Global, plans: Plans) -> MemStore
        ensures tells { memory_tells result ≡ at_first (Some []) }
        ensures plans { (result.plans ≡ plans) × (result.calls ≡ 0) }
    {
        MemStore {
            shelf: Shelf::new(alloc),
            plans,
            calls: 0,
            faults: 0,
            failed: None,
        }
    }

    pub fn count(&self) -> u64
        ensures { result ≡ length (memory_objects self.now) }
    {
        self.shelf.objects.len()
    }

    /// The name of an object, counted from 0 in the order of the puts.
    pub fn name(&self, i: u64) -> &Name
        requires { i < length (memory_objects self.now) }
        ensures { option_map (λ o. o.name) (slice_get (memory_objects self.now) i) ≡ Some result.now }
    {
        &self.shelf.objects.at(i).name
    }

    /// The bytes of an object, counted from 0 in the order of the puts.
    pub fn bytes(&self, i: u64) -> &[u8]
        requires { i < length (memory_objects self.now) }
        ensures { option_map (λ o. o.bytes) (slice_get (memory_objects self.now) i) ≡ Some result.now }
    {
        self.shelf.objects.at(i).bytes.as_slice()
    }

    /// A store of the first `len` objects, with no plan.
    pub fn cut(self, len: u64) -> MemStore
        ensures tells { memory_tells result ≡ record (memory_tells self) { objects = Some (take len (memory_objects self)) } }
        ensures plans { result.plans ≡ [] }
    {
        let MemStore {
            mut shelf,
            mut plans,
            calls,
            faults,
            failed,
        } = self;
        shelf.cut(len);
        plans.truncate(0);
        MemStore {
            shelf,
            plans,
            calls,
            faults,
            failed,
        }
    }

    // Counts a call, and gives its plan.
    fn next_call(&mut self) -> Option<Plan>
        ensures plan { result ≡ next_plan self.old }
        ensures counted { self.new ≡ record self.old { calls = next_call self.old.calls } }
    {
        self.calls = self.calls.saturating_add(1);
        plan_of(self.plans.as_slice(), self.calls)
    }

    // What a put that is to fail leaves.
    fn leave(
        &mut self,
        alloc: Global,
        after: bool,
        name: &Name,
        bytes: &[u8],
    ) -> Result<(), AllocError>
        ensures leaves { OnOk result (LeavesPut after name.now (memory_objects self.old) (memory_objects self.new)) }
        ensures either { OnOk result ((memory_objects self.new ≡ memory_objects self.old) ⊎ ((object (memory_objects self.old) name.now ≡ None) × (memory_objects self.new ≡ memory_objects self.old ++ record { name = name.now; bytes = bytes.now } ∷ []))) }
        ensures err { OnErr result (memory_objects self.new ≡ memory_objects self.old) }
        ensures rest { self.new ≡ record self.old { shelf = self.new.shelf } }
        ensures counts { SameCounts self.old.shelf self.new.shelf }
    {
        if !after {
            return Ok(());
        }
        if self.shelf.holds(name) {
            return Ok(());
        }
        self.shelf.add(alloc, name, bytes)
    }

    fn fail(&mut self, name: Name)
        ensures kept { (self.new.shelf ≡ self.old.shelf) × (self.new.plans ≡ self.old.plans) × (self.new.calls ≡ self.old.calls) }
        ensures failed { self.new.failed ≡ Some name }
        ensures faults { (self.old.faults ≤ self.new.faults) × Rose self.old.faults self.new.faults }
    {
        self.faults = self.faults.saturating_add(1);
        self.failed = Some(name);
    }
}

impl Store for MemStore {
    ghost use Rattle.lan_store.specs.InMemory.{memory_objects, memory_tells};
    ghost use Rattle.lan_store.specs.Budget.{nothing, range, Counts};
    ghost use Rattle.lan_store.specs.Gets.{IsRangeOf};
    ghost use Rattle.lan_store.specs.Looked.{Looked, Stored, size_failure, get_failure, list_failure, put_failure, put_clashed};
    ghost use Rattle.lan_store.specs.Objects.{object, IsListing};
    ghost use Rattle.lan_store.specs.Planned.{next_plan, AsPlanned, LeavesPlanned};
    ghost use Rattle.lan_store.specs.Puts.{Puts};
    ghost use Rattle.lan_store.specs.Sizes.{IsSizeOf};

    ghost tells = { memory_tells };

    ghost distinct = { λ s. told_distinct s.shelf.objects s.shelf.distinct };

    fn size(&mut self, alloc: Global, name: &Name) -> Result<u64, SizeFault>
        ensures answer { IsSizeOf (object (memory_objects self.old) name.now) result }
        ensures looked { Looked (size_failure name.now result) nothing (memory_tells self.old) (memory_tells self.new) }
        ensures planned { AsPlanned (result ≡ Err SizeFault.Failed) (result ≡ Err SizeFault.Memory) self.old self.new }
    {
        if self.next_call().is_some() {
            let Ok(name) = name.copy(alloc) else {
                return Err(SizeFault::Memory);
            };
            self.fail(name);
            return Err(SizeFault::Failed);
        }
        self.shelf.size(name)
    }

    fn get(
        &mut self,
        alloc: Global,
        name: &Name,
        at: u64,
        len: u64,
        into: &mut Blob,
    ) -> Result<(), GetFault>
        requires { at + len ≤ 2 ^ 63 }
        ensures answer { IsRangeOf (object (memory_objects self.old) name.now) at len into.old into.new result }
        ensures as_before { OnErr result (into.new ≡ into.old) }
        ensures looked { Looked (get_failure name.now result) (range len) (memory_tells self.old) (memory_tells self.new) }
        ensures counted { OnOk result (Counts len (memory_tells self.old) (memory_tells self.new)) }
        ensures planned { AsPlanned (result ≡ Err GetFault.Failed) (result ≡ Err GetFault.Memory) self.old self.new }
    {
        if self.next_call().is_some() {
            let Ok(name) = name.copy(alloc) else {
                return Err(GetFault::Memory);
            };
            self.fail(name);
            return Err(GetFault::Failed);
        }
        self.shelf.get(name, at, len, into)
    }

    fn list(&mut self, alloc: Global, dir: Dir, into: &mut Names) -> Result<(), ListFault>
        requires { into.old ≡ [] }
        ensures answer { OnOk result (IsListing dir (memory_objects self.old) into.new) }
        ensures as_before { OnErr result (into.new ≡ into.old) }
        ensures looked { Looked (list_failure dir result) nothing (memory_tells self.old) (memory_tells self.new) }
        ensures planned { AsPlanned (result ≡ Err ListFault.Failed) (result ≡ Err ListFault.Memory) self.old self.new }
    {
        if self.next_call().is_some() {
            let rest = Text::new(alloc);
            self.fail(Name { dir, rest });
            return Err(ListFault::Failed);
        }
        match self.shelf.list(alloc, dir) {
            Ok(names) => {
                *into = names;
                Ok(())
            }
            Err(_) => Err(ListFault::Memory),
        }
    }

    fn put_if_absent(&mut self, alloc: Global, name: &Name, bytes: &[u8]) -> Result<Put, PutFault>
        ensures answer { Puts (record { name = name.now; bytes = bytes.now }) (Some (memory_objects self.old)) (Some (memory_objects self.new)) result }
        ensures stored { Stored (put_failure name.now result) nothing (put_clashed result) (memory_tells self.old) (memory_tells self.new) }
        ensures planned { AsPlanned (result ≡ Err PutFault.Failed) (result ≡ Err PutFault.Memory) self.old self.new }
        ensures leaves { result ≡ Err PutFault.Failed → LeavesPlanned (next_plan self.old) name.now (memory_objects self.old) (memory_objects self.new) }
    {
        match self.next_call() {
            None => {
                if self.shelf.holds(name) {
                    self.shelf.clash();
                    return Ok(Put::Exists);
                }
                match self.shelf.add(alloc, name, bytes) {
                    Ok(()) => Ok(Put::Done),
                    Err(_) => Err(PutFault::Memory),
                }
            }
            Some(plan) => {
                let Ok(failed) = name.copy(alloc) else {
                    return Err(PutFault::Memory);
                };
                if self.leave(alloc, plan.after, name, bytes).is_err() {
                    return Err(PutFault::Memory);
                }
                self.fail(failed);
                Err(PutFault::Failed)
            }
        }
    }
}
