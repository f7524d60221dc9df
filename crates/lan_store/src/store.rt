ghost use Rattle.std.specs.Prelude.{◌≡◌, ◌+◌, ◌^◌, ◌≤◌, [], Some, OnOk, OnErr};
ghost use Rattle.std.specs.Option.{ForSome};
ghost use Rattle.lan_store.specs.Budget.{nothing, range, Counts};
ghost use Rattle.lan_store.specs.Looked.{Looked, Stored, size_failure, get_failure, list_failure, put_failure, put_clashed};
ghost use Rattle.lan_store.specs.Objects.{object, AreDistinct, IsListing};
ghost use Rattle.lan_store.specs.Sizes.{IsSizeOf};
ghost use Rattle.lan_store.specs.Gets.{IsRangeOf};
ghost use Rattle.lan_store.specs.Puts.{Puts};
ghost use Rattle.lan_store.specs.Telling.{Telling};

use crate::{Dir, Name, Names};
use lan_model::Blob;
use std::alloc::Global;

/// Why `size` has no answer.
#[derive(Clone, Copy, Debug, PartialEq, Eq)]
pub enum SizeFault {
    Missing,
    Failed,
    Memory,
}

/// Why `get` appended nothing.
#[derive(Clone, Copy, Debug, PartialEq, Eq)]
pub enum GetFault {
    Missing,
    Short,
    Failed,
    Memory,
}

/// Why `list` gave no names.
#[derive(Clone, Copy, Debug, PartialEq, Eq)]
pub enum ListFault {
    Failed,
    Memory,
}

/// What became of a put: the object stands, or its name was held and nothing changed.
#[derive(Clone, Copy, Debug, PartialEq, Eq)]
pub enum Put {
    Done,
    Exists,
}

/// Why a put has no answer; after `Failed` the object may stand.
#[derive(Clone, Copy, Debug, PartialEq, Eq)]
pub enum PutFault {
    Failed,
    Memory,
}

/// A store of named objects that only gains whole ones.
///
/// A store that tells its objects goes on to tell them. Every call that answers `Failed` raises the
/// count of faults, and nothing but a put changes the objects.
pub trait Store {
    ghost tells: { Self → Telling };

    /// The length of an object in bytes. No range is counted.
    fn size(&mut self, alloc: Global, name: &Name) -> Result<u64, SizeFault>
        ensures answer { ForSome (tells self.old).objects (λ all. IsSizeOf (object all name.now) result) }
        ensures looked { Looked (size_failure name.now result) nothing (tells self.old) (tells self.new) };

    /// Appends the `len` bytes of an object that begin at `at`, counted from its front.
    fn get(
        &mut self,
        alloc: Global,
        name: &Name,
        at: u64,
        len: u64,
        into: &mut Blob,
    ) -> Result<(), GetFault>
        requires { at + len ≤ 2 ^ 63 }
        ensures answer { ForSome (tells self.old).objects (λ all. IsRangeOf (object all name.now) at len into.old into.new result) }
        ensures as_before { OnErr result (into.new ≡ into.old) }
        ensures looked { Looked (get_failure name.now result) (range len) (tells self.old) (tells self.new) }
        ensures counted { OnOk result (Counts len (tells self.old) (tells self.new)) };

    /// The names in a folder, in the order of their bytes.
    fn list(&mut self, alloc: Global, dir: Dir, into: &mut Names) -> Result<(), ListFault>
        requires { into.old ≡ [] }
        ensures answer { ForSome (tells self.old).objects (λ all. OnOk result (IsListing dir all into.new)) }
        ensures as_before { OnErr result (into.new ≡ into.old) }
        ensures looked { Looked (list_failure dir result) nothing (tells self.old) (tells self.new) };

    /// Puts an object where none of its name is held.
    fn put_if_absent(&mut self, alloc: Global, name: &Name, bytes: &[u8]) -> Result<Put, PutFault>
        ensures answer { Puts (record { name = name.now; bytes = bytes.now }) (tells self.old).objects (tells self.new).objects result }
        ensures stored { Stored (put_failure name.now result) nothing (put_clashed result) (tells self.old) (tells self.new) };

    /// No two objects have one name.
    ghost distinct: { (s : Self) → ForSome (tells s).objects AreDistinct };
}
