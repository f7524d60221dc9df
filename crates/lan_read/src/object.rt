// Whole objects.
ghost use Rattle.std.specs.Option.{ForSome};
ghost use Rattle.lan_store.specs.Objects.{object};
ghost use Rattle.lan_read.specs.Opening.{ObjectIs};
ghost use Rattle.lan_store.specs.Budget.{ranges};
ghost use Rattle.lan_store.specs.Looked.{Looked};
ghost use Rattle.lan_read.specs.Failures.{object_failure};

use lan_model::Blob;
use lan_store::laws::looks_add_up;
use lan_store::{GetFault, Name, SizeFault, Store};
use std::alloc::Global;

// How many bytes an object has at most.
const MAX_OBJECT: u64 = 1 << 30;

/// Why an object isn't read whole.
#[derive(Clone, Copy, Debug)]
pub enum ObjectFault {
    Missing,
    /// It has so many bytes.
    Size(u64),
    Short,
    Failed,
    Memory,
}

/// The bytes of a whole object.
pub fn read_object<S: Store>(alloc: Global, store: &mut S, name: &Name) -> Result<Blob, ObjectFault>
    ensures looked { Looked (object_failure name.now result) (ranges 1) (S.tells store.old) (S.tells store.new) }
    ensures answer { ForSome (S.tells store.old).objects (λ all. ObjectIs (object all name.now) result) }
{
    looks_add_up();
    let size = match store.size(alloc, name) {
        Ok(size) => size,
        Err(SizeFault::Missing) => return Err(ObjectFault::Missing),
        Err(SizeFault::Failed) => return Err(ObjectFault::Failed),
        Err(SizeFault::Memory) => return Err(ObjectFault::Memory),
    };
    if size > MAX_OBJECT {
        return Err(ObjectFault::Size(size));
    }
    let mut bytes = Blob::new(alloc);
    match store.get(alloc, name, 0, size, &mut bytes) {
        Ok(()) => Ok(bytes),
        Err(GetFault::Missing) => Err(ObjectFault::Missing),
        Err(GetFault::Short) => Err(ObjectFault::Short),
        Err(GetFault::Failed) => Err(ObjectFault::Failed),
        Err(GetFault::Memory) => Err(ObjectFault::Memory),
    }
}
