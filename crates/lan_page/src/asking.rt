// One range of an object.
ghost use Rattle.std.specs.Prelude.{◌≡◌, ◌+◌, ◌^◌, ◌≤◌, length, OnOk};
ghost use Rattle.std.specs.Option.{ForSome};
ghost use Rattle.lan_store.specs.Budget.{range};
ghost use Rattle.lan_store.specs.Looked.{Looked};
ghost use Rattle.lan_store.specs.Objects.{object};
ghost use Rattle.lan_page.specs.Asking.{page_failure, IsPartOf};

use crate::fault::{PageFault, PageReason};
use lan_model::{Blob, Range};
use lan_store::{GetFault, Name, Store};
use std::alloc::Global;

/// Appends the bytes of a range; of an empty one nothing is asked. A store that gives another number of bytes is short.
pub fn fetch<S: Store>(
    alloc: Global,
    store: &mut S,
    name: &Name,
    part: Range,
    into: &mut Blob,
) -> Result<(), PageFault>
    requires { part.at + part.len ≤ 2 ^ 63 }
    ensures looked { Looked (page_failure name.now result) (range part.len) (S.tells store.old) (S.tells store.new) }
    ensures answer { ForSome (S.tells store.old).objects (λ all. IsPartOf (object all name.now) part.at part.len into.old into.new result) }
    ensures length { OnOk result (length into.new ≡ length into.old + part.len) }
{
    if part.len == 0 {
        return Ok(());
    }
    let before = into.len();
    match store.get(alloc, name, part.at, part.len, into) {
        Ok(()) => {
            if into.len() < before || into.len() - before != part.len {
                return Err(PageFault::Outside(PageReason::Short, part.at));
            }
            Ok(())
        }
        Err(GetFault::Missing) => Err(PageFault::Outside(PageReason::Missing, 0)),
        Err(GetFault::Short) => Err(PageFault::Outside(PageReason::Short, part.at)),
        Err(GetFault::Failed) => Err(PageFault::Store),
        Err(GetFault::Memory) => Err(PageFault::Memory),
    }
}
