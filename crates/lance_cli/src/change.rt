// A change: its objects are planned in memory, then put, and then its version is printed.
ghost use Rattle.std.specs.Prelude.{IsErrOf};
ghost use Rattle.lan_store.specs.Budget.{nothing};
ghost use Rattle.lan_store.specs.Causes.{HasCause};
ghost use Rattle.lan_store.specs.Looked.{Stored};
ghost use Rattle.lance_cli.specs.Failures.{failure_of, clashed};
ghost use Rattle.lance_cli.specs.Plans.{Applies};

use crate::fault::Fault;
use crate::reply::{print_reply, version_line};
use lan_commit::put_change;
use lan_store::laws::puts_follow_looks;
use lan_store::{Object, Sink, Store};
use std::alloc::Global;

/// The objects that an accepted change puts, its manifest last, and the version that this makes.
#[derive(Drop)]
pub struct Planned {
    pub version: u64,
    pub objects: Vec<Object>,
}

/// Puts the objects of a change in their order, and prints its version.
pub fn apply<S: Store, O: Sink>(
    alloc: Global,
    planned: Planned,
    store: &mut S,
    out: &mut O,
) -> Result<(), Fault>
    ensures applies { Applies planned.objects.items planned.version (record { before = (S.tells store.old).objects; now = (S.tells store.new).objects; held = O.held out.old; holds = O.held out.new }) result }
    ensures stored { Stored (failure_of result) nothing (clashed result) (S.tells store.old) (S.tells store.new) }
    ensures write_cause { HasCause (IsErrOf result Fault.WriteFault) (O.faults out.old) (O.faults out.new) }
{
    puts_follow_looks();
    // The reply is made before anything is put, so that want of memory can't follow the effect.
    let reply = version_line(alloc, planned.version)?;
    put_change(alloc, store, planned.objects)?;
    print_reply(out, reply.as_bytes())
}
