// What a change prints.
ghost use Rattle.std.specs.Prelude.{◌≡◌, ℕ, ◌≤◌, IsErrOf, IfOk, OnOk, OnErr, string_bytes};
ghost use Rattle.lan_store.specs.Causes.{HasCause};
ghost use Rattle.lan_store.specs.Streams.{and_then_bytes};
ghost use Rattle.lance_cli.specs.Reports.{version_text, PrintsReply};

use crate::fault::Fault;
use lan_store::{Sink, write_all};
use std::alloc::{AllocError, Global};

/// The line that names a version.
pub fn version_line(alloc: Global, version: u64) -> Result<String, AllocError>
    ensures { IfOk result (λ text. string_bytes text ≡ version_text version) }
{
    format!(in alloc; "version {version}\n")
}

/// Writes a reply. After a `WriteFault`, the one fault that comes, the sink has a front of it.
pub fn print_reply<O: Sink>(out: &mut O, text: &[u8]) -> Result<(), Fault>
    ensures prints { PrintsReply text.now (O.held out.old) (O.held out.new) result }
    ensures cause { HasCause (IsErrOf result Fault.WriteFault) (O.faults out.old) (O.faults out.new) }
{
    match write_all(out, text) {
        Ok(()) => Ok(()),
        Err(_) => Err(Fault::WriteFault),
    }
}
