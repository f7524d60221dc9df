// The input that a command reads.
ghost use Rattle.std.specs.Prelude.{IsErrOf};
ghost use Rattle.lan_store.specs.Causes.{HasCause};
ghost use Rattle.lance_cli.specs.Commands.{asked_as, reads_input};
ghost use Rattle.lance_cli.specs.Inputs.{ReadsInput, TakesText};

use crate::command::Asked;
use crate::fault::Fault;
use lan_store::{ReadAllFault, Source, read_all};
use std::alloc::Global;

// How many bytes an input has at most.
const MAX_INPUT: usize = 1 << 28;

/// The whole input of a command that reads it, and nothing of any other's.
pub fn take_text<I: Source>(
    alloc: Global,
    asked: &Asked<'_>,
    input: &mut I,
) -> Result<Vec<u8>, Fault>
    ensures takes { TakesText (reads_input (asked_as asked.now)) (I.left input.old) (I.left input.new) result }
    ensures cause { HasCause (IsErrOf result Fault.ReadFault) (I.faults input.old) (I.faults input.new) }
{
    if asked.reads_input() {
        read_input(alloc, input)
    } else {
        Ok(Vec::new(alloc))
    }
}

// The whole input.
fn read_input<I: Source>(alloc: Global, input: &mut I) -> Result<Vec<u8>, Fault>
    ensures reads { ReadsInput (I.left input.old) (I.left input.new) result }
    ensures cause { HasCause (IsErrOf result Fault.ReadFault) (I.faults input.old) (I.faults input.new) }
{
    match read_all(alloc, input, MAX_INPUT) {
        Ok(text) => Ok(text),
        Err(ReadAllFault::Failed) => Err(Fault::ReadFault),
        Err(ReadAllFault::TooLong) => Err(Fault::InputTooLong),
        Err(ReadAllFault::Memory) => Err(Fault::Memory),
    }
}
