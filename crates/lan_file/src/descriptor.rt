// The FileDescriptor message of the Lance format.
ghost use Rattle.std.specs.Prelude.{◌≡◌, IfOk, IfErr};
ghost use Rattle.lan_model.specs.Plain.{plain_fields};
ghost use Rattle.lan_wire.specs.Messages.{FailsToRead};
ghost use Rattle.lan_wire.specs.Rules.{open_to};
ghost use Rattle.lan_file.specs.Descriptor.{StatesRows, descriptor_text};

use lan_bytes::View;
use lan_model::FieldList;
use lan_schema::write_fields;
use lan_wire::{Kind, Rule, Said, WireFault, Writer};
use std::alloc::{AllocError, Global};

// Its schema is read past: which columns there are a reader knows from elsewhere.
const FILE_DESCRIPTOR: [Rule; 2] = [Rule(1, Kind::Past), Rule(2, Kind::Number)];

/// How many rows a descriptor states.
pub(crate) fn read_length(message: View<'_>) -> Result<u64, WireFault>
    ensures ok { IfOk result (StatesRows message.entry) }
    ensures fault { IfErr result (FailsToRead (open_to FILE_DESCRIPTOR) message.entry) }
{
    let said = Said::read(message, &FILE_DESCRIPTOR)?;
    Ok(said.num(2))
}

/// The descriptor of so many rows of the fields.
pub(crate) fn write_descriptor(
    alloc: Global,
    fields: &FieldList,
    rows: u64,
) -> Result<Vec<u8>, AllocError>
    ensures { IfOk result (λ text. text.items ≡ descriptor_text (plain_fields fields.now) rows) }
{
    let mut schema = Writer::new(alloc);
    write_fields(alloc, fields, 1, &mut schema)?;
    let mut out = Writer::new(alloc);
    out.part(1, schema.finish().as_slice())?;
    out.num(2, rows)?;
    Ok(out.finish())
}
