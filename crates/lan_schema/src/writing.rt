ghost use Rattle.std.specs.Prelude.{◌≡◌, ◌++◌, OnOk};
ghost use Rattle.lan_schema.specs.FieldMessage.{flat_of, field_text};

use crate::entry::Entry;
use lan_wire::Writer;
use std::alloc::AllocError;

/// Writes the field's message; `kind` is its number 1, the Lance format's Field.Type. After a want of
/// memory some of it may stand.
pub fn write_entry(kind: u64, entry: &Entry<'_>, out: &mut Writer) -> Result<(), AllocError>
    ensures { OnOk result (out.new ≡ out.old ++ field_text kind (flat_of entry.now)) }
{
    out.num(1, kind)?;
    out.text(2, entry.name)?;
    out.signed(3, entry.id)?;
    out.signed(4, entry.parent)?;
    out.text(5, entry.logical)?;
    out.num(6, u64::from(entry.nullable))
}
