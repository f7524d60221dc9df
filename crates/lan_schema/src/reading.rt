ghost use Rattle.std.specs.Prelude.{MatchResult};
ghost use Rattle.lan_schema.specs.FieldMessage.{flat_of, SaysField, FailsField};

use crate::entry::Entry;
use lan_bytes::View;
use lan_wire::{Kind, Rule, Said, WireFault};

/// The Field of the Lance format. Its number 1 is the kind, a Field.Type, which its logical type tells too.
const FIELD: [Rule; 6] = [
    Rule(1, Kind::Past),
    Rule(2, Kind::Text),
    Rule(3, Kind::Signed),
    Rule(4, Kind::Signed),
    Rule(5, Kind::Text),
    Rule(6, Kind::Flag),
];

/// What the message of one field says, exactly where it can be read. Of a number that comes twice the
/// last holds; unknown numbers and the kind are read past.
pub fn read_entry<'a>(view: View<'a>) -> Result<Entry<'a>, WireFault>
    ensures { MatchResult result (λ entry. SaysField view.entry (flat_of entry)) (λ fault. FailsField view.entry fault) }
{
    let said = Said::read(view, &FIELD)?;
    Ok(Entry {
        name: said.text(2),
        id: said.signed(3),
        parent: said.signed(4),
        logical: said.text(5),
        nullable: said.flag(6),
    })
}
