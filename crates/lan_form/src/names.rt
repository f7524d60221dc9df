// Names that come twice.
ghost use Rattle.std.specs.Prelude.{◌≡◌, ◌⊎◌, [], IfOk, IfErr, OnOk, Ok, Err, map, option_map};
ghost use Rattle.lan_model.specs.PlainTable.{column_of};
ghost use Rattle.lan_model.specs.Table.{name_of};
ghost use Rattle.lan_form.specs.Names.{first_twice, distinct};

use crate::faults::FormFault;
use lan_model::{Field, Text};
use std::alloc::{AllocError, Global};
use std::collections::BTreeMap;

// The first name that an earlier field has.
fn first_twice(alloc: Global, fields: &[Field]) -> Result<Option<&str>, AllocError>
    ensures { IfOk result (λ name. option_map (λ s. s.now) name ≡ first_twice [] (map name_of (map column_of fields.now))) }
{
    let mut seen = BTreeMap::new(alloc);
    for field in fields {
        let name = field.name.as_str();
        if seen.insert(name, ())?.is_some() {
            return Ok(Some(name));
        }
    }
    Ok(None)
}

/// Refuses fields of which one has an earlier one's name.
pub(crate) fn distinct(alloc: Global, fields: &[Field]) -> Result<(), FormFault>
    ensures ok { OnOk result (distinct (map column_of fields.now) ≡ Ok (map column_of fields.now)) }
    ensures err { IfErr result (λ e. (e ≡ FormFault.Memory) ⊎ (distinct (map column_of fields.now) ≡ Err e)) }
{
    match first_twice(alloc, fields)? {
        Some(name) => Err(FormFault::SameName(Text::of(alloc, name)?)),
        None => Ok(()),
    }
}
