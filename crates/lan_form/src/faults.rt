use lan_model::Text;
use std::alloc::{AllocError, AllocFailed};

/// Why a text is no schema.
#[derive(Debug, Drop)]
pub enum FormFault {
    /// It is no JSON, or nests over 127 deep.
    Json,
    /// It has another shape than that of fields: another kind of value, a key that is missing, or one too many.
    Form,
    /// A field's name is empty.
    NoName,
    /// A field has the name of an earlier one beside it.
    SameName(Text),
    UnknownType(Text),
    /// A list of fields is empty.
    NoFields,
    /// A leaf has over 16 layers.
    TooDeep,
    /// There are over 1,024 leaves.
    TooManyLeaves,
    Memory,
}

impl From<AllocError> for FormFault {
    ghost use Rattle.std.specs.Prelude.{◌≡◌};
    ghost use Rattle.lan_form.specs.declared.faults.FormFault.TheVariants.{Memory};

    ghost from_gives = { λ _ e. e ≡ Memory };

    fn from(_e: AllocError) -> FormFault {
        FormFault::Memory
    }
}

impl<T: Drop> From<AllocFailed<T>> for FormFault {
    ghost use Rattle.std.specs.Prelude.{◌≡◌};
    ghost use Rattle.lan_form.specs.declared.faults.FormFault.TheVariants.{Memory};

    ghost from_gives = { λ _ e. e ≡ Memory };

    fn from(_e: AllocFailed<T>) -> FormFault {
        FormFault::Memory
    }
}
