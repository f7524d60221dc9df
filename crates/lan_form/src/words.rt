// Why a text is no schema, in words.
ghost use Rattle.std.specs.Prelude.{◌≡◌, ◌++◌, IfOk, string_bytes};
ghost use Rattle.json.specs.Print.{quoted};
ghost use Rattle.lan_form.specs.Why.{why};

use crate::faults::FormFault;
use lan_model::Text;
use serde_json::Value;
use std::alloc::{AllocError, Global};

/// The words for a fault, texts quoted as JSON writes them.
pub fn why(alloc: Global, fault: &FormFault) -> Result<Text, AllocError>
    ensures { IfOk result (λ text. text ≡ why fault.now) }
{
    match fault {
        FormFault::Json => Text::of(alloc, "not JSON"),
        FormFault::Form => Text::of(alloc, "not a schema"),
        FormFault::NoName => Text::of(alloc, "empty name"),
        FormFault::SameName(name) => quoting(alloc, "name ", name, " twice"),
        FormFault::UnknownType(kind) => quoting(alloc, "unknown type ", kind, ""),
        FormFault::NoFields => Text::of(alloc, "no fields"),
        FormFault::TooDeep => Text::of(alloc, "over 16 layers"),
        FormFault::TooManyLeaves => Text::of(alloc, "over 1024 leaves"),
        FormFault::Memory => Text::of(alloc, "out of memory"),
    }
}

// A text in quotes, between two others.
fn quoting(alloc: Global, front: &str, text: &Text, end: &str) -> Result<Text, AllocError>
    ensures { IfOk result (λ words. words ≡ front.now ++ (quoted text.now ++ end.now)) }
{
    let quote = Value::String(String::from_str(alloc, text.as_str())?).to_string(alloc)?;
    let words = format!(in alloc; "{front}{quote}{end}")?;
    Ok(Text::from_string(words))
}
