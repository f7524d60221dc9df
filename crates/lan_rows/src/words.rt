// Why a line is no row, in words.
ghost use Rattle.std.specs.Prelude.{◌≡◌, ◌++◌, IfOk};
ghost use Rattle.json.specs.Print.{quoted};
ghost use Rattle.lan_rows.specs.Why.{why, why_line};

use crate::faults::RowFault;
use crate::lines::LinesFault;
use lan_model::Text;
use serde_json::Value;
use std::alloc::{AllocError, Global};

/// The words for a line's fault, names quoted as a printed row quotes them.
pub fn why(alloc: Global, fault: &RowFault) -> Result<Text, AllocError>
    ensures { IfOk result (λ text. text ≡ why fault.now) }
{
    match fault {
        RowFault::Json => Text::of(alloc, "not JSON"),
        RowFault::NotObject => Text::of(alloc, "not an object"),
        RowFault::NoKey(name) => naming(alloc, "no key ", name),
        RowFault::StrayKey(name) => naming(alloc, "stray key ", name),
        RowFault::Kind(name) => naming(alloc, "wrong kind in ", name),
        RowFault::Range(name) => naming(alloc, "out of range in ", name),
        RowFault::NotNull(name) => naming(alloc, "null in ", name),
        RowFault::Count(name) => naming(alloc, "wrong count in ", name),
        RowFault::Hex(name) => naming(alloc, "bad hex in ", name),
        RowFault::TooLong(name) => naming(alloc, "value too long in ", name),
        RowFault::Memory => Text::of(alloc, "out of memory"),
    }
}

/// The words for an input's fault, without the line's number.
pub fn why_line(alloc: Global, fault: &LinesFault) -> Result<Text, AllocError>
    ensures { IfOk result (λ text. text ≡ why_line fault.now) }
{
    match fault {
        LinesFault::Bad(_, fault) => why(alloc, fault),
        LinesFault::LineTooLong(_) => Text::of(alloc, "line over 67108864 bytes"),
        LinesFault::Memory => Text::of(alloc, "out of memory"),
    }
}

fn naming(alloc: Global, words: &str, name: &Text) -> Result<Text, AllocError>
    ensures { IfOk result (λ text. text ≡ words.now ++ quoted name.now) }
{
    let quote = Value::String(String::from_str(alloc, name.as_str())?).to_string(alloc)?;
    let mut text = Text::of(alloc, words)?;
    text.push(quote.as_str())?;
    Ok(text)
}
