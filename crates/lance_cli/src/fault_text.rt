// The words of each fault.
ghost use Rattle.std.specs.Prelude.{◌≡◌, ◌++◌, IfOk, codes, decimal, string_bytes};
ghost use Rattle.json.specs.Print.{quoted};
ghost use Rattle.lance_cli.specs.Faults.{which_text, fault_text};

use crate::fault::Fault;
use crate::reason_codes::reason_code;
use lan_commit::Which;
use lan_model::Text;
use serde_json::Value;
use std::alloc::{AllocError, Global};

/// The words that the program prints after a fault, without a newline.
pub fn fault_text(alloc: Global, fault: &Fault) -> Result<Text, AllocError>
    ensures { IfOk result (λ text. text ≡ fault_text fault.now) }
{
    let words = words_of(alloc, fault)?;
    Ok(Text::from_string(words))
}

fn words_of(alloc: Global, fault: &Fault) -> Result<String, AllocError>
    ensures { IfOk result (λ text. string_bytes text ≡ fault_text fault.now) }
{
    match fault {
        Fault::Usage => String::from_str(alloc, "usage: lance_cli FOLDER COMMAND [WORDS]"),
        Fault::BadInput(line, why) => numbered_line(alloc, *line, why.as_str()),
        Fault::InputTooLong => String::from_str(alloc, "input over 268435456 bytes"),
        Fault::NoDataset => String::from_str(alloc, "no dataset"),
        Fault::AlreadyThere(version) => {
            format!(in alloc; "dataset is there at version {version}")
        }
        Fault::NoVersion(asked, newest) => {
            format!(in alloc; "no version {asked}, newest is {newest}")
        }
        Fault::RowOutOfRange(row, rows) => row_past(alloc, *row, *rows),
        Fault::NoColumn(name) => named(alloc, "no column ", name, ""),
        Fault::ColumnThere(name) => named(alloc, "column ", name, " is there"),
        Fault::LastColumn(name) => named(alloc, "last column ", name, ""),
        Fault::NoNullable(name) => named(alloc, "column ", name, " is not nullable"),
        Fault::CountDiffers(rows, lines) => format!(in alloc; "{rows} rows but {lines} lines"),
        Fault::Limit(which, number) => {
            let which = which_text(*which);
            format!(in alloc; "limit: {which} is {number}")
        }
        Fault::Outside(name, reason, place) => {
            let path = name.path(alloc)?;
            let code = reason_code(alloc, reason)?;
            format!(in alloc; "outside: {path}: {code} at {place}")
        }
        Fault::Raced(name) => {
            let path = name.path(alloc)?;
            format!(in alloc; "raced: {path}")
        }
        Fault::StoreFault(name) => {
            let path = name.path(alloc)?;
            format!(in alloc; "store failed: {path}")
        }
        Fault::ReadFault => String::from_str(alloc, "input failed"),
        Fault::WriteFault => String::from_str(alloc, "output failed"),
        Fault::Memory => String::from_str(alloc, "out of memory"),
    }
}

fn numbered_line(alloc: Global, line: u64, why: &str) -> Result<String, AllocError>
    ensures { IfOk result (λ text. string_bytes text ≡ codes "line " ++ (decimal line ++ (codes ": " ++ why.now))) }
{
    format!(in alloc; "line {line}: {why}")
}

fn row_past(alloc: Global, row: u64, rows: u64) -> Result<String, AllocError>
    ensures { IfOk result (λ text. string_bytes text ≡ codes "row " ++ (decimal row ++ (codes " is not below " ++ decimal rows))) }
{
    format!(in alloc; "row {row} is not below {rows}")
}

// A name in quotes, between two texts.
fn named(alloc: Global, front: &str, name: &Text, end: &str) -> Result<String, AllocError>
    ensures { IfOk result (λ text. string_bytes text ≡ front.now ++ (quoted name.now ++ end.now)) }
{
    let name = quote(alloc, name.as_str())?;
    format!(in alloc; "{front}{name}{end}")
}

// The text between quotes, as JSON writes it.
fn quote(alloc: Global, text: &str) -> Result<String, AllocError>
    ensures { IfOk result (λ quote. string_bytes quote ≡ quoted text.now) }
{
    Value::String(String::from_str(alloc, text)?).to_string(alloc)
}

fn which_text(which: Which) -> &'static str
    ensures { result.now ≡ which_text which }
{
    match which {
        Which::Leaves => "leaves",
        Which::FieldId => "field id",
        Which::Fragments => "fragments",
        Which::FragmentId => "fragment id",
        Which::Version => "version",
        Which::FileNumber => "file number",
        Which::DeletionId => "deletion id",
        Which::ObjectBytes => "object bytes",
    }
}
