// Why a command is refused, and the status that the program then ends with.
ghost use Rattle.std.specs.Prelude.{◌≡◌, IfOk};
ghost use Rattle.lance_cli.specs.Faults.{status_of, of_read, of_commit, of_form, of_lines};
ghost use Rattle.lance_cli.specs.declared.fault.Fault.TheVariants.{Memory};

use lan_commit::{CommitFault, Which};
use lan_form::FormFault;
use lan_model::Text;
use lan_read::{ReadFault, Reason};
use lan_rows::{LinesFault, why_line};
use lan_store::Name;
use std::alloc::{AllocError, Global};
use thiserror::Error;

/// Why a command is refused.
///
/// The derived texts are the names of the variants; `fault_text` gives the words that the program
/// prints.
#[derive(Debug, Drop, Error)]
pub enum Fault {
    /// The words don't obey the rule of words.
    #[error("Usage")]
    Usage,
    /// A line is outside of its form: its number, and why.
    #[error("BadInput")]
    BadInput(u64, Text),
    /// The input has over 2^28 bytes.
    #[error("InputTooLong")]
    InputTooLong,
    /// No version is listed.
    #[error("NoDataset")]
    NoDataset,
    /// A version is listed; this is the newest.
    #[error("AlreadyThere")]
    AlreadyThere(u64),
    /// The asked version isn't listed; behind it the newest.
    #[error("NoVersion")]
    NoVersion(u64, u64),
    /// A position that is not below the number of rows, which is behind it.
    #[error("RowOutOfRange")]
    RowOutOfRange(u64, u64),
    #[error("NoColumn")]
    NoColumn(Text),
    #[error("ColumnThere")]
    ColumnThere(Text),
    #[error("LastColumn")]
    LastColumn(Text),
    #[error("NoNullable")]
    NoNullable(Text),
    /// So many rows, but so many lines.
    #[error("CountDiffers")]
    CountDiffers(u64, u64),
    /// A limit, and the number at which it lies.
    #[error("Limit")]
    Limit(Which, u64),
    /// An object that isn't read: why, and at which byte, counted from the object's front.
    #[error("Outside")]
    Outside(Name, Reason, u64),
    /// An object of this name was held, though it wasn't listed.
    #[error("Raced")]
    Raced(Name),
    /// The store failed at this name; a folder has an empty rest.
    #[error("StoreFault")]
    StoreFault(Name),
    #[error("ReadFault")]
    ReadFault,
    #[error("WriteFault")]
    WriteFault,
    #[error("Memory")]
    Memory,
}

impl From<AllocError> for Fault {
    ghost from_gives = { λ _ e. e ≡ Memory };

    fn from(_: AllocError) -> Self {
        Fault::Memory
    }
}

impl From<ReadFault> for Fault {
    ghost from_gives = { λ fault e. e ≡ of_read fault };

    fn from(fault: ReadFault) -> Self {
        match fault {
            ReadFault::NoDataset => Fault::NoDataset,
            ReadFault::NoVersion { asked, newest } => Fault::NoVersion(asked, newest),
            ReadFault::Outside {
                object,
                reason,
                place,
            } => Fault::Outside(object, reason, place),
            ReadFault::Store(name) => Fault::StoreFault(name),
            ReadFault::Memory => Fault::Memory,
        }
    }
}

impl From<CommitFault> for Fault {
    ghost from_gives = { λ fault e. e ≡ of_commit fault };

    fn from(fault: CommitFault) -> Self {
        match fault {
            CommitFault::AlreadyThere(version) => Fault::AlreadyThere(version),
            CommitFault::Limit(which, number) => Fault::Limit(which, number),
            CommitFault::Raced(name) => Fault::Raced(name),
            CommitFault::Store(name) => Fault::StoreFault(name),
            CommitFault::Memory => Fault::Memory,
        }
    }
}

/// Why a text is no schema, as a refusal of its line.
pub fn of_form(alloc: Global, line: u64, fault: &FormFault) -> Result<Fault, AllocError>
    ensures { IfOk result (λ f. f ≡ of_form line fault.now) }
{
    match fault {
        FormFault::Memory => Ok(Fault::Memory),
        _ => Ok(Fault::BadInput(line, lan_form::why(alloc, fault)?)),
    }
}

/// Why lines are no rows, as a refusal of the first that is none.
pub fn of_lines(alloc: Global, fault: &LinesFault) -> Result<Fault, AllocError>
    ensures { IfOk result (λ f. f ≡ of_lines fault.now) }
{
    match fault {
        LinesFault::Bad(line, _) | LinesFault::LineTooLong(line) => {
            Ok(Fault::BadInput(*line, why_line(alloc, fault)?))
        }
        LinesFault::Memory => Ok(Fault::Memory),
    }
}

/// The status that the program ends with after a fault.
pub fn exit_of(fault: &Fault) -> u8
    ensures { result ≡ status_of fault.now }
{
    match fault {
        Fault::Usage => 2,
        Fault::BadInput(_, _) => 3,
        Fault::InputTooLong => 4,
        Fault::NoDataset => 5,
        Fault::AlreadyThere(_) => 6,
        Fault::NoVersion(_, _) => 7,
        Fault::RowOutOfRange(_, _) => 8,
        Fault::NoColumn(_) => 9,
        Fault::ColumnThere(_) => 10,
        Fault::LastColumn(_) => 11,
        Fault::NoNullable(_) => 12,
        Fault::CountDiffers(_, _) => 13,
        Fault::Limit(_, _) => 14,
        Fault::Outside(_, _, _) => 15,
        Fault::Raced(_) => 16,
        Fault::StoreFault(_) => 17,
        Fault::ReadFault => 18,
        Fault::WriteFault => 19,
        Fault::Memory => 20,
    }
}
