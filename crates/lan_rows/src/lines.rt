// The rows of an input of lines.
ghost use Rattle.std.specs.Prelude.{◌≡◌, ◌⊎◌, ℕ, ◌+◌, ◌<◌, ◌≤◌, ◌∷◌, [], Ok, Err, length, drop, map, option_map, All, IfOk, IfErr, IfSome, OnOk, OnErr};
ghost use Rattle.lan_model.specs.Plain.{plain_field, values_from};
ghost use Rattle.lan_model.specs.PlainTable.{column_of, row_of as plain_row};
ghost use Rattle.lan_model.specs.Room.{AllHaveRoom};
ghost use Rattle.lan_model.specs.Table.{AreColumns, FitsRow};
ghost use Rattle.lan_rows.specs.Lines.{cut, lines_of, first_row, rows_of};
ghost use Rattle.lan_rows.specs.declared.lines.LinesFault.TheVariants.{Memory};

use crate::faults::RowFault;
use crate::reading::read_row;
use lan_model::{FieldList, Row, Rows};
use memchr::memchr;
use std::alloc::{AllocError, Global};
use std::marker::Model;

/// Why an input is no list of rows. Lines are counted from 1, and the first bad one is named.
#[derive(Debug, Drop)]
pub enum LinesFault {
    Bad(u64, RowFault),
    /// The line has over 2^26 bytes.
    LineTooLong(u64),
    Memory,
}

impl From<AllocError> for LinesFault {
    ghost from_gives = { λ _ e. e ≡ Memory };

    fn from(_: AllocError) -> LinesFault {
        LinesFault::Memory
    }
}

/// How many bytes a line has at most.
pub const MAX_LINE: usize = 1 << 26;

/// Reads the rows of an input's lines, one at a time. Each line ends at a newline; the last one may
/// lack it, and nothing follows a final newline.
///
/// A contract sees the lines that are still to be read, with their numbers.
#[derive(Drop)]
pub struct RowLines<'a> {
    rest: &'a [u8],
    number: u64,
}

impl<'a> Model for RowLines<'a> {
    ghost use Rattle.std.specs.Prelude.{ℕ, ◌+◌, ◌<◌, ◌^◌, List, [], length};
    ghost use Rattle.lan_rows.specs.Lines.{cut};

    ghost Value = { List (ℕ × List ℕ) };

    ghost view = { λ lines. cut (lines.number + 1) [] lines.rest.now };

    ghost invariant = { λ lines. lines.number + length lines.rest.now < 2 ^ 64 };
}

impl<'a> RowLines<'a> {
    pub fn new(input: &'a [u8]) -> RowLines<'a>
        ensures lines { result ≡ lines_of input.now }
        ensures few { length result ≤ length input.now }
    {
        RowLines {
            rest: input,
            number: 0,
        }
    }

    /// The row of the next line, or `None` where no line is left. After an error the line is still
    /// to be read.
    pub fn next(&mut self, alloc: Global, fields: &FieldList) -> Result<Option<Row>, LinesFault>
        ensures ok { IfOk result (λ row. first_row (map column_of fields.now) self.old ≡ Ok (option_map plain_row row)) }
        ensures rest { OnOk result (self.new ≡ drop 1 self.old) }
        ensures shorter { IfOk result (λ row. IfSome row (λ _. length self.new < length self.old)) }
        ensures fit { IfOk result (λ row. IfSome row (λ r. FitsRow (map plain_field fields.now) (plain_row r))) }
        ensures room { AreColumns (map column_of fields.now) → IfOk result (λ row. IfSome row (λ r. AllHaveRoom (values_from (plain_row r)))) }
        ensures err { IfErr result (λ e. (e ≡ LinesFault.Memory) ⊎ (first_row (map column_of fields.now) self.old ≡ Err e)) }
        ensures unread { OnErr result (self.new ≡ self.old) }
    {
        if self.rest.is_empty() {
            return Ok(None);
        }
        let (line, rest) = first_line(self.rest);
        let number = self.number + 1;
        if line.len() > MAX_LINE {
            return Err(LinesFault::LineTooLong(number));
        }
        match read_row(alloc, fields, line) {
            Ok(row) => {
                self.rest = rest;
                self.number = number;
                Ok(Some(row))
            }
            Err(RowFault::Memory) => Err(LinesFault::Memory),
            Err(fault) => Err(LinesFault::Bad(number, fault)),
        }
    }
}

/// The rows of all lines of an input, as `RowLines` reads them.
pub fn read_rows(alloc: Global, fields: &FieldList, input: &[u8]) -> Result<Rows, LinesFault>
    ensures ok { IfOk result (λ rows. rows_of (map column_of fields.now) (lines_of input.now) ≡ Ok (map plain_row rows)) }
    ensures fit { IfOk result (λ rows. All (FitsRow (map plain_field fields.now)) (map plain_row rows)) }
    ensures room { AreColumns (map column_of fields.now) → IfOk result (λ rows. All (λ row. AllHaveRoom (values_from row)) (map plain_row rows)) }
    ensures err { IfErr result (λ e. (e ≡ LinesFault.Memory) ⊎ (rows_of (map column_of fields.now) (lines_of input.now) ≡ Err e)) }
{
    let mut lines = RowLines::new(input);
    let mut rows = Rows::new(alloc);
    while let Some(row) = lines.next(alloc, fields)? {
        rows.push(row)?;
    }
    Ok(rows)
}

// The first line of a rest that isn't empty, without its newline, and what follows it.
fn first_line(rest: &[u8]) -> (&[u8], &[u8])
    requires { 0 < length rest.now }
    ensures line { (number : ℕ) → cut number [] rest.now ≡ (number, result.0.now) ∷ cut (number + 1) [] result.1.now }
    ensures shorter { length result.1.now < length rest.now }
{
    match memchr(b'\n', rest) {
        Some(at) => (&rest[..at], &rest[at + 1..]),
        None => (rest, &rest[rest.len()..]),
    }
}
