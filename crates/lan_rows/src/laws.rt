//! Laws over the definitions alone, each the contract of a function.
ghost use Rattle.lan_rows.specs.Laws.{LineTellsRow, LineIsRow, RowsHaveRoom, FewRows, RowsStep};

/// Two rows of a table that have the same line are equal.
pub fn line_tells_row()
    ensures { LineTellsRow }
{}

/// A line is read as a row of a table exactly where its members stand for the row's values.
pub fn line_is_row()
    ensures { LineIsRow }
{}

/// No value of a row that is read of a line has 2^32 bytes or more.
pub fn rows_have_room()
    ensures { RowsHaveRoom }
{}

/// No more rows are read of an input than it has bytes.
pub fn few_rows()
    ensures { FewRows }
{}

/// Rows that are read one after another are the rows of all the lines, and the first fault is the
/// fault of all.
pub fn rows_step()
    ensures { RowsStep }
{}
