//! Laws over the definitions alone, each the contract of a function.
ghost use Rattle.lan_model.specs.Laws.{NumbersAreNoMatter, ColumnsAreFew};

/// Whether a value fits a field doesn't turn on the fields' numbers.
pub fn numbers_are_no_matter()
    ensures { NumbersAreNoMatter }
{}

/// Fields that a table may have meet the conditions of `leaves`.
pub fn columns_are_few()
    ensures { ColumnsAreFew }
{}
