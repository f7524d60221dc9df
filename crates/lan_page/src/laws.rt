//! What holds of pages in objects, each law as the contract of a function with an empty body.

ghost use Rattle.lan_page.specs.Laws.{ReasonsRefute, ColumnsRefute};

/// A law of the definitions: where a reason stands in an object, it has no such page.
pub fn reasons_refute()
    ensures { ReasonsRefute }
{}

/// A law of the definitions: where a reason stands in one of a column's pages, the object doesn't have these pages.
pub fn columns_refute()
    ensures { ColumnsRefute }
{}
