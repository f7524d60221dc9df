ghost use Rattle.std.specs.Prelude.{◌≤◌, ◌^◌, length, IfOk, IfErr};
ghost use Rattle.lan_model.specs.Leaves.{plain_leaf};
ghost use Rattle.lan_meta.specs.Columns.{StandsForPage, RefusesPage, ColumnOf, RefusesColumn};

use crate::encoding::{SaidPage, read_page};
use crate::message::{Message, MetaFault, read_open};
use crate::page::{ColumnMeta, PageMeta, PageMetas};
use crate::rules::{judge, ranges};
use lan_bytes::View;
use lan_model::Leaf;
use lan_wire::{Kind, Rule};
use std::alloc::Global;

// The ColumnMetadata of the Lance format: only its pages are looked at.
const COLUMN_METADATA: [Rule; 4] = [
    Rule(1, Kind::Past),
    Rule(2, Kind::Messages),
    Rule(3, Kind::Past),
    Rule(4, Kind::Past),
];

fn read_meta(alloc: Global, message: View<'_>, leaf: &Leaf, end: u64) -> Result<PageMeta, MetaFault>
    requires { length leaf.now.layers ≤ 16 }
    ensures ok { IfOk result (StandsForPage (plain_leaf leaf.now) end message.entry) }
    ensures fault { IfErr result (RefusesPage (plain_leaf leaf.now) end message.entry) }
{
    let at = message.base();
    let page = match read_page(alloc, message) {
        Ok(page) => page,
        Err(fault) => return Err(fault),
    };
    let buffers = ranges(alloc, page.offsets.as_slice(), page.sizes.as_slice())?;
    match judge(&page, buffers.as_slice(), leaf, end, at) {
        Ok(()) => {}
        Err(fault) => return Err(fault),
    }
    let SaidPage {
        rows,
        offsets: _,
        sizes: _,
        layout,
    } = page;
    Ok(PageMeta {
        rows,
        layout: layout.layout,
        buffers,
    })
}

/// The pages of a column of the leaf, by its ColumnMetadata message. Each of their buffers ends at or
/// before `end`, the end of the region of buffers; that a buffer lies behind the object's front is all
/// that is known of its beginning.
pub fn read_column(
    alloc: Global,
    view: View<'_>,
    leaf: &Leaf,
    end: u64,
) -> Result<ColumnMeta, MetaFault>
    requires layers { length leaf.now.layers ≤ 16 }
    requires region { end ≤ 2 ^ 63 }
    ensures ok { IfOk result (λ column. ColumnOf view.entry (plain_leaf leaf.now) end column.pages) }
    ensures fault { IfErr result (RefusesColumn view.entry (plain_leaf leaf.now) end) }
{
    let said = read_open(Message::ColumnMetadata, view, &COLUMN_METADATA)?;
    let mut parts = said.parts(2);
    let mut pages = PageMetas::new(alloc);
    while let Some(part) = parts.next() {
        match read_meta(alloc, part, leaf, end) {
            Ok(page) => pages.push(page)?,
            Err(fault) => return Err(fault),
        }
    }
    Ok(ColumnMeta { pages })
}
