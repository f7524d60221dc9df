ghost use Rattle.std.specs.Prelude.{◌≡◌, ◌↔◌, ◌≤◌, length, IfOk, IfErr, IsTrue};
ghost use Rattle.lan_bytes.specs.Placed.{Placed};
ghost use Rattle.lan_arrow.specs.Flat.{IsTable, offset_of, one_in, four_in};
ghost use Rattle.lan_arrow.specs.Footer.{IntStands, FieldStands, SchemaStands, FooterStands, IsPlainField, IsPlain, HasNoDictionary, root_of, schema_of, field_of, blocks_at};
ghost use Rattle.lan_arrow.specs.BrokenFooter.{IntBroken, FieldBroken, SchemaBroken, FooterBroken, RootBroken};

use crate::fault::ArrowFault;
use crate::numbers::four_at;
use crate::tab::Tab;
use crate::vecs::Vecs;
use lan_bytes::View;

// Whether a column is one of deleted rows, and whether it has no dictionary. The second counts only where the first
// holds.
#[derive(Clone, Copy, Debug)]
struct Column {
    plain: bool,
    no_dictionary: bool,
}

// A footer whose tables stand: its blocks, and what its column is.
#[derive(Debug, Drop)]
pub(crate) struct Footer<'a> {
    pub(crate) blocks: Vecs<'a>,
    pub(crate) plain: bool,
    pub(crate) no_dictionary: bool,
}

// Whether a table Int is that of unsigned numbers of 32 bits.
fn read_int(tab: &Tab<'_>) -> Result<bool, ArrowFault>
    ensures stands { IfOk result (λ _. IntStands tab.now.buffer.bytes tab.now.at) }
    ensures unsigned { IfOk result (λ b. IsTrue b ↔ ((four_in tab.now.buffer.bytes tab.now.at 0 ≡ 32) × (one_in tab.now.buffer.bytes tab.now.at 1 ≡ 0))) }
    ensures refused { IfErr result (λ _. ¬ IntStands tab.now.buffer.bytes tab.now.at) }
    ensures fault { IfErr result (λ e. IntBroken tab.now.buffer tab.now.at e) }
{
    let width = tab.four(0)?;
    let sign = tab.one(1)?;
    Ok(width == 32 && sign == 0)
}

// What a table Field is.
#[tactic(auto, unfolding(crate::specs::BrokenFooter::FieldBroken))]
fn read_field(tab: &Tab<'_>) -> Result<Column, ArrowFault>
    ensures stands { IfOk result (λ _. FieldStands tab.now.buffer.bytes tab.now.at) }
    ensures plain { IfOk result (λ column. IsTrue column.plain ↔ IsPlainField tab.now.buffer.bytes tab.now.at) }
    ensures no_dictionary { IfOk result (λ column. IsTrue column.no_dictionary ↔ (offset_of tab.now.buffer.bytes tab.now.at 4 ≡ 0)) }
    ensures refused { IfErr result (λ _. ¬ FieldStands tab.now.buffer.bytes tab.now.at) }
    ensures fault { IfErr result (λ e. FieldBroken tab.now.buffer tab.now.at e) }
{
    let kind = tab.one(2)?;
    let number = tab.table(3)?;
    let whole = if kind == 2 { read_int(&number)? } else { false };
    let children = tab.count(5, 4)?;
    Ok(Column {
        plain: whole && children == 0,
        no_dictionary: tab.lacks(4),
    })
}

// What the field of a table Schema is.
#[tactic(auto, unfolding(crate::specs::BrokenFooter::SchemaBroken))]
fn read_schema(tab: &Tab<'_>) -> Result<Column, ArrowFault>
    ensures stands { IfOk result (λ _. SchemaStands tab.now.buffer.bytes tab.now.at) }
    ensures plain { IfOk result (λ column. IsTrue column.plain ↔ IsPlain tab.now.buffer.bytes tab.now.at) }
    ensures no_dictionary { IfOk result (λ column. IsTrue column.plain → IsTrue column.no_dictionary ↔ (offset_of tab.now.buffer.bytes (field_of tab.now.buffer.bytes tab.now.at) 4 ≡ 0)) }
    ensures refused { IfErr result (λ _. ¬ SchemaStands tab.now.buffer.bytes tab.now.at) }
    ensures fault { IfErr result (λ e. SchemaBroken tab.now.buffer tab.now.at e) }
{
    let order = tab.two(0)?;
    let fields = tab.vector(1, 4)?;
    if fields.len() != 1 {
        return Ok(Column {
            plain: false,
            no_dictionary: false,
        });
    }
    let field = fields.first_table()?;
    let column = read_field(&field)?;
    Ok(Column {
        plain: column.plain && order == 0,
        no_dictionary: column.no_dictionary,
    })
}

// The table that the buffer's first number leads to.
#[tactic(auto, unfolding(crate::specs::Flat::target_at))]
pub(crate) fn root(view: View<'_>) -> Result<Tab<'_>, ArrowFault>
    ensures long { IfOk result (λ _. 4 ≤ length view.entry.bytes) }
    ensures stands { IfOk result (λ _. IsTable view.entry.bytes (root_of view.entry.bytes)) }
    ensures table { IfOk result (λ table. table ≡ record { buffer = view.entry; at = root_of view.entry.bytes }) }
    ensures refused { IfErr result (λ _. 4 ≤ length view.entry.bytes → ¬ IsTable view.entry.bytes (root_of view.entry.bytes)) }
    ensures fault { IfErr result (λ e. RootBroken view.entry e) }
{
    match four_at(&view, 0) {
        Some(place) => Tab::open(view, u64::from(place)),
        None => Err(ArrowFault::Table(view.base())),
    }
}

// The tables of a footer.
#[tactic(auto, unfolding(crate::specs::BrokenFooter::FooterBroken))]
pub(crate) fn read_footer(view: View<'_>) -> Result<Footer<'_>, ArrowFault>
    ensures stands { IfOk result (λ _. FooterStands view.entry.bytes) }
    ensures blocks { IfOk result (λ footer. footer.blocks ≡ blocks_at view.entry) }
    ensures plain { IfOk result (λ footer. IsTrue footer.plain ↔ IsPlain view.entry.bytes (schema_of view.entry.bytes)) }
    ensures no_dictionary { IfOk result (λ footer. IsTrue footer.plain → IsTrue footer.no_dictionary ↔ HasNoDictionary view.entry.bytes) }
    ensures refused { IfErr result (λ _. ¬ FooterStands view.entry.bytes) }
    ensures fault { IfErr result (λ e. FooterBroken view.entry e) }
{
    let root = root(view)?;
    let schema = root.table(1)?;
    let column = read_schema(&schema)?;
    let dictionaries = root.count(2, 24)?;
    let blocks = root.vector(3, 24)?;
    Ok(Footer {
        blocks,
        plain: column.plain,
        no_dictionary: column.no_dictionary && dictionaries == 0,
    })
}
