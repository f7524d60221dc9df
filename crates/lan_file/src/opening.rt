// A file's mark, and whether its tables are in order.
ghost use Rattle.std.specs.Prelude.{◌≡◌, ◌*◌, ◌-◌, ◌<◌, ◌≤◌, ◌↔◌, length, drop, codes, IsTrue};
ghost use Rattle.lan_file.specs.Parts.{InOrder};

use crate::tail::Footer;

/// A file's length in bytes, and its footer.
#[derive(Clone, Copy, Debug)]
pub struct Opened {
    pub size: u64,
    pub footer: Footer,
}

pub(crate) fn are_in_order(size: u64, footer: &Footer) -> bool
    requires { 40 ≤ size }
    ensures { IsTrue result ↔ InOrder size footer.now }
{
    let end = size - 40;
    footer.globals_table <= end
        && 16 * u64::from(footer.globals) <= end - footer.globals_table
        && footer.column_table <= footer.globals_table
        && 16 * u64::from(footer.columns) <= footer.globals_table - footer.column_table
        && footer.columns_at <= footer.column_table
}

pub(crate) fn has_mark(tail: &[u8]) -> bool
    requires { length tail.now ≡ 40 }
    ensures { IsTrue result ↔ (drop 36 tail.now ≡ codes "LANC") }
{
    let (_, mark) = tail.split_at(36);
    mark == b"LANC".as_slice()
}
