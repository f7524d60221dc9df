// The numbers of a file's footer and of its tables.
ghost use Rattle.std.specs.Prelude.{◌≡◌, ◌+◌, ◌≤◌, length};
ghost use Rattle.std.specs.Int.{w16, w32, w64};
ghost use Rattle.lan_bytes.specs.Numbers.{number_at};

use lan_bytes::View;

/// The footer of a data file without its mark. Places count bytes from the file's front.
#[derive(Clone, Copy, Debug)]
pub struct Footer {
    /// Where column metadata begins.
    pub columns_at: u64,
    /// Where the table of column metadata begins, an entry of 16 bytes per column.
    pub column_table: u64,
    /// Where the table of global buffers begins, an entry of 16 bytes per buffer.
    pub globals_table: u64,
    pub globals: u32,
    pub columns: u32,
    pub major: u16,
    pub minor: u16,
}

/// A part of the file: its place and its length in bytes.
#[derive(Clone, Copy, Debug)]
pub struct Extent {
    pub at: u64,
    pub size: u64,
}

pub fn u64_in(view: &View<'_>, at: u64) -> u64
    requires { at + 8 ≤ length view.now.bytes }
    ensures { result ≡ number_at w64 view.now.bytes at }
{
    match view.u64_at(at) {
        Some(n) => n,
        None => unreachable!(),
    }
}

fn u32_in(view: &View<'_>, at: u64) -> u32
    requires { at + 4 ≤ length view.now.bytes }
    ensures { result ≡ number_at w32 view.now.bytes at }
{
    match view.u32_at(at) {
        Some(n) => n,
        None => unreachable!(),
    }
}

fn u16_in(view: &View<'_>, at: u64) -> u16
    requires { at + 2 ≤ length view.now.bytes }
    ensures { result ≡ number_at w16 view.now.bytes at }
{
    match view.u16_at(at) {
        Some(n) => n,
        None => unreachable!(),
    }
}

impl Footer {
    ghost use Rattle.lan_file.specs.Parts.{footer_in};

    #[tactic(auto, unfolding(crate::specs::Parts::footer_in))]
    pub fn of(tail: &View<'_>) -> Footer
        requires { length tail.now.bytes ≡ 40 }
        ensures { result ≡ footer_in tail.now.bytes }
    {
        Footer {
            columns_at: u64_in(tail, 0),
            column_table: u64_in(tail, 8),
            globals_table: u64_in(tail, 16),
            globals: u32_in(tail, 24),
            columns: u32_in(tail, 28),
            major: u16_in(tail, 32),
            minor: u16_in(tail, 34),
        }
    }
}

impl Extent {
    ghost use Rattle.lan_file.specs.Parts.{extent_in};

    #[tactic(auto, unfolding(crate::specs::Parts::extent_in))]
    pub fn of(entry: &View<'_>) -> Extent
        requires { length entry.now.bytes ≡ 16 }
        ensures { result ≡ extent_in entry.now.bytes }
    {
        Extent {
            at: u64_in(entry, 0),
            size: u64_in(entry, 8),
        }
    }
}
