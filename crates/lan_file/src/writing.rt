ghost use Rattle.std.specs.Prelude.{◌≡◌, ◌+◌, ◌*◌, ◌^◌, ◌<◌, ◌++◌, OnOk};
ghost use Rattle.lan_file.specs.Numbers.{u16_bytes, u32_bytes, u64_bytes};
ghost use Rattle.lan_file.specs.Writing.{entry_text, footer_for};

use lan_bytes::Out;
use std::alloc::AllocError;

#[tactic(auto, unfolding(crate::specs::Numbers::u64_bytes))]
fn put_u64(n: u64, out: &mut Out) -> Result<(), AllocError>
    ensures { OnOk result (out.new ≡ out.old ++ u64_bytes n) }
{
    out.num(n, 8)
}

#[tactic(auto, unfolding(crate::specs::Numbers::u32_bytes))]
fn put_u32(n: u32, out: &mut Out) -> Result<(), AllocError>
    ensures { OnOk result (out.new ≡ out.old ++ u32_bytes n) }
{
    out.num(u64::from(n), 4)
}

#[tactic(auto, unfolding(crate::specs::Numbers::u16_bytes))]
fn put_u16(n: u16, out: &mut Out) -> Result<(), AllocError>
    ensures { OnOk result (out.new ≡ out.old ++ u16_bytes n) }
{
    out.num(u64::from(n), 2)
}

/// Where a part lies, and how long it is.
#[tactic(auto, using(std::proofs::Common::append_assoc))]
pub(crate) fn put_entry(at: u64, size: u64, out: &mut Out) -> Result<(), AllocError>
    ensures { OnOk result (out.new ≡ out.old ++ entry_text at size) }
{
    put_u64(at, out)?;
    put_u64(size, out)
}

/// The footer of a file of so many columns, one global buffer and version 2.1.
pub(crate) fn put_footer(
    columns_at: u64,
    table: u64,
    columns: u32,
    out: &mut Out,
) -> Result<(), AllocError>
    requires { table + 16 * columns < 2 ^ 64 }
    ensures { OnOk result (out.new ≡ out.old ++ footer_for columns_at table columns) }
{
    put_u64(columns_at, out)?;
    put_u64(table, out)?;
    put_u64(table + 16 * u64::from(columns), out)?;
    put_u32(1, out)?;
    put_u32(columns, out)?;
    put_u16(2, out)?;
    put_u16(1, out)?;
    out.bytes(b"LANC")?;
    Ok(())
}
