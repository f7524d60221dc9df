ghost use Rattle.std.specs.Prelude.{◌≡◌, ◌+◌, ◌^◌, ◌≤◌, length};
ghost use Rattle.std.specs.Int.{w64};
ghost use Rattle.lan_bytes.specs.Numbers.{number_at};

use lan_bytes::View;

/// The number in the eight bytes from `at` on, low byte first.
pub fn number(bytes: &[u8], at: u64) -> u64
    requires room { at + 8 ≤ length bytes.now }
    requires few { length bytes.now ≤ 2 ^ 63 }
    ensures { result ≡ number_at w64 bytes.now at }
{
    match View::new(0, bytes).u64_at(at) {
        Some(number) => number,
        None => 0,
    }
}
