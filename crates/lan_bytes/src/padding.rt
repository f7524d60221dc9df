ghost use Rattle.std.specs.Prelude.{◌≡◌, ◌+◌, ◌^◌, ◌<◌, ◌≤◌, ◌%◌, IfSome, IfNone};
ghost use Rattle.lan_bytes.specs.Padding.{padded};

/// The least multiple of 8 that isn't below `n`, as buffers are padded. None where it passes 64 bits.
pub fn pad8(n: u64) -> Option<u64>
    ensures some { IfSome result (λ end. end ≡ padded n) }
    ensures none { IfNone result (2 ^ 64 ≤ padded n) }
    ensures multiple { padded n % 8 ≡ 0 }
    ensures least { (n ≤ padded n) × (padded n < n + 8) }
{
    let over = n % 8;
    if over == 0 {
        return Some(n);
    }
    n.checked_add(8 - over)
}
