ghost use Rattle.std.specs.Prelude.{◌≡◌, ◌+◌, ◌<◌, ◌≤◌, length, IfSome, IfNone};
ghost use Rattle.lan_arrow.specs.Flat.{two_at, four_at, eight_at};

use lan_bytes::View;

// The readers of a view by words that stay closed in the contracts above.

#[tactic(auto, unfolding(crate::specs::Flat::two_at))]
pub(crate) fn two_at(view: &View<'_>, at: u64) -> Option<u16>
    ensures some { IfSome result (λ n. n ≡ two_at view.now.bytes at) }
    ensures within { IfSome result (λ _. at + 2 ≤ length view.now.bytes) }
    ensures none { IfNone result (length view.now.bytes < at + 2) }
{
    view.u16_at(at)
}

#[tactic(auto, unfolding(crate::specs::Flat::four_at))]
pub(crate) fn four_at(view: &View<'_>, at: u64) -> Option<u32>
    ensures some { IfSome result (λ n. n ≡ four_at view.now.bytes at) }
    ensures within { IfSome result (λ _. at + 4 ≤ length view.now.bytes) }
    ensures none { IfNone result (length view.now.bytes < at + 4) }
{
    view.u32_at(at)
}

#[tactic(auto, unfolding(crate::specs::Flat::eight_at))]
pub(crate) fn eight_at(view: &View<'_>, at: u64) -> Option<u64>
    ensures some { IfSome result (λ n. n ≡ eight_at view.now.bytes at) }
    ensures within { IfSome result (λ _. at + 8 ≤ length view.now.bytes) }
    ensures none { IfNone result (length view.now.bytes < at + 8) }
{
    view.u64_at(at)
}
