ghost use Rattle.std.specs.Prelude.{◌≡◌, ◌+◌, ◌-◌, ◌^◌, ◌*◌, ◌<◌, ◌≤◌, All, length};
ghost use Rattle.lan_mini.specs.Form.{IsForm, plain_form};
ghost use Rattle.lan_mini.specs.Building.{CanChunk, IsMost, IsCut, range};

use crate::form::Form;
use crate::measuring::Total;
use lan_levels::SlotBuf;

/// The greatest logarithm of a chunk's slots.
const TOP: u16 = 12;

/// The most slots of a chunk.
const MOST_SLOTS: u64 = 4096;

/// The most bytes of a chunk.
const MOST_BYTES: u64 = 32768;

/// The first slots of some, as many as a power of two.
#[derive(Clone, Copy)]
pub struct Front {
    pub log: u16,
    pub count: u64,
    pub total: Total,
    /// Whether twice as many, not more than there are, don't fit one chunk.
    pub full: bool,
}

/// The slots of the next chunk.
#[derive(Clone, Copy)]
pub struct Cut {
    /// The logarithm of how many there are; 0 for the last chunk.
    pub log: u16,
    pub count: u64,
    pub total: Total,
}

impl Cut {
    /// The next chunk of the slots from `from` to before `to`: all of them where they fit the last
    /// chunk, else the greatest power of two that is fewer and fits.
    pub fn next(form: &Form<'_>, slots: &SlotBuf, from: u64, to: u64) -> Cut
        requires form { IsForm form.now }
        requires front { from < to }
        requires end { to ≤ length slots.now }
        requires slots { All (CanChunk (plain_form form.now)) (range slots.now from to) }
        ensures { IsCut (plain_form form.now) (range slots.now from to) result }
    {
        let front = Front::greatest(form, slots, from, to);
        let left = to - from;
        if !front.full && left <= MOST_SLOTS {
            let later = Total::of(form, slots, from + front.count, to);
            let all = front.total.and(later);
            if all.chunk_size(form, left) <= MOST_BYTES {
                return Cut {
                    log: 0,
                    count: left,
                    total: all,
                };
            }
        }
        Cut {
            log: front.log,
            count: front.count,
            total: front.total,
        }
    }
}

impl Front {
    /// The greatest power of two that isn't more than the slots, and fewer where it isn't 1, and fits
    /// one chunk.
    fn greatest(form: &Form<'_>, slots: &SlotBuf, from: u64, to: u64) -> Front
        requires form { IsForm form.now }
        requires front { from < to }
        requires end { to ≤ length slots.now }
        requires slots { All (CanChunk (plain_form form.now)) (range slots.now from to) }
        ensures { IsMost (plain_form form.now) (range slots.now from to) result }
    {
        let mut log = 0;
        let mut count = 1;
        let mut total = Total::of(form, slots, from, from + 1);
        while log < TOP && 2 * count < to - from {
            let at = from + count;
            let twice = total.and(Total::of(form, slots, at, at + count));
            if twice.chunk_size(form, 2 * count) > MOST_BYTES {
                return Front {
                    log,
                    count,
                    total,
                    full: true,
                };
            }
            total = twice;
            count *= 2;
            log += 1;
        }
        Front {
            log,
            count,
            total,
            full: false,
        }
    }
}
