ghost use Rattle.std.specs.Prelude.{◌≡◌, ◌<◌, [], length, IsNone, IfSome, IfNone, IfOk, IfErr};
ghost use Rattle.lan_bytes.specs.Placed.{Placed};
ghost use Rattle.lan_wire.specs.Faults.{BreaksItem};
ghost use Rattle.lan_wire.specs.Spells.{Begins};

use crate::item::{Item, WireFault};
use crate::reading::first_item;
use lan_bytes::View;
use std::marker::Model;

/// Gives the items of a message in order: fields of any number and of the four wire types in use, as
/// the Protocol Buffers encoding spells them. A contract sees what is left of the message, and its place.
#[derive(Debug, Drop)]
pub struct Fields<'a> {
    at: u64,
    rest: &'a [u8],
}

impl<'a> Model for Fields<'a> {
    ghost use Rattle.std.specs.Prelude.{◌+◌, ◌^◌, ◌≤◌, length};
    ghost use Rattle.lan_bytes.specs.Placed.{Placed};

    ghost Value = { Placed };

    ghost view = { λ f. record { base = f.at; bytes = f.rest.now } };

    ghost invariant = { λ f. f.at + length f.rest.now ≤ 2 ^ 63 };
}

impl<'a> Fields<'a> {
    /// All items of the message that these bytes are.
    pub fn new(view: View<'a>) -> Fields<'a>
        ensures { result ≡ view.entry }
    {
        Fields {
            at: view.base(),
            rest: view.bytes(),
        }
    }

    /// The next item, or why it can't be read. None at the end, and after a fault.
    pub fn next(&mut self) -> Option<Result<Item<'a>, WireFault>>
        ensures none { IfNone result ((self.old.bytes ≡ []) × (self.new ≡ self.old)) }
        ensures at_end { self.old.bytes ≡ [] → IsNone result }

        // The item stands at the front, and what follows it is left.
        ensures item { IfSome result (λ found. IfOk found (λ item. Begins self.old item self.new)) }

        // The fault stands at the front, which is the key's place, and nothing is left.
        ensures fault { IfSome result (λ found. IfErr found (λ fault. BreaksItem fault.kind self.old.bytes × (fault.at ≡ self.old.base))) }
        ensures after_fault { IfSome result (λ found. IfErr found (λ _. self.new ≡ record self.old { bytes = [] })) }
        ensures shorter { IfSome result (λ _. length self.new.bytes < length self.old.bytes) }
    {
        if self.rest.is_empty() {
            return None;
        }
        let at = self.at;
        match first_item(at, self.rest) {
            Ok((item, rest)) => {
                self.at = at + (self.rest.len() - rest.len()) as u64;
                self.rest = rest;
                Some(Ok(item))
            }
            Err(kind) => {
                self.rest = &[];
                Some(Err(WireFault { kind, at }))
            }
        }
    }
}
