ghost use Rattle.std.specs.Prelude.{◌≡◌};
ghost use Rattle.lan_wire.specs.Rules.{open_to, closed_to, kind_at};

use std::marker::Model;

/// What an item of a number may be.
#[derive(Clone, Copy, Debug, PartialEq, Eq)]
pub enum Kind {
    /// A number of 64 bits, of which the last holds.
    Number,
    /// A number of 32 bits, of which the last holds.
    Small,
    /// A number of 32 bits with a sign, of which the last holds.
    Signed,
    /// A flag, of which the last holds.
    Flag,
    /// A text, of which the last holds.
    Text,
    /// Bytes, of which the last hold.
    Bytes,
    /// A message that comes once.
    Message,
    /// A message that is a member of the message's one oneof, of which one comes, once.
    OneOf,
    /// Repeated numbers of 64 bits, packed or not.
    Numbers,
    /// Repeated numbers of 32 bits with a sign, packed or not.
    SignedNumbers,
    /// Repeated messages.
    Messages,
    /// Read past, whatever it is.
    Past,
    /// Not accepted, whatever it is.
    Refused,
}

/// A number that a message knows, and what its items may be.
#[derive(Clone, Copy, Debug)]
pub struct Rule(pub u32, pub Kind);

/// What a message takes: the kinds of the numbers that it knows, and that of all others.
#[derive(Debug, Drop)]
pub(crate) struct Rules<'a> {
    listed: &'a [Rule],
    others: Kind,
}

impl<'a> Model for Rules<'a> {
    ghost use Rattle.lan_wire.specs.Rules.{Rules as MessageRules};

    ghost Value = { MessageRules };

    ghost view = { λ r. record { listed = r.listed.now; others = r.others } };
}

impl<'a> Rules<'a> {
    /// A message whose other numbers are read past.
    pub(crate) fn open_to(rules: &'a [Rule]) -> Rules<'a>
        ensures { result ≡ open_to rules.now }
    {
        Rules {
            listed: rules,
            others: Kind::Past,
        }
    }

    /// A message that takes no other number.
    pub(crate) fn closed_to(rules: &'a [Rule]) -> Rules<'a>
        ensures { result ≡ closed_to rules.now }
    {
        Rules {
            listed: rules,
            others: Kind::Refused,
        }
    }

    /// The kind of a number, by the first rule of it.
    pub(crate) fn kind(&self, number: u32) -> Kind
        ensures { result ≡ kind_at self.now number }
    {
        for rule in self.listed {
            if rule.0 == number {
                return rule.1;
            }
        }
        self.others
    }
}
