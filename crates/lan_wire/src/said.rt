ghost use Rattle.std.specs.Prelude.{◌≡◌, [], ◌∷◌, ◌++◌, ◌<◌, length, IfOk, IfErr, IfSome, IfNone};
ghost use Rattle.lan_wire.specs.Rules.{open_to, closed_to, kind_at};
ghost use Rattle.lan_wire.specs.declared.rules.Kind.TheVariants.{Number, Small, Signed, Flag, Text, Messages, Numbers, SignedNumbers};
ghost use Rattle.lan_wire.specs.Messages.{ReadsItems, FailsToRead, IsPartKind};
ghost use Rattle.lan_wire.specs.Values.{AreItems, items_of, of_number, numbers_of, last_under, num_under, small_under, maybe_small_under, signed_under, flag_under, text_under, part_under, parts_under, nums_under, signeds_under, signed_from};

use crate::fields::Fields;
use crate::item::{Body, Item, WireFault};
use crate::judging::judge_message;
use crate::reading::varint_at;
use crate::rules::{Rule, Rules};
use lan_bytes::View;
use lan_model::{List, Nums};
use std::alloc::{AllocError, Global};
use std::marker::Model;

// The next item of a message that is items.
pub(crate) fn next_item<'a>(fields: &mut Fields<'a>) -> Option<Item<'a>>
    requires { AreItems fields.old }
    ensures items { AreItems fields.new }
    ensures some { IfSome result (λ item. items_of fields.old ≡ item ∷ items_of fields.new) }
    ensures shorter { IfSome result (λ _. length fields.new.bytes < length fields.old.bytes) }
    ensures none { IfNone result (items_of fields.old ≡ []) }
{
    match fields.next() {
        Some(Ok(item)) => Some(item),
        Some(Err(_)) => None,
        None => None,
    }
}

// The next item of a number.
fn next_under<'a>(fields: &mut Fields<'a>, number: u32) -> Option<Item<'a>>
    requires { AreItems fields.old }
    ensures items { AreItems fields.new }
    ensures some { IfSome result (λ item. of_number number (items_of fields.old) ≡ item ∷ of_number number (items_of fields.new)) }
    ensures shorter { IfSome result (λ _. length fields.new.bytes < length fields.old.bytes) }
    ensures none { IfNone result (of_number number (items_of fields.old) ≡ []) }
{
    while let Some(item) = next_item(fields) {
        if item.number == number {
            return Some(item);
        }
    }
    None
}

// The next part under a number.
fn next_part<'a>(fields: &mut Fields<'a>, number: u32) -> Option<View<'a>>
    requires { AreItems fields.old }
    ensures items { AreItems fields.new }
    ensures some { IfSome result (λ part. parts_under number (items_of fields.old) ≡ part ∷ parts_under number (items_of fields.new)) }
    ensures none { IfNone result (parts_under number (items_of fields.old) ≡ []) }
{
    while let Some(item) = next_under(fields, number) {
        if let Body::Part(part) = item.body {
            return Some(part);
        }
    }
    None
}

// The next of the varints at the front of bytes and then of the numbers under a number, with the bytes
// behind it.
fn next_number<'a>(
    packed: &'a [u8],
    fields: &mut Fields<'a>,
    number: u32,
) -> Option<(u64, &'a [u8])>
    requires { AreItems fields.old }
    ensures items { AreItems fields.new }
    ensures some { IfSome result (λ x. numbers_of packed.now ++ nums_under number (items_of fields.old) ≡ x.0 ∷ (numbers_of x.1.now ++ nums_under number (items_of fields.new))) }
    ensures none { IfNone result (numbers_of packed.now ++ nums_under number (items_of fields.old) ≡ []) }
{
    let mut packed = packed;
    loop {
        if let Ok((value, rest)) = varint_at(packed) {
            return Some((value, rest));
        }
        let Some(item) = next_under(fields, number) else {
            return None;
        };
        match item.body {
            Body::Num(value) => return Some((value, &[])),
            Body::Part(part) => packed = part.bytes(),
            _ => packed = &[],
        }
    }
}

// The number with a sign that 64 bits stand for, 0 where they stand for none.
fn signed_from(value: u64) -> i32
    ensures { result ≡ signed_from value }
{
    if value < 1 << 31 {
        return value as i32;
    }
    let less = u64::MAX - value;
    if less < 1 << 31 {
        return -1 - less as i32;
    }
    0
}

/// What a message says: its items, which keep to its rules. A contract sees them.
///
/// It lends the bytes of the message, and each call walks over the items once. None of them takes memory
/// but for the numbers that it lists.
#[derive(Debug, Drop)]
pub struct Said<'a, 'r> {
    message: View<'a>,
    rules: Rules<'r>,
}

impl<'a, 'r> Model for Said<'a, 'r> {
    ghost use Rattle.lan_wire.specs.Messages.{SaidItems};
    ghost use Rattle.lan_wire.specs.Values.{AreItems, items_of};

    ghost Value = { SaidItems };

    ghost view = { λ s. record { rules = s.rules; items = items_of s.message } };

    ghost invariant = { λ s. AreItems s.message };
}

impl<'a, 'r> Said<'a, 'r> {
    fn under(message: View<'a>, rules: Rules<'r>) -> Result<Said<'a, 'r>, WireFault>
        ensures rules { IfOk result (λ said. said.rules ≡ rules.entry) }
        ensures ok { IfOk result (λ said. ReadsItems rules.entry message.entry said.items) }
        ensures fault { IfErr result (FailsToRead rules.entry message.entry) }
    {
        judge_message(&message, &rules)?;
        Ok(Said { message, rules })
    }

    /// The items of an open message, whose other numbers are read past, or the first fault: an item that
    /// can't be read, that is none of its number's kind, or that comes a second time.
    pub fn read(message: View<'a>, rules: &'r [Rule]) -> Result<Said<'a, 'r>, WireFault>
        ensures rules { IfOk result (λ said. said.rules ≡ open_to rules.now) }
        ensures ok { IfOk result (λ said. ReadsItems (open_to rules.now) message.entry said.items) }
        ensures fault { IfErr result (FailsToRead (open_to rules.now) message.entry) }
    {
        Said::under(message, Rules::open_to(rules))
    }

    /// The items of a closed message, or the first fault, which another number is too.
    pub fn read_closed(message: View<'a>, rules: &'r [Rule]) -> Result<Said<'a, 'r>, WireFault>
        ensures rules { IfOk result (λ said. said.rules ≡ closed_to rules.now) }
        ensures ok { IfOk result (λ said. ReadsItems (closed_to rules.now) message.entry said.items) }
        ensures fault { IfErr result (FailsToRead (closed_to rules.now) message.entry) }
    {
        Said::under(message, Rules::closed_to(rules))
    }

    fn fields(&self) -> Fields<'a>
        ensures items { AreItems result }
        ensures same { items_of result ≡ self.now.items }
    {
        Fields::new(self.message.again())
    }

    fn last(&self, number: u32) -> Option<Item<'a>>
        ensures { result ≡ last_under number self.now.items }
    {
        let mut fields = self.fields();
        let mut last = None;
        while let Some(item) = next_under(&mut fields, number) {
            last = Some(item);
        }
        last
    }

    /// The number of 64 bits under a field's number, 0 where it is left out.
    pub fn num(&self, number: u32) -> u64
        requires { kind_at self.now.rules number ≡ Number }
        ensures { result ≡ num_under number self.now.items }
    {
        match self.last(number) {
            Some(item) => item.num().unwrap_or(0),
            None => 0,
        }
    }

    /// The number of 32 bits under a field's number, 0 where it is left out.
    pub fn small(&self, number: u32) -> u32
        requires { kind_at self.now.rules number ≡ Small }
        ensures { result ≡ small_under number self.now.items }
    {
        match self.last(number) {
            Some(item) => item.small().unwrap_or(0),
            None => 0,
        }
    }

    /// The number of 32 bits under a field's number, zero too. None where it is left out.
    pub fn maybe_small(&self, number: u32) -> Option<u32>
        requires { kind_at self.now.rules number ≡ Small }
        ensures { result ≡ maybe_small_under number self.now.items }
    {
        match self.last(number) {
            Some(item) => item.small().ok(),
            None => None,
        }
    }

    /// The number of 32 bits with a sign under a field's number, 0 where it is left out.
    pub fn signed(&self, number: u32) -> i32
        requires { kind_at self.now.rules number ≡ Signed }
        ensures { result ≡ signed_under number self.now.items }
    {
        match self.last(number) {
            Some(item) => item.signed().unwrap_or(0),
            None => 0,
        }
    }

    /// The flag under a field's number, false where it is left out.
    pub fn flag(&self, number: u32) -> bool
        requires { kind_at self.now.rules number ≡ Flag }
        ensures { result ≡ flag_under number self.now.items }
    {
        match self.last(number) {
            Some(item) => item.flag().unwrap_or(false),
            None => false,
        }
    }

    /// The text under a field's number, lent, the empty one where it is left out.
    pub fn text(&self, number: u32) -> &'a str
        requires { kind_at self.now.rules number ≡ Text }
        ensures { result.now ≡ text_under number self.now.items }
    {
        match self.last(number) {
            Some(item) => item.text().unwrap_or(""),
            None => "",
        }
    }

    /// The bytes or the message under a field's number, lent at their place in the object.
    pub fn part(&self, number: u32) -> Option<View<'a>>
        requires { IsPartKind (kind_at self.now.rules number) }
        ensures { result ≡ part_under number self.now.items }
    {
        match self.last(number) {
            Some(item) => match item.body {
                Body::Part(part) => Some(part),
                _ => None,
            },
            None => None,
        }
    }

    /// The messages of a repeated field, one after the other.
    pub fn parts(&self, number: u32) -> Parts<'a>
        requires { kind_at self.now.rules number ≡ Messages }
        ensures { result ≡ parts_under number self.now.items }
    {
        Parts {
            number,
            fields: self.fields(),
        }
    }

    fn all_numbers(&self, number: u32) -> SaidNumbers<'a>
        ensures { result ≡ nums_under number self.now.items }
    {
        SaidNumbers {
            number,
            packed: &[],
            fields: self.fields(),
        }
    }

    /// The numbers of a repeated field, one after the other.
    pub fn numbers(&self, number: u32) -> SaidNumbers<'a>
        requires { kind_at self.now.rules number ≡ Numbers }
        ensures { result ≡ nums_under number self.now.items }
    {
        self.all_numbers(number)
    }

    /// The numbers of a repeated field as a list, in order.
    pub fn nums(&self, alloc: Global, number: u32) -> Result<Nums, AllocError>
        requires { kind_at self.now.rules number ≡ Numbers }
        ensures { IfOk result (λ list. list ≡ nums_under number self.now.items) }
    {
        let mut numbers = self.all_numbers(number);
        let mut list = Nums::new(alloc);
        while let Some(value) = numbers.next() {
            list.push(value)?;
        }
        Ok(list)
    }

    /// The numbers of 32 bits with a sign of a repeated field as a list, in order.
    pub fn signeds(&self, alloc: Global, number: u32) -> Result<List<i32>, AllocError>
        requires { kind_at self.now.rules number ≡ SignedNumbers }
        ensures { IfOk result (λ list. list ≡ signeds_under number self.now.items) }
    {
        let mut numbers = self.all_numbers(number);
        let mut list = List::new(alloc);
        while let Some(value) = numbers.next() {
            list.push(signed_from(value))?;
        }
        Ok(list)
    }
}

/// Gives the messages of a repeated field in order. A contract sees those that are left.
#[derive(Debug, Drop)]
pub struct Parts<'a> {
    number: u32,
    fields: Fields<'a>,
}

impl<'a> Model for Parts<'a> {
    ghost use Rattle.std.specs.Prelude.{List};
    ghost use Rattle.lan_bytes.specs.Placed.{Placed};
    ghost use Rattle.lan_wire.specs.Values.{AreItems, items_of, parts_under};

    ghost Value = { List Placed };

    ghost view = { λ p. parts_under p.number (items_of p.fields) };

    ghost invariant = { λ p. AreItems p.fields };
}

impl<'a> Parts<'a> {
    /// The next message, at its place in the object.
    pub fn next(&mut self) -> Option<View<'a>>
        ensures some { IfSome result (λ part. self.old ≡ part ∷ self.new) }
        ensures none { IfNone result (self.old ≡ []) }
    {
        next_part(&mut self.fields, self.number)
    }
}

/// Gives the numbers of a repeated field in order, those under their own keys and those that are packed. A
/// contract sees those that are left.
#[derive(Debug, Drop)]
pub struct SaidNumbers<'a> {
    number: u32,
    packed: &'a [u8],
    fields: Fields<'a>,
}

impl<'a> Model for SaidNumbers<'a> {
    ghost use Rattle.std.specs.Prelude.{List, ℕ, ◌++◌};
    ghost use Rattle.lan_wire.specs.Values.{AreItems, items_of, numbers_of, nums_under};

    ghost Value = { List ℕ };

    ghost view = { λ n. numbers_of n.packed.now ++ nums_under n.number (items_of n.fields) };

    ghost invariant = { λ n. AreItems n.fields };
}

impl<'a> SaidNumbers<'a> {
    /// The next number.
    pub fn next(&mut self) -> Option<u64>
        ensures some { IfSome result (λ value. self.old ≡ value ∷ self.new) }
        ensures none { IfNone result (self.old ≡ []) }
    {
        let (value, packed) = next_number(self.packed, &mut self.fields, self.number)?;
        self.packed = packed;
        Some(value)
    }
}
