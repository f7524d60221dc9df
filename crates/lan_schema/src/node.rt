ghost use Rattle.std.specs.Prelude.{◌≡◌};
ghost use Rattle.lan_schema.specs.FieldMessage.{flat_of};

use crate::entry::Entry;
use std::marker::Model;

/// A field of a tree that lies flat, which contracts see without where its texts lie in memory.
#[derive(Debug, Drop)]
pub struct Node<'a> {
    entry: Entry<'a>,
}

impl<'a> Model for Node<'a> {
    ghost use Rattle.lan_schema.specs.FieldMessage.{Flat, flat_of};

    ghost Value = { Flat };

    ghost view = { λ node. flat_of node.entry };
}

impl<'a> Node<'a> {
    pub fn new(entry: Entry<'a>) -> Node<'a>
        ensures { result ≡ flat_of entry.entry }
    {
        Node { entry }
    }

    pub fn name(&self) -> &'a str
        ensures { result.now ≡ self.now.name }
    {
        self.entry.name
    }

    pub fn id(&self) -> i32
        ensures { result ≡ self.now.id }
    {
        self.entry.id
    }

    pub fn parent(&self) -> i32
        ensures { result ≡ self.now.parent }
    {
        self.entry.parent
    }

    pub fn logical(&self) -> &'a str
        ensures { result.now ≡ self.now.logical }
    {
        self.entry.logical
    }

    pub fn nullable(&self) -> bool
        ensures { result ≡ self.now.nullable }
    {
        self.entry.nullable
    }
}
