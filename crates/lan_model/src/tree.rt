use crate::boxed::Boxed;
use crate::list::List;
use crate::text::Text as Name;

/// A type of fixed width. Floats are bits only; a date is a count of days as an int32.
#[derive(Clone, Copy, Debug, PartialEq, Eq)]
pub enum Primitive {
    Bool,
    Int8,
    Int16,
    Int32,
    Int64,
    Uint8,
    Uint16,
    Uint32,
    Uint64,
    Half,
    Float,
    Double,
    Date,
}

/// What a field holds, after the logical types of the Lance format.
#[cycle(field)]
#[derive(Drop)]
pub enum Ty {
    Bits(Primitive),
    /// A list of fixed size: its items, none of them null, and how many they are.
    Vector(Primitive, u32),
    Text,
    Bytes,
    List(Boxed<Field>),
    Struct(List<Field>),
}

/// A field with the number by which files name it.
#[cycle(field)]
#[derive(Drop)]
pub struct Field {
    pub id: u32,
    pub name: Name,
    pub nullable: bool,
    pub ty: Ty,
}

pub type FieldList = List<Field>;

/// A value of a field.
#[derive(Drop)]
pub enum Val {
    Null,
    /// The bits of a primitive, a signed one in two's complement of its width.
    Bits(u64),
    /// The bytes of a vector, a text or binary data.
    Raw(List<u8>),
    /// The items of a list.
    Items(List<Val>),
    /// The members of a struct, in the order of its fields.
    Group(List<Val>),
}

pub type Vals = List<Val>;

/// Fields, and rows of one value a field.
#[derive(Drop)]
pub struct Table {
    pub fields: FieldList,
    pub rows: List<Vals>,
}

/// A layer of a leaf: its item, or a struct or a list round it.
#[derive(Clone, Copy, Debug, PartialEq, Eq)]
pub enum Layer {
    Item { nullable: bool },
    /// A struct; `member` is the place in it of the member on the way to the leaf.
    Struct { nullable: bool, member: u32 },
    List { nullable: bool },
}

pub type Layers = List<Layer>;

/// A field without fields in it, which has a column of its own.
#[derive(Drop)]
pub struct Leaf {
    pub id: u32,
    /// The place of the top field that it is in.
    pub top: u32,
    pub ty: Ty,
    /// From the leaf outward.
    pub layers: Layers,
}

pub type Leaves = List<Leaf>;

pub type Row = Vals;

pub type Rows = List<Row>;

/// What a change of a dataset asks for.
#[derive(Drop)]
pub enum Command {
    /// A table of these fields without rows, as version 1.
    Create(FieldList),
    Append(Rows),
    /// The rows at these positions, counted from 0, are left out.
    Delete(List<u64>),
    /// A field more, with a value for each row.
    AddColumn(Field, Vals),
    /// A field more that is null in each row.
    AddNull(Field),
    DropColumn(Name),
    /// The table of an older version again.
    Restore(u64),
}
