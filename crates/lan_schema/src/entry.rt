/// A field as its message says it, the Field of the Lance format: a tree lies flat, and each field
/// names its parent. It borrows its texts.
#[derive(Clone, Copy, Debug)]
pub struct Entry<'a> {
    pub name: &'a str,
    pub id: i32,
    /// The number of the field that it is in, or -1.
    pub parent: i32,
    /// The logical type, as `int64` or `list`.
    pub logical: &'a str,
    pub nullable: bool,
}
