/// A limit that a change reaches.
#[derive(Clone, Copy, Debug)]
pub enum Which {
    Leaves,
    FieldId,
    Fragments,
    FragmentId,
    Version,
    FileNumber,
    DeletionId,
    ObjectBytes,
}
