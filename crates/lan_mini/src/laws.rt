ghost use Rattle.lan_levels.specs.ChunkSlots.{ChunksAreUnique};
ghost use Rattle.lan_mini.specs.Inverse.{ChunksAreRead, PagesAreRead};

/// A law of the definitions: the bytes of a chunk stand for one list of slots.
pub fn chunks_are_unique()
    ensures { ChunksAreUnique }
{}

/// A law of the definitions: each chunk that is built is a chunk of its slots.
pub fn chunks_are_read()
    ensures { ChunksAreRead }
{}

/// A law of the definitions: the buffers of a page that is built are a page of its slots.
pub fn pages_are_read()
    ensures { PagesAreRead }
{}
