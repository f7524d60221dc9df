ghost use Rattle.lan_zip.specs.Inverse.{PagesAreRead, WrittenPagesStand};
ghost use Rattle.lan_zip.specs.Standing.{RowsCanStand};

/// A law of the definitions: the first buffer of each page that is built opens with its slots.
pub fn pages_are_read()
    ensures { PagesAreRead }
{}

/// A law of the definitions: what building a page asks of its slots holds of the slots of rows.
pub fn rows_can_stand()
    ensures { RowsCanStand }
{}

/// A law of the definitions: the buffers that are written of slots are a page of them, the places of their
/// rows with it.
pub fn written_pages_stand()
    ensures { WrittenPagesStand }
{}
