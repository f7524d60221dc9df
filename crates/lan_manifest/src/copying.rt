ghost use Rattle.std.specs.Prelude.{◌≡◌, IfOk};

use crate::manifest::{DataFile, DataFiles, Fragment, Fragments, Manifest};
use lan_model::{List, Text, copy_fields};
use std::alloc::{AllocError, Global};

fn copy_file(alloc: Global, file: &DataFile) -> Result<DataFile, AllocError>
    ensures { IfOk result (λ copy. copy ≡ file.now) }
{
    let path = Text::of(alloc, file.path.as_str())?;
    let ids = List::from_slice(alloc, file.ids.as_slice())?;
    let columns = List::from_slice(alloc, file.columns.as_slice())?;
    Ok(DataFile { path, ids, columns })
}

fn copy_fragment(alloc: Global, fragment: &Fragment) -> Result<Fragment, AllocError>
    ensures { IfOk result (λ copy. copy ≡ fragment.now) }
{
    let mut files = DataFiles::new(alloc);
    for file in fragment.files.as_slice() {
        files.push(copy_file(alloc, file)?)?;
    }
    Ok(Fragment {
        id: fragment.id,
        files,
        deletion: fragment.deletion,
        rows: fragment.rows,
    })
}

fn copy_fragments(alloc: Global, fragments: &[Fragment]) -> Result<Fragments, AllocError>
    ensures { IfOk result (λ copies. copies ≡ fragments.now) }
{
    let mut copies = Fragments::new(alloc);
    for fragment in fragments {
        copies.push(copy_fragment(alloc, fragment)?)?;
    }
    Ok(copies)
}

impl Manifest {
    /// An equal manifest.
    pub fn copy(&self, alloc: Global) -> Result<Manifest, AllocError>
        ensures { IfOk result (λ copy. copy ≡ self.now) }
    {
        let fields = copy_fields(alloc, &self.fields)?;
        let fragments = copy_fragments(alloc, self.fragments.as_slice())?;
        Ok(Manifest {
            fields,
            fragments,
            version: self.version,
            greatest: self.greatest,
        })
    }
}
