// The catalog of a text and a table.
ghost use Rattle.std.specs.Prelude.{◌≡◌, IfOk, if◌then◌else◌};
ghost use Rattle.shelf.specs.declared.Ending.TheVariants.{Whole, Broken};
ghost use Rattle.shelf.specs.Makes.{part, fits, entry_file, file_of, catalog_files, table_files};

use crate::catalog::{Catalog, StoredFile};
use crate::{Ending, Extent};
use std::alloc::{AllocError, Global};
use text::slice_of;

// Where a file's name and its content lie in a text.
#[derive(Clone, Copy, PartialEq, Debug)]
pub struct Entry {
    pub name: Extent,
    pub content: Extent,
}

// Whether the extent stays within the text.
fn fits_in(text: &[u8], extent: Extent) -> bool
    ensures { result ≡ fits text.now extent }
{
    extent
        .start
        .checked_add(extent.len)
        .is_some_and(|end| end <= text.len())
}

// The bytes of the extent, as far as the text goes.
fn part_of(text: &[u8], extent: Extent) -> &[u8]
    ensures { result.now ≡ part text.now extent }
{
    slice_of(text, extent.start, extent.len)
}

// The file of an entry.
fn file_at(text: &[u8], entry: Entry) -> StoredFile<'_>
    ensures { file_of result ≡ entry_file text.now entry }
{
    StoredFile {
        name: part_of(text, entry.name),
        content: part_of(text, entry.content),
        ending: if fits_in(text, entry.content) {
            Ending::Whole
        } else {
            Ending::Broken
        },
    }
}

impl<'a> Catalog<'a> {
    // The files of a text, by a table of entries that say where names and contents lie in it. An entry
    // whose name runs past the text is left out, and content that runs past it breaks off there. A start
    // plus a length beyond the text's length is past it, also where the length is 0.
    pub fn from_table(
        heap: Global,
        text: &'a [u8],
        table: &[Entry],
    ) -> Result<Catalog<'a>, AllocError>
        ensures { IfOk result (λ c. catalog_files c ≡ table_files text.now table.now) }
    {
        let mut files = Vec::new(heap);
        for entry in table {
            if fits_in(text, entry.name) {
                files.push(file_at(text, *entry))?;
            }
        }
        Ok(Catalog { files })
    }
}
