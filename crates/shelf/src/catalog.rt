// A shelf that keeps its files in a list.
ghost use Rattle.std.specs.Prelude.{◌≡◌, map};
ghost use Rattle.shelf.specs.Files.{first_named};
ghost use Rattle.shelf.specs.Makes.{file_of, catalog_files};

use crate::{Ending, Shelf};

// A file's name, its bytes, and how they end.
#[derive(Clone, Copy, PartialEq, Debug)]
pub(crate) struct StoredFile<'a> {
    pub(crate) name: &'a [u8],
    pub(crate) content: &'a [u8],
    pub(crate) ending: Ending,
}

#[derive(Drop)]
pub struct Catalog<'a> {
    pub(crate) files: Vec<StoredFile<'a>>,
}

// The number of the first file with the name.
fn first_named(files: &[StoredFile<'_>], name: &[u8]) -> Option<usize>
    ensures { result ≡ first_named name.now (map file_of files.now) }
{
    files.iter().position(|file| file.name == name)
}

impl Shelf for Catalog<'_> {
    ghost files = { catalog_files };

    fn find(&self, name: &[u8]) -> Option<usize> {
        first_named(&self.files, name)
    }

    fn read(&self, file: usize, offset: usize) -> Option<Result<u8, Ending>> {
        let file = self.files.get(file)?;
        Some(file.content.get(offset).copied().ok_or(file.ending))
    }
}
