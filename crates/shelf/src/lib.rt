// A shelf keeps files and never changes.
#![tactic(auto)]

ghost use Rattle.std.specs.Prelude.{◌≡◌, List};
ghost use Rattle.shelf.specs.Files.{File, first_named, read_at};

mod catalog;
mod pack;
mod table;

pub use catalog::Catalog;
pub use table::Entry;
pub use text::Extent;

// How a file's bytes end: all of them are there, or they break off.
#[derive(Clone, Copy, PartialEq, Debug)]
pub enum Ending {
    Whole,
    Broken,
}

// Anything that keeps files. Its meaning is the list of its files.
pub trait Shelf {
    ghost files: { Self → List File };

    // The number of the first file with the name. The number itself is free: it is the place of the
    // file in the shelf's own list, counted from 0, and two shelves that keep the same files may list,
    // and so number, them differently.
    fn find(&self, name: &[u8]) -> Option<usize>
        ensures { result ≡ first_named name.now (files self.now) };

    // The byte at an offset of a file, at or behind the end the ending, or none for a number outside the list.
    fn read(&self, file: usize, offset: usize) -> Option<Result<u8, Ending>>
        ensures { result ≡ read_at (files self.now) file offset };
}
