// The catalog of a pack.
ghost use Rattle.std.specs.Prelude.{◌≡◌, IfOk};
ghost use Rattle.std.specs.Option.{option_map};
ghost use Rattle.shelf.specs.Makes.{catalog_files, record_of, first_record, pack_files};

use crate::Ending;
use crate::catalog::{Catalog, StoredFile};
use std::alloc::{AllocError, Global};

// The first file of a pack, and the pack behind it, or none where no record begins.
fn first_file(pack: &[u8]) -> Option<(StoredFile<'_>, &[u8])>
    ensures { option_map record_of result ≡ first_record pack.now }
{
    let [name_len @ 1..=63, rest @ ..] = pack else {
        return None;
    };
    let (name, rest) = rest.split_at_checked(usize::from(*name_len))?;
    let [high, low, rest @ ..] = rest else {
        return None;
    };
    let len = usize::from(u16::from_be_bytes([*high, *low]));
    let (content, ending) = match rest.get(..len) {
        Some(content) => (content, Ending::Whole),
        None => (rest, Ending::Broken),
    };
    let file = StoredFile {
        name,
        content,
        ending,
    };
    Some((file, &rest[content.len()..]))
}

impl<'a> Catalog<'a> {
    // The files of a pack, a run of records: a byte that gives the length of the name, 1 to 63, then the
    // name, two bytes that give the length of the content, high first, and the content. Another first
    // byte, or a cut before the content, ends the list. Cut content, even at its first byte, breaks off.
    pub fn from_pack(heap: Global, pack: &'a [u8]) -> Result<Catalog<'a>, AllocError>
        ensures { IfOk result (λ c. catalog_files c ≡ pack_files pack.now) }
    {
        let mut files = Vec::new(heap);
        let mut rest = pack;
        while let Some((file, behind)) = first_file(rest) {
            files.push(file)?;
            rest = behind;
        }
        Ok(Catalog { files })
    }
}
