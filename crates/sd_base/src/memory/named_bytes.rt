//! A list of files in memory, in which the first of a name counts.

ghost use Rattle.std.specs.Prelude.{◌≡◌, ◌<◌, [], length, IfSome, IfNone, OnOk, OnErr};
ghost use Rattle.std.specs.Option.{option_map};
ghost use Rattle.sd_base.specs.Files.{bytes_at, with_file, with_more};
ghost use Rattle.sd_base.specs.Memory.{files_of, IsFirst};

use crate::{Bytes, Failed, Name};
use std::alloc::{AllocError, Global};

/// A file: its name and its bytes.
#[derive(Debug, Drop)]
pub struct NamedBytes {
    pub name: Name,
    pub bytes: Bytes,
}

// The index of the first file of this name.
fn find_file(files: &[NamedBytes], name: &str) -> Option<usize>
    ensures some { IfSome result (λ i. IsFirst files.now name.now i) }
    ensures within { IfSome result (λ i. i < length files.now) }
    ensures none { IfNone result (bytes_at (files_of files.now) name.now ≡ None) }
{
    for (i, file) in files.iter().enumerate() {
        if file.name.as_str() == name {
            return Some(i);
        }
    }
    None
}

/// The bytes of the file of this name.
pub(crate) fn find_bytes<'a>(files: &'a [NamedBytes], name: &str) -> Option<&'a [u8]>
    ensures { option_map (λ bytes. bytes.now) result ≡ bytes_at (files_of files.now) name.now }
{
    match find_file(files, name) {
        Some(i) => Some(files[i].bytes.as_slice()),
        None => None,
    }
}

/// Makes the named file empty, new or not.
pub(crate) fn make_empty(
    alloc: Global,
    files: &mut Vec<NamedBytes>,
    name: &str,
) -> Result<(), AllocError>
    ensures ok { OnOk result (files_of files.new.items
        ≡ with_file (files_of files.old.items) name.now []) }
    ensures err { OnErr result (files.new.items ≡ files.old.items) }
{
    match find_file(files, name) {
        Some(i) => {
            let file = &mut files[i];
            file.bytes = Bytes::new(Vec::new(alloc));
        }
        None => {
            let file = NamedBytes {
                name: Name::copy_of(alloc, name)?,
                bytes: Bytes::new(Vec::new(alloc)),
            };
            files.insert(0, file)?;
        }
    }
    Ok(())
}

/// Puts a piece at the end of the named file. It fails where there is none, too.
pub(crate) fn extend_file(
    files: &mut Vec<NamedBytes>,
    name: &str,
    piece: &[u8],
) -> Result<(), Failed>
    ensures ok { OnOk result (files_of files.new.items
        ≡ with_more (files_of files.old.items) name.now piece.now) }
    ensures err { OnErr result (files.new.items ≡ files.old.items) }
{
    let Some(i) = find_file(files, name) else {
        return Err(Failed);
    };
    let file = &mut files[i];
    match file.bytes.extend(piece) {
        Ok(()) => Ok(()),
        Err(_) => Err(Failed),
    }
}
