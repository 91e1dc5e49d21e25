//! What the shelves in memory share: finding a file by its name, and giving its bytes.

ghost use Rattle.std.specs.Prelude.{◌≡◌, ◌-◌, ◌<◌, ◌≤◌, Some, length, take, drop, min, position, IfSome};
ghost use Rattle.outside.specs.Files.{is_named, place_of, file_of, name_at, bytes_at};
ghost use Rattle.outside.specs.SureShelf.{sure_file};

/// The place of the first file of this name, or the number of files where there is none.
pub(crate) fn place_of(files: &[(String, Vec<u8>)], name: &str) -> usize
    ensures place { result ≡ place_of files.now name.now }
    ensures within { result ≤ length files.now }
    ensures named { IfSome (name_at files.now result) (λ n. n ≡ name.now) }
    ensures bytes { bytes_at files.now result ≡ file_of files.now name.now }
{
    find_place(files, name).unwrap_or(files.len())
}

/// The place of the first file of this name, if there is one.
fn find_place(files: &[(String, Vec<u8>)], name: &str) -> Option<usize>
    ensures { result ≡ position (is_named name.now) files.now }
{
    files.iter().position(|file| file.0.as_str() == name)
}

/// The bytes of the file at this place.
pub(crate) fn bytes_at(files: &[(String, Vec<u8>)], place: usize) -> &[u8]
    requires { place < length files.now }
    ensures { bytes_at files.now place ≡ Some result.now }
{
    &files[place].1
}

/// Copies what `buf` takes of the bytes from `given` on, and says how many.
pub(crate) fn copy_from(bytes: &[u8], given: usize, buf: &mut [u8]) -> usize
    requires { given ≤ length bytes.now }
    ensures count { result ≡ min (length buf.old) (length bytes.now - given) }
    ensures bytes { take result buf.new ≡ take result (drop given bytes.now) }
{
    let count = buf.len().min(bytes.len() - given);
    buf[..count].copy_from_slice(&bytes[given..given + count]);
    count
}

/// The bytes of the first file of this name, or none.
pub(crate) fn bytes_of<'a>(files: &'a [(String, Vec<u8>)], name: &str) -> &'a [u8]
    ensures { result.now ≡ sure_file files.now name.now }
{
    let place = place_of(files, name);
    if place < files.len() {
        bytes_at(files, place)
    } else {
        &[]
    }
}
