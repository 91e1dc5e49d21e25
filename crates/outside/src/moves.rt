//! Moving whole files and whole texts.

ghost use Rattle.std.specs.Prelude.{◌≡◌, ◌<◌, ◌≤◌, ◌↔◌, ◌+◌, ◌++◌, [], Some, take, length, vec_len, IsTrue, IsErrOf, IfSome, IfOk, OnOk, OnErr};
ghost use Rattle.outside.specs.Counts.{Rose, NeverFalls, NoneFalls, StartedRose};
ghost use Rattle.outside.specs.Told.{Gained, GainedPrefix, Moved};

use crate::faults::{Failed, FetchError};
use crate::traits::{Shelf, Sink};
use std::alloc::{AllocError, Global};

/// The most bytes that one read asks for.
const LONGEST_READ: usize = 65536;

/// Reads the whole file of this name, of at most `limit` bytes.
///
/// The file is started once, and at most `limit + 1` bytes of it are read. Where the shelf tells its
/// bytes, they decide between `Ok` and `TooBig`. What a real file holds is told by nobody: there the
/// answer is that of this one reading, by the same code, since it can't see whether a shelf tells.
/// After a refusal nothing is known of what is left on the shelf.
pub fn fetch<S: Shelf>(
    alloc: Global,
    shelf: &mut S,
    name: &str,
    limit: usize,
) -> Result<Vec<u8>, FetchError>
    ensures whole { IfOk result (λ bytes. IfSome (S.file shelf.old name.now) (λ file. bytes.items ≡ file)) }
    ensures fits { IfOk result (λ bytes. vec_len bytes ≤ limit) }
    ensures at_end { OnOk result (IfSome (S.file shelf.old name.now) (λ _. S.left shelf.new ≡ Some [])) }
    ensures too_big { IsErrOf result FetchError.TooBig
        → IfSome (S.file shelf.old name.now) (λ file. limit < length file) }
    ensures failed { IsErrOf result FetchError.Failed
        → Rose (S.faults shelf.old name.now) (S.faults shelf.new name.now) }
    ensures files { S.file shelf.new ≡ S.file shelf.old }
    ensures counts { NoneFalls (S.faults shelf.old) (S.faults shelf.new) }
{
    let mut piece = piece_buffer(alloc)?;
    let mut bytes = Vec::new(alloc);
    shelf.start(name)?;
    loop {
        let room = limit - bytes.len();
        let asked = room.saturating_add(1).min(LONGEST_READ);
        if move_piece(shelf, &mut piece[..asked], &mut bytes)? == 0 {
            return Ok(bytes);
        }
        if bytes.len() > limit {
            return Err(FetchError::TooBig);
        }
    }
}

/// Moves the next bytes of the started file to the end of `bytes`, by way of `piece`, and says how
/// many.
fn move_piece<S: Shelf>(
    shelf: &mut S,
    piece: &mut [u8],
    bytes: &mut Vec<u8>,
) -> Result<usize, FetchError>
    requires started { IsTrue (S.is_started shelf.old) }
    requires room { 0 < length piece.old }
    ensures within { IfOk result (λ n. n ≤ length piece.new) }
    ensures appended { IfOk result (λ n. bytes.new.items ≡ bytes.old.items ++ take n piece.new) }
    ensures longer { IfOk result (λ n. vec_len bytes.new ≡ vec_len bytes.old + n) }
    ensures moved { IfOk result (λ n. Moved (S.left shelf.old) (S.left shelf.new) (take n piece.new)) }
    ensures end { IfOk result (λ n. IfSome (S.left shelf.old) (λ left. (n ≡ 0) ↔ (left ≡ []))) }
    ensures failed { IsErrOf result FetchError.Failed
        → StartedRose (S.started_name shelf.old) (S.faults shelf.old) (S.faults shelf.new) }
    ensures never_too_big { ¬ IsErrOf result FetchError.TooBig }
    ensures still_started { IsTrue (S.is_started shelf.new) }
    ensures name { S.started_name shelf.new ≡ S.started_name shelf.old }
    ensures files { S.file shelf.new ≡ S.file shelf.old }
    ensures counts { NoneFalls (S.faults shelf.old) (S.faults shelf.new) }
{
    let moved = shelf.read(piece)?;
    bytes.extend_from_slice(&piece[..moved])?;
    Ok(moved)
}

/// Room for one read.
fn piece_buffer(alloc: Global) -> Result<Vec<u8>, AllocError>
    ensures { IfOk result (λ piece. vec_len piece ≡ LONGEST_READ) }
{
    vec![in alloc; 0; LONGEST_READ]
}

/// Puts all the bytes into the sink. After `Failed` a prefix of them was appended.
pub fn emit<K: Sink>(sink: &mut K, bytes: &[u8]) -> Result<(), Failed>
    ensures whole { OnOk result (Gained (K.held sink.old) (K.held sink.new) bytes.now) }
    ensures prefix { OnErr result (GainedPrefix (K.held sink.old) (K.held sink.new) bytes.now) }
    ensures failed { OnErr result (Rose (K.faults sink.old) (K.faults sink.new)) }
    ensures counts { NeverFalls (K.faults sink.old) (K.faults sink.new) }
{
    let mut done = 0;
    while done < bytes.len() {
        done += sink.put(&bytes[done..])?;
    }
    Ok(())
}
