ghost use Rattle.std.specs.Prelude.{◌≡◌, ◌+◌, ◌<◌, ◌≤◌, List, ℕ, length, take, vec_len, Option, IfOk, IfSome, OnOk, IsErrOf};
ghost use Rattle.byte_devices.specs.Devices.{Rose, TakesFirst, IsAtEnd, IsReadThrough};

use crate::source::{Failed, Source};
use std::alloc::{AllocError, Global};

/// The most bytes that are read: one more than a script may have, so that a longer one shows.
const MOST_READ: usize = 1_048_577;

/// The most bytes that are asked for at once.
const PIECE_BYTES: usize = 65_536;

/// Why a source was not read through.
#[derive(Clone, Copy, Debug, PartialEq, Eq)]
pub enum Unread {
    /// The source failed.
    SourceFailed,
    /// Memory was refused.
    Memory,
}

impl From<AllocError> for Unread {
    ghost use Rattle.std.specs.Prelude.{◌≡◌};
    ghost use Rattle.byte_devices.specs.declared.intake.Unread.TheVariants.{Memory};

    ghost from_gives = { λ _ e. e ≡ Memory };

    fn from(_error: AllocError) -> Unread {
        Unread::Memory
    }
}

impl From<Failed> for Unread {
    ghost use Rattle.std.specs.Prelude.{◌≡◌};
    ghost use Rattle.byte_devices.specs.declared.intake.Unread.TheVariants.{SourceFailed};

    ghost from_gives = { λ _ e. e ≡ SourceFailed };

    fn from(_failed: Failed) -> Unread {
        Unread::SourceFailed
    }
}

/// The bytes of a source, up to the byte after the most that a script may have.
///
/// # Errors
///
/// [`Unread::SourceFailed`] comes where a call of the source failed, and [`Unread::Memory`] where memory was refused.
/// What was read before is lost in both cases.
pub fn read_all<S: Source>(alloc: Global, source: &mut S) -> Result<Vec<u8>, Unread>
    ensures bytes { IfOk result (λ bytes. IfSome (S.held source.old) (λ held. bytes.items ≡ take 1048577 held)) }
    ensures through { OnOk result (IsReadThrough (S.held source.old) (S.held source.new)) }
    ensures cause { IsErrOf result Unread.SourceFailed → Rose (S.faults source.old) (S.faults source.new) }
{
    let mut piece = zeros(alloc, PIECE_BYTES)?;
    read_by_pieces(alloc, source, piece.as_mut_slice())
}

fn zeros(alloc: Global, count: usize) -> Result<Vec<u8>, AllocError>
    ensures { IfOk result (λ bytes. vec_len bytes ≡ count) }
{
    vec![in alloc; 0; count]
}

// `read_all`, by way of a piece that each read fills.
fn read_by_pieces<S: Source>(
    alloc: Global,
    source: &mut S,
    piece: &mut [u8],
) -> Result<Vec<u8>, Unread>
    requires { 0 < length piece.old }
    ensures bytes { IfOk result (λ bytes. IfSome (S.held source.old) (λ held. bytes.items ≡ take 1048577 held)) }
    ensures through { OnOk result (IsReadThrough (S.held source.old) (S.held source.new)) }
    ensures cause { IsErrOf result Unread.SourceFailed → Rose (S.faults source.old) (S.faults source.new) }
{
    let mut bytes = Vec::new(alloc);
    while bytes.len() < MOST_READ {
        if read_piece(source, piece, &mut bytes)? == 0 {
            return Ok(bytes);
        }
    }
    Ok(bytes)
}

// Reads once, and adds what came to `bytes`. 0 is the end of the source.
fn read_piece<S: Source>(
    source: &mut S,
    piece: &mut [u8],
    bytes: &mut Vec<u8>,
) -> Result<usize, Unread>
    requires piece { 0 < length piece.old }
    requires missing { vec_len bytes.old < 1048577 }
    ensures goes_on { OnOk result ((start : Option (List ℕ)) → TakesFirst start (S.held source.old) bytes.old.items → TakesFirst start (S.held source.new) bytes.new.items) }
    ensures length { IfOk result (λ n. vec_len bytes.new ≡ vec_len bytes.old + n) }
    ensures most { OnOk result (vec_len bytes.new ≤ 1048577) }
    ensures end { IfOk result (λ n. n ≡ 0 → IsAtEnd (S.held source.new)) }
    ensures cause { IsErrOf result Unread.SourceFailed → Rose (S.faults source.old) (S.faults source.new) }
    ensures never_falls { S.faults source.old ≤ S.faults source.new }
{
    let wanted = piece.len().min(MOST_READ - bytes.len());
    let count = source.read(&mut piece[..wanted])?;
    bytes.extend_from_slice(&piece[..count])?;
    Ok(count)
}
