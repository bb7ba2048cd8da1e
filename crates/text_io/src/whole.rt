// A whole text, in as many calls as it takes.
ghost use Rattle.std.specs.Prelude.{◌≡◌, IfErr, IfOk};
ghost use Rattle.text_io.specs.Text.{Writes};
ghost use Rattle.text_io.specs.Reading.{WasCutShort, WasRead};
ghost use Rattle.text_io.specs.declared.whole.ReadFault.TheVariants.{Failed, NoMemory};

use crate::{Sink, Source};
use refusal::Failed;
use std::alloc::{AllocError, Global};
use thiserror::Error;

/// Writes all the bytes. Where it fails, a front of them was written, and not all.
pub fn write_all<K: Sink>(sink: &mut K, bytes: &[u8]) -> Result<(), Failed>
    ensures { Writes bytes.now result (K.state sink.old) (K.state sink.new) }
{
    let mut done = 0;
    while done < bytes.len() {
        done += sink.write(&bytes[done..])?;
    }
    Ok(())
}

/// Why a source wasn't read to its end.
#[derive(Clone, Copy, PartialEq, Eq, Debug, Error)]
pub enum ReadFault {
    /// A call of the source failed, and it has raised its count of faults.
    #[error("a call to the outside failed")]
    Failed,
    /// More bytes than allowed were read.
    #[error("too long")]
    TooLong,
    /// Memory was refused.
    #[error("no memory")]
    NoMemory,
}

impl From<Failed> for ReadFault {
    ghost from_gives = { λ _ fault. fault ≡ Failed };

    fn from(_failed: Failed) -> ReadFault {
        ReadFault::Failed
    }
}

impl From<AllocError> for ReadFault {
    ghost from_gives = { λ _ fault. fault ≡ NoMemory };

    fn from(_refused: AllocError) -> ReadFault {
        ReadFault::NoMemory
    }
}

// How many bytes one call reads at most.
pub(crate) const PIECE: usize = 4096;

/// Reads to the end, at most `limit` bytes. An answer that isn't `Ok` leaves the source behind the bytes that were read, of which
/// there are at most 4,096 more than the limit.
pub fn read_all<S: Source>(
    alloc: Global,
    source: &mut S,
    limit: usize,
) -> Result<Vec<u8>, ReadFault>
    ensures ok { IfOk result (λ bytes. WasRead limit bytes.items (S.state source.old) (S.state source.new)) }
    ensures err { IfErr result (λ why. WasCutShort limit why (S.state source.old) (S.state source.new)) }
{
    let mut bytes = Vec::new(alloc);
    let mut piece = [0u8; PIECE];
    loop {
        let n = source.read(&mut piece)?;
        if n == 0 {
            return Ok(bytes);
        }
        if n > limit - bytes.len() {
            return Err(ReadFault::TooLong);
        }
        bytes.extend_from_slice(&piece[..n])?;
    }
}
