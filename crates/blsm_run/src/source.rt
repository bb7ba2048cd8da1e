//! The script, read from the source.
ghost use Rattle.blsm_run.specs.Reading.{ReadsScript};

use crate::outcome::Refusal;
use script_text::{Script, ScriptFault, read_script};
use std::alloc::Global;
use text_io::{ReadFault, Source, read_all};

// How many bytes a script may have.
const MAX_SCRIPT: usize = 8_388_608;

/// Reads the source to its end, as a script. It stays a call, since a piece of the text and a line are kilobytes on the stack.
#[inline(never)]
pub(crate) fn read_source<S: Source>(alloc: Global, source: &mut S) -> Result<Script, Refusal>
    ensures { ReadsScript (S.state source.old) (S.state source.new) result }
{
    let bytes = match read_all(alloc, source, MAX_SCRIPT) {
        Ok(bytes) => bytes,
        Err(ReadFault::Failed) => return Err(Refusal::SourceFault),
        Err(ReadFault::TooLong) => return Err(Refusal::TooBig),
        Err(ReadFault::NoMemory) => return Err(Refusal::NoMemory),
    };
    match read_script(alloc, &bytes) {
        Ok(script) => Ok(script),
        Err(ScriptFault::Bad(line)) => Err(Refusal::BadLine(u64::from(line))),
        Err(ScriptFault::NoMemory) => Err(Refusal::NoMemory),
    }
}
