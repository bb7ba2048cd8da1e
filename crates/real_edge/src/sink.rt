//! A writer as a sink.
ghost use Rattle.std.specs.Prelude.{◌≡◌, ◌≤◌, None, length, IfOk};
ghost use Rattle.std.specs.Io.KnownBytes.{WriteAppends};
ghost use Rattle.text_io.specs.Text.{WritesSome};

use refusal::Failed;
use std::io;
use std::io::{ErrorKind, Write};
use text_io::Sink;

/// Bytes to a writer, as standard output. A call that the writer refuses is a fault, and so is one of which it takes nothing.
#[derive(Drop)]
pub struct StdSink<W: Write> {
    pub(crate) writer: W,
    pub(crate) faults: u64,
}

impl<W: Write> StdSink<W> {
    /// A sink whose bytes go to this writer, with no fault yet.
    pub fn new(writer: W) -> StdSink<W>
        ensures writer { result.writer ≡ writer }
        ensures faults { result.faults ≡ 0 }
    {
        StdSink { writer, faults: 0 }
    }
}

// Writes, and once more where a signal interrupted the call before a byte was taken, as the system asks.
fn write_through<W: Write>(writer: &mut W, from: &[u8]) -> io::Result<usize>
    ensures bytes { WriteAppends (W.contents writer.old) (W.contents writer.new) result from.now }
    ensures few { IfOk result (λ n. n ≤ length from.now) }
{
    for _ in 0..u64::MAX {
        match writer.write(from) {
            Err(error) if error.kind() == ErrorKind::Interrupted => {}
            outcome => return outcome,
        }
    }
    writer.write(from)
}

impl<W: Write> Sink for StdSink<W> {
    ghost state = { λ s. record { held = None; faults = s.faults } };

    fn write(&mut self, from: &[u8]) -> Result<usize, Failed>
        ensures call { WritesSome result from.now (record { held = None; faults = self.old.faults }) (record { held = None; faults = self.new.faults }) }

        // A writer that tells its bytes gets those that were taken, and no others.
        ensures bytes { WriteAppends (W.contents self.old.writer) (W.contents self.new.writer) result from.now }
    {
        if from.is_empty() {
            return Ok(0);
        }
        match write_through(&mut self.writer, from) {
            Ok(count) if count > 0 => Ok(count),
            _ => {
                self.faults = self.faults.saturating_add(1);
                Err(Failed)
            }
        }
    }
}
