//! A reader as a source.
ghost use Rattle.std.specs.Prelude.{◌≡◌, ◌≤◌, None, length, IfOk};
ghost use Rattle.std.specs.Io.KnownBytes.{ReadConsumes};
ghost use Rattle.text_io.specs.Text.{ReadsSome};

use refusal::Failed;
use std::io;
use std::io::{ErrorKind, Read};
use text_io::Source;

/// Bytes from a reader, as standard input. A call that the reader refuses is a fault.
#[derive(Drop)]
pub struct StdSource<R: Read> {
    pub(crate) reader: R,
    pub(crate) faults: u64,
}

impl<R: Read> StdSource<R> {
    /// A source of what this reader gives, with no fault yet.
    pub fn new(reader: R) -> StdSource<R>
        ensures reader { result.reader ≡ reader }
        ensures faults { result.faults ≡ 0 }
    {
        StdSource { reader, faults: 0 }
    }
}

// Reads, and once more where a signal interrupted the call before a byte was given, as the system asks.
fn read_through<R: Read>(reader: &mut R, into: &mut [u8]) -> io::Result<usize>
    ensures bytes { ReadConsumes (R.remaining reader.old) (R.remaining reader.new) result into.new }
    ensures few { IfOk result (λ n. n ≤ length into.old) }
    ensures room { length into.new ≡ length into.old }
{
    for _ in 0..u64::MAX {
        match reader.read(into) {
            Err(error) if error.kind() == ErrorKind::Interrupted => {}
            outcome => return outcome,
        }
    }
    reader.read(into)
}

impl<R: Read> Source for StdSource<R> {
    ghost state = { λ s. record { left = None; faults = s.faults } };

    fn read(&mut self, into: &mut [u8]) -> Result<usize, Failed>
        ensures call { ReadsSome result (length into.old) into.new (record { left = None; faults = self.old.faults }) (record { left = None; faults = self.new.faults }) }

        // A reader that tells its bytes loses those that were given, and no others.
        ensures bytes { ReadConsumes (R.remaining self.old.reader) (R.remaining self.new.reader) result into.new }
    {
        match read_through(&mut self.reader, into) {
            Ok(count) => Ok(count),
            Err(_) => {
                self.faults = self.faults.saturating_add(1);
                Err(Failed)
            }
        }
    }
}
