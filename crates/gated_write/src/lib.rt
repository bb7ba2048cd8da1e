//! A text behind a gate: one byte of a disk that reads open only once the text behind it stands.
//! Logs and catalogues whose entries must be there in whole or not at all write them by it.
#![tactic(auto)]

ghost use Rattle.std.specs.Prelude.{◌≤◌, ◌<◌, ◌+◌, ◌^◌, ◌∷◌, length, IsTrue, OnOk};
ghost use Rattle.disk_trait.specs.Disk.{HasWritten, TellsFaults};
ghost use Rattle.disk_trait.specs.Effects.{Affects};
ghost use Rattle.disk_trait.specs.Region.{span};
ghost use Rattle.gated_write.specs.Ends.{EndsSynced};
ghost use Rattle.gated_write.specs.Gated.{LeavesGated, open_byte};

use disk_trait::Disk;
use refusal::Failed;

/// The value of an open gate. Any other byte is a closed one.
pub const OPEN: u8 = 1;

/// What is written for a closed gate.
pub const CLOSED: u8 = 0;

/// Writes bytes over what is there, from an offset on, and makes them durable, with all that was written before: a write and a
/// sync. Whatever it answers, no byte outside their range changes, in no crash image of any moment.
pub fn write_through<D: Disk>(disk: &mut D, at: u64, bytes: &[u8]) -> Result<(), Failed>
    requires offsets { at + length bytes.now < 2 ^ 64 }
    requires inside { IsTrue (D.state disk.old).tells_bytes → at ≤ length (D.state disk.old).bytes }
    ensures written { OnOk result (HasWritten at bytes.now (D.state disk.old) (D.state disk.new)) }
    ensures ends { OnOk result (EndsSynced 2 (D.state disk.old) (D.state disk.new)) }
    ensures effect { Affects (span at (length bytes.now)) (at + length bytes.now) 2 (D.state disk.old) (D.state disk.new) }
    ensures faults { TellsFaults result (D.state disk.old) (D.state disk.new) }
{
    disk.write(at, bytes)?;
    disk.sync()?;
    Ok(())
}

/// Writes the text behind a closed gate, makes it durable, opens the gate, and makes that durable.
///
/// The gate is the byte at `at`, the text begins one byte after it. Where no crash before the call would have left the gate open,
/// one at any moment leaves a file from before the call, or one with the range torn behind a closed gate, or one with the text
/// whole behind an open gate. Where one might have, that gate may stand open before any text: all that is known is that no byte
/// outside gate and text changes. Whatever it answers, an honest disk reads as one of these too.
pub fn write_gated<D: Disk>(disk: &mut D, at: u64, text: &[u8]) -> Result<(), Failed>
    requires offsets { at + 1 + length text.now < 2 ^ 64 }
    requires gate_inside { IsTrue (D.state disk.old).tells_bytes → at < length (D.state disk.old).bytes }
    ensures gated { IsTrue (D.state disk.old).is_honest → LeavesGated at text.now (D.state disk.old) (D.state disk.new) }
    ensures written { OnOk result (HasWritten at (open_byte ∷ text.now) (D.state disk.old) (D.state disk.new)) }
    ensures ends { OnOk result (EndsSynced 4 (D.state disk.old) (D.state disk.new)) }
    ensures effect { Affects (span at (1 + length text.now)) (at + 1 + length text.now) 4 (D.state disk.old) (D.state disk.new) }
    ensures faults { TellsFaults result (D.state disk.old) (D.state disk.new) }
{
    write_through(disk, at + 1, text)?;
    write_through(disk, at, &[OPEN])?;
    Ok(())
}
