// Bytes that are written over in place.
ghost use Rattle.std.specs.Prelude.{◌≡◌, ◌<◌, ◌≤◌, ◌+◌, ◌-◌, max, OnOk, OnErr, length, vec_len, vec_capacity};
ghost use Rattle.disk_trait.specs.Disk.{overwritten};

use refusal::NoMemory;

/// Writes over what is there, and past the end.
pub(crate) fn overwrite(bytes: &mut Vec<u8>, at: usize, from: &[u8]) -> Result<(), NoMemory>
    requires { at ≤ vec_len bytes.old }
    ensures ok { OnOk result (bytes.new.items ≡ overwritten bytes.old.items at from.now) }
    ensures err { OnErr result (bytes.new.items ≡ bytes.old.items) }
    ensures len { OnOk result (length bytes.new.items ≡ max (length bytes.old.items) (at + length from.now)) }
    ensures capacity { vec_capacity bytes.old ≤ vec_capacity bytes.new }
    ensures room { OnErr result (vec_capacity bytes.old < at + length from.now) }
{
    let inside = from.len().min(bytes.len() - at);
    // A copy of no bytes is a call too, and most writes end inside.
    if inside < from.len() {
        bytes.extend_from_slice(&from[inside..])?;
    }
    bytes[at..at + inside].copy_from_slice(&from[..inside]);
    Ok(())
}
