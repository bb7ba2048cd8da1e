// Changes that somebody else makes to the bytes of a disk.
ghost use Rattle.std.specs.Prelude.{◌≡◌, ◌≤◌, ◌+◌, map, length, vec_len, vec_capacity};
ghost use Rattle.disk_trait.specs.Disk.{overwritten};
ghost use Rattle.disk_mem.specs.Recorded.{changed, changed_by};
ghost use Rattle.disk_mem.specs.Changes.{change_of};

/// Bytes that change before a call, as if somebody else wrote the disk.
#[derive(Drop)]
pub(crate) struct Poke {
    pub(crate) call: u64,
    pub(crate) at: u64,
    pub(crate) bytes: Vec<u8>,
}

// Writes over what is there.
fn put(bytes: &mut [u8], place: usize, from: &[u8])
    requires { place + length from.now ≤ length bytes.old }
    ensures { bytes.new ≡ overwritten bytes.old place from.now }
{
    bytes[place..place + from.len()].copy_from_slice(from);
}

// Puts the bytes at an offset. What lies past the end is left out.
fn change(bytes: &mut [u8], at: u64, new: &[u8])
    ensures { bytes.new ≡ changed bytes.old at new.now }
{
    let place = at as usize;
    if place < bytes.len() {
        let inside = new.len().min(bytes.len() - place);
        put(bytes, place, &new[..inside]);
    }
}

// Changes the bytes as the pokes before this call say.
fn change_by(bytes: &mut [u8], pokes: &[Poke], number: u64)
    ensures { bytes.new ≡ changed_by (map change_of pokes.now) number bytes.old }
{
    match pokes {
        [] => {}
        [first, rest @ ..] => {
            if first.call == number {
                change(bytes, first.at, &first.bytes);
            }
            change_by(bytes, rest, number);
        }
    }
}

/// Changes the bytes as the pokes before this call say. Their number and the room for them stay.
pub(crate) fn poke_bytes(bytes: &mut Vec<u8>, pokes: &[Poke], number: u64)
    ensures changed { bytes.new.items ≡ changed_by (map change_of pokes.now) number bytes.old.items }
    ensures len { length bytes.new.items ≡ length bytes.old.items }
    ensures capacity { vec_capacity bytes.new ≡ vec_capacity bytes.old }
{
    change_by(bytes, pokes, number);
}
