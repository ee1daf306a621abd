// A text: read whole, and its parts.
ghost use Rattle.std.specs.Prelude.{◌≤◌, length, IfOk};

use std::io;
use std::io::Read;

// Reads until the room is full or the input ends, as a read gives a part: what it put at the front.
pub(crate) fn read<'a>(input: &mut impl Read, room: &'a mut [u8]) -> io::Result<&'a [u8]>
    ensures { IfOk result (λ text. length text.now ≤ length room.old) }
{
    let mut done = 0;
    while done < room.len() {
        let n = input.read(&mut room[done..])?;
        if n == 0 {
            break;
        }
        done += n;
    }
    Ok(&room[..done])
}

// The first n octets; none where there are fewer.
pub(crate) fn front(octets: &[u8], n: usize) -> &[u8] {
    octets.get(..n).unwrap_or(&[])
}
