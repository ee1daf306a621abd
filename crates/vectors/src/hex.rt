// Octets written as text, two hexadecimal digits each and a space between.

// A line writes so many octets at most.
pub(crate) const MOST: usize = 4096;

// The value of a digit. (`to_digit` would take small letters too.)
fn value(sign: u8) -> Option<u8> {
    match sign {
        b'0'..=b'9' => Some(sign - b'0'),
        b'A'..=b'F' => Some(sign - b'A' + 10),
        _ => None,
    }
}

// The octet of two digits, which a space, or a sign 0, may follow.
fn octet(digits: &[u8]) -> Option<u8> {
    match digits {
        [high, low] | [high, low, b' ' | 0] => Some(value(*high)? << 4 | value(*low)?),
        _ => None,
    }
}

// The octets that a text writes, at the front of the room; none where it is not written so, or writes more than there is room for.
pub(crate) fn read<'a>(text: &[u8], room: &'a mut [u8; MOST]) -> Option<&'a [u8]> {
    if text.len() % 3 != 2 {
        return None;
    }
    let size = text.len() / 3 + 1;
    let octets = room.get_mut(..size)?;
    for (place, digits) in octets.iter_mut().zip(text.chunks(3)) {
        *place = octet(digits)?;
    }
    Some(octets)
}
