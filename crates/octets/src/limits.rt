// The limits of M, the most octets that a packet of a channel may have: those of the shortest space packet and of the longest.
pub const LEAST: usize = 7;

pub const MOST: usize = 65542;
