//! Frames, byte by byte.

/// A select request with system bytes 1.
pub const SELECT: [u8; 14] = [0, 0, 0, 0x0A, 0xFF, 0xFF, 0, 0, 0, 1, 0, 0, 0, 1];

/// The response to it: accepted.
pub const SELECTED: [u8; 14] = [0, 0, 0, 0x0A, 0xFF, 0xFF, 0, 0, 0, 2, 0, 0, 0, 1];

/// S1F1 with the W-bit to device 0, under these system bytes.
pub fn are_you_there(system: u32) -> [u8; 14] {
    let [a, b, c, d] = system.to_be_bytes();
    [0, 0, 0, 0x0A, 0, 0, 0x81, 1, 0, 0, a, b, c, d]
}

/// S1F2 of device 0 under these system bytes: L[A GEM300, A 1.0.00].
pub fn here_i_am(system: u32) -> [u8; 32] {
    let [a, b, c, d] = system.to_be_bytes();
    [
        0, 0, 0, 0x1C, 0, 0, 1, 2, 0, 0, a, b, c, d, //
        1, 2, 0x41, 6, b'G', b'E', b'M', b'3', b'0', b'0', //
        0x41, 6, b'1', b'.', b'0', b'.', b'0', b'0',
    ]
}
