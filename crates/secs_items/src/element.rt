ghost use Rattle.std.specs.Prelude.{◌≡◌, ◌<◌, ◌≤◌, List, ℕ, [], ◌∷◌, ◌++◌, length, OnOk, OnErr, if◌then◌else◌};
ghost use Rattle.std.specs.Int.{w8, w16, w32, w64, to_be_bytes, cast_unsigned, cast_signed};
ghost use Rattle.std.proofs.Common.{lit<};
ghost use Rattle.byteorder.specs.Endian.{big_number};
ghost use Rattle.item_model.specs.Reading.{truth_in};

use byteorder::{BigEndian, ByteOrder};
use std::alloc::AllocError;

// An element that is spelled in a fixed number of bytes, the most significant first.
pub(crate) trait Element: Copy {
    // The number of bytes.
    const WIDTH: usize;

    ghost WIDTH: { ℕ };

    ghost spelled: { Self → List ℕ };

    ghost read_from: { List ℕ → Self };

    // Appends the bytes of the element.
    fn write(self, out: &mut Vec<u8>) -> Result<(), AllocError>
        ensures ok { OnOk result (out.new.items ≡ out.old.items ++ spelled self) }
        ensures err { OnErr result (out.new.items ≡ out.old.items) };

    // Reads the element at the front.
    fn read(bytes: &[u8]) -> Self
        requires { WIDTH ≤ length bytes.now }
        ensures { result ≡ read_from bytes.now };

    ghost wide: { 0 < WIDTH };
}

impl Element for bool {
    const WIDTH: usize = 1;

    ghost WIDTH = { 1 };

    ghost spelled = { λ b. (if b then 1 else 0) ∷ [] };

    ghost read_from = { truth_in };

    fn write(self, out: &mut Vec<u8>) -> Result<(), AllocError> {
        out.extend_from_slice(&[u8::from(self)])
    }

    fn read(bytes: &[u8]) -> bool {
        bytes[0] != 0
    }

    ghost wide = { lit< tt };
}

impl Element for i8 {
    const WIDTH: usize = 1;

    ghost WIDTH = { 1 };

    ghost spelled = { λ z. to_be_bytes w8 (cast_unsigned w8 z) };

    ghost read_from = { λ bytes. cast_signed w8 (big_number 1 bytes) };

    fn write(self, out: &mut Vec<u8>) -> Result<(), AllocError> {
        out.extend_from_slice(&[self.cast_unsigned()])
    }

    fn read(bytes: &[u8]) -> i8 {
        bytes[0].cast_signed()
    }

    ghost wide = { lit< tt };
}

impl Element for i16 {
    const WIDTH: usize = 2;

    ghost WIDTH = { 2 };

    ghost spelled = { λ z. to_be_bytes w16 (cast_unsigned w16 z) };

    ghost read_from = { λ bytes. cast_signed w16 (big_number 2 bytes) };

    fn write(self, out: &mut Vec<u8>) -> Result<(), AllocError> {
        let mut bytes = [0; 2];
        BigEndian::write_i16(&mut bytes, self);
        out.extend_from_slice(&bytes)
    }

    fn read(bytes: &[u8]) -> i16 {
        BigEndian::read_i16(bytes)
    }

    ghost wide = { lit< tt };
}

impl Element for i32 {
    const WIDTH: usize = 4;

    ghost WIDTH = { 4 };

    ghost spelled = { λ z. to_be_bytes w32 (cast_unsigned w32 z) };

    ghost read_from = { λ bytes. cast_signed w32 (big_number 4 bytes) };

    fn write(self, out: &mut Vec<u8>) -> Result<(), AllocError> {
        let mut bytes = [0; 4];
        BigEndian::write_i32(&mut bytes, self);
        out.extend_from_slice(&bytes)
    }

    fn read(bytes: &[u8]) -> i32 {
        BigEndian::read_i32(bytes)
    }

    ghost wide = { lit< tt };
}

impl Element for i64 {
    const WIDTH: usize = 8;

    ghost WIDTH = { 8 };

    ghost spelled = { λ z. to_be_bytes w64 (cast_unsigned w64 z) };

    ghost read_from = { λ bytes. cast_signed w64 (big_number 8 bytes) };

    fn write(self, out: &mut Vec<u8>) -> Result<(), AllocError> {
        let mut bytes = [0; 8];
        BigEndian::write_i64(&mut bytes, self);
        out.extend_from_slice(&bytes)
    }

    fn read(bytes: &[u8]) -> i64 {
        BigEndian::read_i64(bytes)
    }

    ghost wide = { lit< tt };
}

impl Element for u16 {
    const WIDTH: usize = 2;

    ghost WIDTH = { 2 };

    ghost spelled = { to_be_bytes w16 };

    ghost read_from = { big_number 2 };

    fn write(self, out: &mut Vec<u8>) -> Result<(), AllocError> {
        let mut bytes = [0; 2];
        BigEndian::write_u16(&mut bytes, self);
        out.extend_from_slice(&bytes)
    }

    fn read(bytes: &[u8]) -> u16 {
        BigEndian::read_u16(bytes)
    }

    ghost wide = { lit< tt };
}

impl Element for u32 {
    const WIDTH: usize = 4;

    ghost WIDTH = { 4 };

    ghost spelled = { to_be_bytes w32 };

    ghost read_from = { big_number 4 };

    fn write(self, out: &mut Vec<u8>) -> Result<(), AllocError> {
        let mut bytes = [0; 4];
        BigEndian::write_u32(&mut bytes, self);
        out.extend_from_slice(&bytes)
    }

    fn read(bytes: &[u8]) -> u32 {
        BigEndian::read_u32(bytes)
    }

    ghost wide = { lit< tt };
}

impl Element for u64 {
    const WIDTH: usize = 8;

    ghost WIDTH = { 8 };

    ghost spelled = { to_be_bytes w64 };

    ghost read_from = { big_number 8 };

    fn write(self, out: &mut Vec<u8>) -> Result<(), AllocError> {
        let mut bytes = [0; 8];
        BigEndian::write_u64(&mut bytes, self);
        out.extend_from_slice(&bytes)
    }

    fn read(bytes: &[u8]) -> u64 {
        BigEndian::read_u64(bytes)
    }

    ghost wide = { lit< tt };
}
