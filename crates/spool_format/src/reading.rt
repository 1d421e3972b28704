//! Reading the fields of a record: a byte, numbers, a kind, a flag, and a whole note.

ghost use Rattle.std.specs.Prelude.{true, ◌≡◌, ◌++◌, ◌∷◌, [], ◌+◌, ◌-◌, ◌*◌, ◌^◌, ◌<◌, ◌≤◌, ◌⊎◌, ℕ, List, length, take, slice_index, IfOk, OnOk, IfErr};
ghost use Rattle.outside.specs.Counts.{Rose};
ghost use Rattle.outside.specs.Disk.{HasAt};
ghost use Rattle.spool_format.specs.Faults.{Told};
ghost use Rattle.spool_format.specs.Format.{Fits, note_head, kind_byte, flag};
ghost use Rattle.spool_format.specs.Runs.{Quiet};
ghost use Rattle.spool_format.specs.Unread.{EndsAt, IsOther, IsKindByte, IsFlagByte, NoNote};
ghost use Rattle.std.specs.Int.{w32, w64, to_be_bytes};

use crate::fault::NvFault;
use hsms_frame::Bytes;
use outside::Disk;
use spool::{Kind, Note};
use std::alloc::Global;

// The byte at a place before `stop`.
pub(crate) fn byte_at<D: Disk>(disk: &mut D, at: u64, stop: u64) -> Result<u8, NvFault>
    ensures byte { IfOk result (λ b. D.tells disk.old ≡ true → HasAt (D.reads disk.old) at (b ∷ [])) }
    ensures before { OnOk result (at < stop) }
    ensures fault { IfErr result (Told (Rose (D.faults disk.old) (D.faults disk.new)) (λ place. D.tells disk.old ≡ true → EndsAt (D.reads disk.old) stop at 1 place)) }
    ensures quiet { D.tells disk.old ≡ true → Quiet D.reads D.leaves D.moment D.left_since disk.old disk.new }
    ensures tells { D.tells disk.new ≡ D.tells disk.old }
    ensures faults_stay { D.faults disk.old ≤ D.faults disk.new }
{
    if at >= stop {
        return Err(NvFault::Unread(at));
    }
    let mut one = [0u8; 1];
    match disk.read_at(at, &mut one) {
        Ok(0) => Err(NvFault::Unread(at)),
        Ok(_) => Ok(one[0]),
        Err(_) => Err(NvFault::Disk),
    }
}

// The bytes from a place on, all of them before `stop`.
fn bytes_at<D: Disk>(disk: &mut D, at: u64, stop: u64, buf: &mut [u8]) -> Result<(), NvFault>
    requires { at + length buf.old < 2 ^ 64 }
    ensures bytes { OnOk result (D.tells disk.old ≡ true → HasAt (D.reads disk.old) at buf.new) }
    ensures fit { OnOk result ((k : ℕ) → k < length buf.new → slice_index buf.new k < 256) }
    ensures before { OnOk result ((length buf.new ≡ 0) ⊎ (at + length buf.new ≤ stop)) }
    ensures fault { IfErr result (Told (Rose (D.faults disk.old) (D.faults disk.new))
        (λ place. D.tells disk.old ≡ true → EndsAt (D.reads disk.old) stop at (length buf.old) place)) }
    ensures quiet { D.tells disk.old ≡ true → Quiet D.reads D.leaves D.moment D.left_since disk.old disk.new }
    ensures tells { D.tells disk.new ≡ D.tells disk.old }
    ensures faults_stay { D.faults disk.old ≤ D.faults disk.new }
{
    for index in 0..buf.len() {
        buf[index] = byte_at(disk, at + index as u64, stop)?;
    }
    Ok(())
}

pub(crate) fn u64_at<D: Disk>(disk: &mut D, at: u64, stop: u64) -> Result<u64, NvFault>
    requires { at < 2 ^ 50 }
    ensures number { IfOk result (λ n. D.tells disk.old ≡ true → HasAt (D.reads disk.old) at (to_be_bytes w64 n)) }
    ensures small { IfOk result (λ n. n < 2 ^ 64) }
    ensures before { OnOk result (at + 8 ≤ stop) }
    ensures fault { IfErr result (Told (Rose (D.faults disk.old) (D.faults disk.new))
        (λ place. D.tells disk.old ≡ true → EndsAt (D.reads disk.old) stop at 8 place)) }
    ensures quiet { D.tells disk.old ≡ true → Quiet D.reads D.leaves D.moment D.left_since disk.old disk.new }
    ensures tells { D.tells disk.new ≡ D.tells disk.old }
    ensures faults_stay { D.faults disk.old ≤ D.faults disk.new }
{
    let mut buf = [0u8; 8];
    bytes_at(disk, at, stop, &mut buf)?;
    Ok(u64::from_be_bytes(buf))
}

pub(crate) fn u32_at<D: Disk>(disk: &mut D, at: u64, stop: u64) -> Result<u32, NvFault>
    requires { at < 2 ^ 50 }
    ensures number { IfOk result (λ n. D.tells disk.old ≡ true → HasAt (D.reads disk.old) at (to_be_bytes w32 n)) }
    ensures small { IfOk result (λ n. n < 2 ^ 32) }
    ensures before { OnOk result (at + 4 ≤ stop) }
    ensures fault { IfErr result (Told (Rose (D.faults disk.old) (D.faults disk.new))
        (λ place. D.tells disk.old ≡ true → EndsAt (D.reads disk.old) stop at 4 place)) }
    ensures quiet { D.tells disk.old ≡ true → Quiet D.reads D.leaves D.moment D.left_since disk.old disk.new }
    ensures tells { D.tells disk.new ≡ D.tells disk.old }
    ensures faults_stay { D.faults disk.old ≤ D.faults disk.new }
{
    let mut buf = [0u8; 4];
    bytes_at(disk, at, stop, &mut buf)?;
    Ok(u32::from_be_bytes(buf))
}

fn kind_at<D: Disk>(disk: &mut D, at: u64, stop: u64) -> Result<Kind, NvFault>
    ensures kind { IfOk result (λ kind. D.tells disk.old ≡ true → HasAt (D.reads disk.old) at (kind_byte kind ∷ [])) }
    ensures before { OnOk result (at < stop) }
    ensures fault { IfErr result (Told (Rose (D.faults disk.old) (D.faults disk.new)) (λ place. D.tells disk.old ≡ true → EndsAt (D.reads disk.old) stop at 1 place ⊎ IsOther IsKindByte (D.reads disk.old) stop at place)) }
    ensures quiet { D.tells disk.old ≡ true → Quiet D.reads D.leaves D.moment D.left_since disk.old disk.new }
    ensures tells { D.tells disk.new ≡ D.tells disk.old }
    ensures faults_stay { D.faults disk.old ≤ D.faults disk.new }
{
    let byte = byte_at(disk, at, stop)?;
    match byte {
        0 => Ok(Kind::Event),
        1 => Ok(Kind::Alarm),
        _ => Err(NvFault::Unread(at)),
    }
}

pub(crate) fn flag_at<D: Disk>(disk: &mut D, at: u64, stop: u64) -> Result<bool, NvFault>
    ensures flag { IfOk result (λ b. D.tells disk.old ≡ true → HasAt (D.reads disk.old) at (flag b ∷ [])) }
    ensures before { OnOk result (at < stop) }
    ensures fault { IfErr result (Told (Rose (D.faults disk.old) (D.faults disk.new)) (λ place. D.tells disk.old ≡ true → EndsAt (D.reads disk.old) stop at 1 place ⊎ IsOther IsFlagByte (D.reads disk.old) stop at place)) }
    ensures quiet { D.tells disk.old ≡ true → Quiet D.reads D.leaves D.moment D.left_since disk.old disk.new }
    ensures tells { D.tells disk.new ≡ D.tells disk.old }
    ensures faults_stay { D.faults disk.old ≤ D.faults disk.new }
{
    let byte = byte_at(disk, at, stop)?;
    match byte {
        0 => Ok(false),
        1 => Ok(true),
        _ => Err(NvFault::Unread(at)),
    }
}

// A text of a length.
fn text_at<D: Disk>(
    alloc: Global,
    disk: &mut D,
    at: u64,
    stop: u64,
    len: u32,
) -> Result<Vec<u8>, NvFault>
    requires { at < 2 ^ 50 }
    ensures text { IfOk result (λ text. D.tells disk.old ≡ true → HasAt (D.reads disk.old) at text.items) }
    ensures len { IfOk result (λ text. length text.items ≡ len) }
    ensures before { OnOk result ((len ≡ 0) ⊎ (at + len ≤ stop)) }
    ensures fault { IfErr result (Told (Rose (D.faults disk.old) (D.faults disk.new))
        (λ place. D.tells disk.old ≡ true → EndsAt (D.reads disk.old) stop at len place)) }
    ensures quiet { D.tells disk.old ≡ true → Quiet D.reads D.leaves D.moment D.left_since disk.old disk.new }
    ensures tells { D.tells disk.new ≡ D.tells disk.old }
    ensures faults_stay { D.faults disk.old ≤ D.faults disk.new }
{
    let mut text = Vec::new(alloc);
    for index in 0..len {
        let byte = byte_at(disk, at + index as u64, stop)?;
        if text.push(byte).is_err() {
            return Err(NvFault::NoMemory);
        }
    }
    Ok(text)
}

// The note behind the overwrite byte of its record. Where there is none, the place is that of its first byte that is missing, or of its first
// field that is wrong.
pub(crate) fn note_at<D: Disk>(
    alloc: Global,
    disk: &mut D,
    at: u64,
    stop: u64,
) -> Result<Note, NvFault>
    requires far { at < 2 ^ 49 }
    requires before { at ≤ stop }
    ensures note { IfOk result (λ note. D.tells disk.old ≡ true → HasAt (D.reads disk.old) at (note_head note ++ note.text)) }
    ensures fits { IfOk result Fits }
    ensures before { IfOk result (λ note. at + (17 + length note.text) ≤ stop) }
    ensures fault { IfErr result (Told (Rose (D.faults disk.old) (D.faults disk.new)) (λ place. D.tells disk.old ≡ true → NoNote (D.reads disk.old) at stop place)) }
    ensures quiet { D.tells disk.old ≡ true → Quiet D.reads D.leaves D.moment D.left_since disk.old disk.new }
    ensures tells { D.tells disk.new ≡ D.tells disk.old }
    ensures faults_stay { D.faults disk.old ≤ D.faults disk.new }
{
    let number = u64_at(disk, at, stop)?;
    let kind = kind_at(disk, at + 8, stop)?;
    let id = u32_at(disk, at + 9, stop)?;
    let len = u32_at(disk, at + 13, stop)?;
    if len > 87_000 {
        return Err(NvFault::Unread(at + 13));
    }
    let text = text_at(alloc, disk, at + 17, stop, len)?;
    Ok(Note {
        number,
        kind,
        id,
        text: Bytes::from_vec(text),
    })
}
