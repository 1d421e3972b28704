//! Where the records stand.

ghost use Rattle.std.specs.Prelude.{◌≡◌, ◌⊎◌, ◌↔◌, ◌+◌, ◌*◌, ◌^◌, ◌<◌, ◌≤◌, ℕ, IsTrue, IsFalse};
ghost use Rattle.spool_format.specs.Format.{IsSize, half_start};

/// Where the records stand: how many bytes a half has, the selector of the half that is read, and where in that half the records end.
#[derive(Clone, Copy)]
pub struct Place {
    pub half: u64,
    pub selector: u8,
    pub end: u64,
}

/// Where the half begins that a selector names.
pub fn half_start(half: u64, selector: u8) -> u64
    requires { half < 2 ^ 40 }
    ensures start { (capacity : ℕ) → result ≡ half_start (record { capacity = capacity; half = half }) selector }
    ensures far { result ≤ 13 + half }
{
    if selector % 2 == 0 { 13 } else { 13 + half }
}

/// Whether there may be so many notes.
pub fn is_capacity(capacity: u32) -> bool
    ensures yes { IsTrue result → (1 ≤ capacity) × (capacity ≤ 65536) }
    ensures no { IsFalse result → (capacity < 1) ⊎ (65536 < capacity) }
{
    capacity >= 1 && capacity <= 65_536
}

/// Whether a half for so many notes may have so many bytes.
pub fn is_half(capacity: u32, half: u64) -> bool
    ensures yes { IsTrue result → ((capacity + 1) * 87020 + 1 ≤ half) × (half < 2 ^ 40) }
    ensures no { IsFalse result → (half < (capacity + 1) * 87020 + 1) ⊎ (2 ^ 40 ≤ half) }
{
    half > (u64::from(capacity) + 1) * 87_020 && half < 1 << 40
}

/// Whether a durable spool may have room for so many notes, and halves of so many bytes.
pub fn is_size(capacity: u32, half: u64) -> bool
    ensures { IsTrue result → IsSize (record { capacity = capacity; half = half }) }
{
    is_capacity(capacity) && is_half(capacity, half)
}
