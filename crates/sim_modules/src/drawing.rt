ghost use Rattle.std.specs.Prelude.{◌≡◌};
ghost use Rattle.sim_modules.specs.Drawing.{drawn};

/// The number that is drawn behind `x` (this tool's profile, batch): what is left of
/// `x * 6364136223846793005 + 1442695040888963407` in 64 bits. A batch begins at its seed. Takes no memory.
pub fn draw(x: u64) -> u64
    ensures { result ≡ drawn x }
{
    x.wrapping_mul(6364136223846793005)
        .wrapping_add(1442695040888963407)
}
