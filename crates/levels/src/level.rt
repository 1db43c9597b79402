//! Levels, and how far they stand above a base, modulo 2 ^ 64.
ghost use Rattle.std.specs.Prelude.{◌≡◌};
ghost use Rattle.levels.specs.Levels as spec;

/// How far a level stands above the base.
pub(crate) fn above(base: u64, level: u64) -> u64
    ensures { result ≡ spec.above base level }
{
    level.wrapping_sub(base)
}

/// One below a base or a level.
pub(crate) fn before(level: u64) -> u64
    ensures { result ≡ spec.before level }
{
    level.wrapping_sub(1)
}

/// One above a base or a level.
pub(crate) fn after(level: u64) -> u64
    ensures { result ≡ spec.after level }
{
    level.wrapping_add(1)
}
