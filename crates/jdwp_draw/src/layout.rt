//! Where what is drawn stands.
ghost use Rattle.std.specs.Prelude.{◌≡◌};
ghost use Rattle.jdwp_draw.specs.Layout as layout;

/// How many characters of a line are drawn at most.
pub(crate) const LABEL_MOST: usize = 95;

/// The top of a row, from 0.
pub(crate) fn row_top(index: usize) -> u128
    ensures { result ≡ layout.row_top index }
{
    260 + 34 * u128::from(index as u64)
}

/// The left side of a column, from 0.
pub(crate) fn column_left(index: usize) -> u128
    ensures { result ≡ layout.column_left index }
{
    830 + 80 * u128::from(index as u64)
}
