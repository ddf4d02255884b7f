// Rows of slices: the first cells of one, or zeros, written over those of a slice; and one of those that lie packed in a slice.
#![tactic(auto)]

ghost use Rattle.std.specs.Prelude.{◌≡◌, ◌+◌, ◌*◌, ◌≤◌, length, pos};
ghost use Rattle.std.proofs.Math.Seq.{paste};
ghost use Rattle.integers.specs.Cells.{laid};
ghost use Rattle.tables.specs.Storage.{row_in};

// The first w cells of a row, written from `at` on.
pub fn paste<T: Copy>(cells: &mut [T], at: usize, row: &[T], w: usize)
    requires { (at + w ≤ length cells.old) × (w ≤ length row.now) }
    ensures { cells.new ≡ paste cells.old at row.now w }
{
    for x in 0..w {
        cells[at + x] = row[x];
    }
}

// Zeros, written over the first w cells.
pub fn clear(cells: &mut [i64], w: usize)
    requires { w ≤ length cells.old }
    ensures { cells.new ≡ laid w (λ i. pos 0) cells.old }
{
    cells[..w].fill(0);
}

// Row r of those of width w that lie one after the other.
pub fn row<'a, T>(cells: &'a [T], w: usize, r: usize) -> &'a [T]
    requires { (r + 1) * w ≤ length cells.now }
    ensures { result.now ≡ row_in w cells.now r }
{
    let at = r * w;
    &cells[at..at + w]
}
