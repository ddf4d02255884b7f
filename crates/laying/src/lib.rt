// Writing a level over the slices of another.
#![tactic(auto)]

ghost use Rattle.std.specs.Prelude.{◌≡◌, ◌*◌, ◌≤◌, ◌<◌, length};
ghost use Rattle.integers.specs.Cells.{laid, laid_rows};
ghost use Rattle.tables.specs.Limits.{max_states, max_vectors};
ghost use Rattle.masks.specs.Masks.{mask_of, covered_in, masked_in};
ghost use Rattle.levels.specs.Storage.{cells};
ghost use Rattle.laying.specs.Steps.{Lays, laid_by};

use tables::{State, Vector, read};

// Masks over others, each without states that there are not.
fn lay_masks(masks: &mut [u64], new: &[u64], vectors: usize, n: usize)
    requires n_nonzero { (0 < n) × (n ≤ max_states) }
    requires vectors_in_bounds { (vectors ≤ length masks.old) × (vectors ≤ length new.now) }
    ensures { masks.new ≡ laid vectors (λ v. mask_of n (covered_in new.now v)) masks.old }
{
    for v in 0..vectors {
        masks[v] = masks::narrowed(new[v], n);
    }
}

// Entries over others, 0 where they are not covered.
fn lay_entries<'b>(
    entries: &mut [i64],
    newmasks: &'b [u64],
    newentries: &'b [i64],
    vectors: usize,
    n: usize,
)
    requires vectors_le_max_vectors { (vectors ≤ max_vectors) × (n ≤ max_states) }
    requires n_in_bounds { (vectors * n ≤ length entries.old) × ((vectors ≤ length newmasks.now) × (vectors * n ≤ length newentries.now)) }
    ensures { entries.new ≡ laid_rows vectors n (masked_in n newmasks.now newentries.now) entries.old }
{
    for v in 0..vectors {
        for s in 0..n {
            let at = read::row(v, n, s);
            entries[at] = masks::entry_at(newmasks, newentries, n, Vector(v), State(s));
        }
    }
}

// A level over the slices.
pub fn lay_level<'b>(
    n: usize,
    k: usize,
    actions: &mut [u8],
    choices: &mut [u16],
    masks: &mut [u64],
    entries: &mut [i64],
    corners: &mut [i64],
    weights: &mut [u32],
    values: &mut [i64],
    vectors: usize,
    points: usize,
    newactions: &'b [u8],
    newchoices: &'b [u16],
    newmasks: &'b [u64],
    newentries: &'b [i64],
    newcorners: &'b [i64],
    newweights: &'b [u32],
    newvalues: &'b [i64],
)
    requires lays { Lays n k vectors points actions.old choices.old masks.old entries.old corners.old weights.old values.old }
    requires lays_2 { Lays n k vectors points newactions.now newchoices.now newmasks.now newentries.now newcorners.now newweights.now
        newvalues.now }
    ensures { let new = cells newactions.now newchoices.now newmasks.now newentries.now
        newcorners.now newweights.now newvalues.now in
        let x = cells actions.old choices.old masks.old entries.old corners.old weights.old
        values.old in
        cells actions.new choices.new masks.new entries.new corners.new weights.new
        values.new
        ≡ laid_by n k vectors points new x }
{
    cells::paste(actions, 0, newactions, vectors);
    cells::paste(choices, 0, newchoices, vectors * k);
    lay_masks(masks, newmasks, vectors, n);
    lay_entries(entries, newmasks, newentries, vectors, n);
    cells::paste(corners, 0, newcorners, n);
    cells::paste(weights, 0, newweights, points * n);
    cells::paste(values, 0, newvalues, points);
}
