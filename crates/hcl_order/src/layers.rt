//! Distances between rows, layer by layer, to find a shortest cycle.
ghost use Rattle.std.specs.Prelude.{◌≡◌, ◌≢◌, ◌+◌, ◌<◌, ◌≤◌, ◌^◌, ◌-◌, ◌⊎◌, ℕ, length, replicate, slice_index, slice_set, true, false};
ghost use Rattle.hcl_types.specs.Lists.{IsIn};
ghost use Rattle.hcl_types.specs.Equations.{needs_of};
ghost use Rattle.hcl_order.specs.Layers.{IsLayered, IsNearest, IsWithin};

use y86_base::Items;

/// The least of these rows that has the mark, or the number of all rows if none of them has it.
pub fn least_marked(needs: &[u32], marks: &[u64], mark: u64) -> usize
    requires { (n : ℕ) → IsIn n needs.now → n < length marks.now }
    ensures has { (result ≡ length marks.now) ⊎ IsIn result needs.now }
    ensures marked { result < length marks.now → slice_index marks.now result ≡ mark }
    ensures least { (n : ℕ) → IsIn n needs.now → slice_index marks.now n ≡ mark → result ≤ n }
{
    let mut least = marks.len();
    for row in needs {
        let row = *row as usize;
        if marks[row] == mark {
            least = least.min(row);
        }
    }
    least
}

/// What a row needs.
pub fn needs_at(needs: &[Items<u32>], row: usize) -> &[u32]
    requires { row < length needs.now }
    ensures { result.now ≡ needs_of needs.now row }
{
    needs[row].items()
}

/// Whether a row has no mark and needs a row of the last layer.
fn is_next(needs: &[Items<u32>], marks: &[u64], row: usize, level: u64) -> bool
    requires within { IsWithin needs.now }
    requires size { length needs.now ≡ length marks.now }
    requires row { row < length needs.now }
    ensures yes { result ≡ true → (slice_index marks.now row ≡ 0)
        × ((c : ℕ) × IsIn c (needs_of needs.now row) × (slice_index marks.now c ≡ level)) }
    ensures no { result ≡ false → (0 < slice_index marks.now row)
        ⊎ ((c : ℕ) → IsIn c (needs_of needs.now row) → slice_index marks.now c ≢ level) }
{
    marks[row] == 0 && least_marked(needs_at(needs, row), marks, level) < marks.len()
}

/// Marks each row that has no mark and needs a row of the last layer. Returns whether there is any.
fn mark_layer(needs: &[Items<u32>], marks: &mut [u64], level: u64) -> bool
    requires within { IsWithin needs.now }
    requires size { length needs.now ≡ length marks.old }
    requires level { (0 < level) × (level < 2 ^ 64 - 1) }
    ensures { IsLayered (needs_of needs.now) level marks.old marks.new result (length marks.old) }
{
    let mut added = false;
    for row in 0..needs.len() {
        if is_next(needs, marks, row, level) {
            marks[row] = level + 1;
            added = true;
        }
    }
    added
}

/// Marks this row, and removes all other marks.
fn mark_first(marks: &mut [u64], row: usize)
    requires { row < length marks.old }
    ensures { marks.new ≡ slice_set (replicate (length marks.old) 0) row 1 }
{
    marks.fill(0);
    marks[row] = 1;
}

/// The number of rows of a shortest cycle through a row; 0 if there is none. If there is one, the marks then give the
/// distances to the row, with 1 for the row itself.
pub fn cycle_length(needs: &[Items<u32>], marks: &mut [u64], row: usize) -> u64
    requires within { IsWithin needs.now }
    requires size { length needs.now ≡ length marks.old }
    requires row { row < length needs.now }
    ensures size { length marks.new ≡ length marks.old }
    ensures nearest { IsNearest (needs_of needs.now) row result marks.new }
{
    mark_first(marks, row);
    let mut level = 1;
    while least_marked(needs_at(needs, row), marks, level) == marks.len() {
        if !mark_layer(needs, marks, level) {
            return 0;
        }
        level += 1;
    }
    level
}
