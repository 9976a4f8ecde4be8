// Runs of cells: those from one index to before another.
ghost use Rattle.std.specs.Prelude.{◌≡◌, ℕ, ◌<◌, ◌≤◌, ◌^◌, true, false, length, slice_index_or};
ghost use Rattle.redraw_core.specs.Cells.{in_run, IsMarked, IsErased};

/// Makes the cells of the run true, and answers how many were false.
pub fn mark_run(cells: &mut [bool], from: usize, to: usize) -> u32
    requires order { from ≤ to }
    requires within { to ≤ length cells.old }
    requires small { length cells.old < 2 ^ 31 }
    ensures { IsMarked (in_run from to) result cells.old cells.new }
{
    let mut more = 0;
    for k in from..to {
        if !cells[k] {
            cells[k] = true;
            more += 1;
        }
    }
    more
}

/// Makes the cells of the run false, and answers how many were true.
pub fn erase_run(cells: &mut [bool], from: usize, to: usize) -> u32
    requires order { from ≤ to }
    requires within { to ≤ length cells.old }
    requires small { length cells.old < 2 ^ 31 }
    ensures { IsErased (in_run from to) result cells.old cells.new }
{
    let mut fewer = 0;
    for k in from..to {
        if cells[k] {
            cells[k] = false;
            fewer += 1;
        }
    }
    fewer
}

/// The index of the first true cell from `from` on, or the number of cells where there is none.
pub fn first_true(cells: &[bool], from: usize) -> usize
    requires { from ≤ length cells.now }
    ensures least { from ≤ result }
    ensures within { result ≤ length cells.now }
    ensures none { (k : ℕ) → from ≤ k → k < result → slice_index_or cells.now k false ≡ false }
    ensures some { result < length cells.now → slice_index_or cells.now result false ≡ true }
{
    for k in from..cells.len() {
        if cells[k] {
            return k;
        }
    }
    cells.len()
}

/// The end of the run of true cells from `from` on, or `most` where it goes on past that.
pub fn run_end(cells: &[bool], from: usize, most: usize) -> usize
    requires order { from ≤ most }
    requires within { most ≤ length cells.now }
    ensures least { from ≤ result }
    ensures most { result ≤ most }
    ensures all { (k : ℕ) → from ≤ k → k < result → slice_index_or cells.now k false ≡ true }
    ensures longest { result < most → slice_index_or cells.now result false ≡ false }
{
    for k in from..most {
        if !cells[k] {
            return k;
        }
    }
    most
}
