// Touching pairs (`get_pairs_if_smallest`): the pattern of two cells, their smallest shared vertex, and check 7. The cells are read from rows, four numbers a
// cell: the fourth of a triangle is `none`, the number of no vertex.
#![tactic(auto)]

mod shared; // shared.rt: cells of any kinds

ghost use Rattle.std.specs.Prelude.{◌≡◌, true, ℕ, ◌+◌, ◌*◌, ◌/◌, ◌^◌, ◌≤◌, ◌<◌, length, eqb};
ghost use Rattle.lists.specs.Bool.{◌and◌};
ghost use Rattle.lists.specs.Bounded.{all};
ghost use Rattle.grid.specs.Rows.{entity};
ghost use Rattle.grid.specs.RowsFacts.{Padded};
ghost use Rattle.grid.specs.Mesh.{most_cells, most_vertices};
ghost use Rattle.cell_pairs.specs.Records.{IsPattern};
ghost use Rattle.cells_by_key.specs.Groups.{Cells, Cut, Below, part};
ghost use Rattle.cell_patterns.specs.Flat.{distinct_in, pattern_in, smallest_in, pair_right, patterns_in};
ghost use Rattle.cell_patterns.specs.PatternFacts.{Apart, row_right, group_right};

use cells_by_key::{Groups, by_key};
use grid::{MOST_CELLS, MOST_VERTICES, Rows};
use numbers::wide;
use shared::{cells_pattern, cells_right};
use triangle_patterns::{triangles_pattern, triangles_right};

// ---- rows

// Whether cells i and j are both triangles.
fn both_triangles(rows: Rows, i: usize, j: usize) -> bool
    requires { (4 * i + 4 ≤ length rows.rows.now) × (4 * j + 4 ≤ length rows.rows.now) }
    ensures { result ≡ (eqb (entity rows.entry.rows.now i 3) rows.entry.none and eqb (entity rows.entry.rows.now j 3) rows.entry.none) }
{
    rows.is_triangle(i) & rows.is_triangle(j)
}

// The pattern of test cell i and trial cell j, if the table has it. No cell may have a vertex twice. (`pair_right` shares the `if`, and no more: a function of
// both would take a closure for each half, with a type and a clause for each, and both would still be written out in either caller.)
pub fn pattern_of(rows: Rows, i: usize, j: usize) -> Option<u32>
    requires i_in_bounds { (4 * i + 4 ≤ length rows.rows.now) × (4 * j + 4 ≤ length rows.rows.now) }
    requires i_value { (distinct_in rows.none rows.rows.now i ≡ true) × (distinct_in rows.none rows.rows.now j ≡ true) }
    ensures { IsPattern result (pattern_in rows.entry.none rows.entry.rows.now i j) }
{
    if both_triangles(rows, i, j) {
        triangles_pattern(rows, i, j)
    } else {
        cells_pattern(rows.cell(i), rows.cell(j))
    }
}

// The smallest vertex that cells i and j share, of those below top; top where they share none. With `none` as top, which is above all vertices, what stands in
// the fourth place of a triangle is no lower than what is found before it. A number and not an Option, since it is the least of a list that top begins.
pub fn smallest_shared(rows: Rows, top: usize, i: usize, j: usize) -> usize
    requires { (4 * i + 4 ≤ length rows.rows.now) × (4 * j + 4 ≤ length rows.rows.now) }
    ensures { result ≡ smallest_in top rows.entry.rows.now i j }
{
    let at = 4 * i;
    let mut smallest = top;
    for &x in &rows.rows[at..at + 4] {
        if rows.has_entity(j, x) {
            smallest = smallest.min(wide(x));
        }
    }
    smallest
}

// ---- check 7

// Whether cells i and j share no vertex or have a pattern.
fn pair_right(rows: Rows, i: usize, j: usize) -> bool
    requires i_in_bounds { (4 * i + 4 ≤ length rows.rows.now) × (4 * j + 4 ≤ length rows.rows.now) }
    requires apart { Apart rows.none rows.rows.now }
    ensures { result ≡ pair_right rows.entry.none rows.entry.rows.now i j }
{
    if both_triangles(rows, i, j) {
        triangles_right(rows, i, j)
    } else {
        cells_right(rows.cell(i), rows.cell(j))
    }
}

// Check 7 of test cell i against the cells of a list. (`coincident_cells::alone` has the same line with another test: what they share is the library's `all`.)
fn row_right(rows: Rows, cells: &[u32], i: usize) -> bool
    requires cells { Cells rows.rows.now cells.now }
    requires apart { Apart rows.none rows.rows.now }
    requires i_in_bounds { 4 * i + 4 ≤ length rows.rows.now }
    ensures { result ≡ row_right rows.entry.none rows.entry.rows.now cells.now i }
{
    cells.iter().all(|&j| pair_right(rows, i, wide(j)))
}

// Check 7 of the cells of a list against each other.
fn group_right(rows: Rows, cells: &[u32]) -> bool
    requires cells { Cells rows.rows.now cells.now }
    requires apart { Apart rows.none rows.rows.now }
    ensures { result ≡ group_right rows.entry.none rows.entry.rows.now cells.now }
{
    cells.iter().all(|&i| row_right(rows, cells, wide(i)))
}

// Check 7 of the cells at each vertex. The groups are the cells at vertex 0, then those at vertex 1 and so on.
fn groups_right(rows: Rows, groups: Groups) -> bool
    requires cut { Cut rows.rows.now groups.order.now groups.ends.now }
    requires apart { Apart rows.none rows.rows.now }
    requires none_in_bounds { rows.none ≤ length groups.ends.now }
    ensures { result ≡ all rows.entry.none (λ v. group_right rows.entry.none rows.entry.rows.now (part groups.entry.order.now groups.entry.ends.now v)) }
{
    (0..wide(rows.none)).all(|v| group_right(rows, groups.group(v)))
}

// Check 7: each ordered pair of cells that shares a vertex has a pattern of the table, by way of the cells at each vertex. The vertices of the cells are below
// `none`. The lists have fixed sizes, since nothing is allocated.
pub fn patterns_right(cells: usize, rows: Rows) -> bool
    requires rows_len { (length rows.rows.now ≡ 4 * cells) × (cells ≤ most_cells) × (rows.none ≤ most_vertices) }
    requires below { Below rows.rows.now (rows.none + 1) }
    requires padded { Padded rows.none rows.rows.now }
    requires by_index { (k : ℕ) → k < cells → distinct_in rows.none rows.rows.now k ≡ true }
    ensures { result ≡ patterns_in rows.entry.none cells rows.entry.rows.now }
{
    let n = 4 * cells;
    let groups = wide(rows.none) + 1;
    let mut order = [0; 4 * MOST_CELLS];
    let mut ends = [0; MOST_VERTICES + 1];
    let order = &mut order[..n];
    let ends = &mut ends[..groups];
    by_key(rows.rows, 4, ends, order);
    groups_right(rows, Groups { order, ends })
}
