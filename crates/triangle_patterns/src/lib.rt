// Two triangles that touch: their pattern, by the 27 cases of one and of two shared vertices, and check 7 of them. They are read from rows, whose first three
// numbers are the vertices.
#![tactic(auto)]

ghost use Rattle.std.specs.Prelude.{◌≡◌, true, ℕ, ◌+◌, ◌*◌, ◌≤◌, ◌<◌, length};
ghost use Rattle.grid.specs.Cells.{distinct};
ghost use Rattle.grid.specs.Rows.{entity};
ghost use Rattle.cell_pairs.specs.Patterns.{cells_pattern};
ghost use Rattle.cell_pairs.specs.Records.{IsPattern};
ghost use Rattle.cell_pairs.specs.Table.{pattern, number_of};
ghost use Rattle.cell_pairs.specs.MatchesFacts.{place, matches_at, Places};
ghost use Rattle.triangle_patterns.specs.Triangles.{three, cells_right};
ghost use Rattle.triangle_patterns.specs.TrianglesFacts.{three_pattern};

use grid::Rows;

// The place of the vertex x in a triangle, 3 where it has none. A number and not an Option, since it is two bits of a case, and three tests are no
// longer than a search.
fn place_of(rows: Rows, cell: usize, x: u32) -> u32
    requires { 4 * cell + 4 ≤ length rows.rows.now }
    ensures { result ≡ place (three rows.entry.rows.now cell) x }
{
    let at = 4 * cell;
    if rows.rows[at] == x {
        return 0;
    }
    if rows.rows[at + 1] == x {
        return 1;
    }
    if rows.rows[at + 2] == x {
        return 2;
    }
    3
}

// The pattern of three shared vertices; none where they stand in another order, and where none is shared.
fn all_three(a: u32, b: u32, c: u32) -> Option<u32>
    ensures { IsPattern result (three_pattern a b c) }
{
    if (a == 0) & (b == 1) & (c == 2) {
        Some(27)
    } else {
        None
    }
}

// The pattern of triangles whose trial vertices 0, 1 and 2 have the test places a, b and c, 3 for one that is not shared. A case is these three, two bits each,
// and beside it stands its list of (test place, trial place).
fn pattern_at(a: u32, b: u32, c: u32) -> Option<u32>
    requires { Places a b c }
    ensures { IsPattern result (number_of (pattern 3 3 (matches_at a b c))) }
{
    match 16 * a + 4 * b + c {
        0b00_11_11 => Some(0), // (0,0)
        0b11_00_11 => Some(1), // (0,1)
        0b11_11_00 => Some(2), // (0,2)
        0b01_11_11 => Some(3), // (1,0)
        0b11_01_11 => Some(4), // (1,1)
        0b11_11_01 => Some(5), // (1,2)
        0b10_11_11 => Some(6), // (2,0)
        0b11_10_11 => Some(7), // (2,1)
        0b11_11_10 => Some(8), // (2,2)
        0b11_01_10 => Some(9), // (1,1), (2,2)
        0b11_10_01 => Some(10), // (2,1), (1,2)
        0b01_11_10 => Some(11), // (1,0), (2,2)
        0b10_11_01 => Some(12), // (2,0), (1,2)
        0b01_10_11 => Some(13), // (1,0), (2,1)
        0b10_01_11 => Some(14), // (2,0), (1,1)
        0b11_00_10 => Some(15), // (0,1), (2,2)
        0b11_10_00 => Some(16), // (2,1), (0,2)
        0b00_11_10 => Some(17), // (0,0), (2,2)
        0b10_11_00 => Some(18), // (2,0), (0,2)
        0b00_10_11 => Some(19), // (0,0), (2,1)
        0b10_00_11 => Some(20), // (2,0), (0,1)
        0b11_00_01 => Some(21), // (0,1), (1,2)
        0b11_01_00 => Some(22), // (1,1), (0,2)
        0b00_11_01 => Some(23), // (0,0), (1,2)
        0b01_11_00 => Some(24), // (1,0), (0,2)
        0b00_01_11 => Some(25), // (0,0), (1,1)
        0b01_00_11 => Some(26), // (1,0), (0,1)
        _ => all_three(a, b, c),
    }
}

// The pattern of triangles i and j, if the table has it. Neither may have a vertex twice.
pub fn triangles_pattern(rows: Rows, i: usize, j: usize) -> Option<u32>
    requires i_in_bounds { (4 * i + 4 ≤ length rows.rows.now) × (4 * j + 4 ≤ length rows.rows.now) }
    requires i_value { (distinct (three rows.rows.now i) ≡ true) × (distinct (three rows.rows.now j) ≡ true) }
    ensures { IsPattern result (cells_pattern (three rows.entry.rows.now i) (three rows.entry.rows.now j)) }
{
    let at = 4 * j;
    let a = place_of(rows, i, rows.rows[at]);
    let b = place_of(rows, i, rows.rows[at + 1]);
    let c = place_of(rows, i, rows.rows[at + 2]);
    pattern_at(a, b, c)
}

// Check 7 of triangles i and j: the lists of two that share three vertices must be the same. The fourth number of row i is no vertex of j.
pub fn triangles_right(rows: Rows, i: usize, j: usize) -> bool
    requires i_in_bounds { (4 * i + 4 ≤ length rows.rows.now) × (4 * j + 4 ≤ length rows.rows.now) }
    requires i_value { (distinct (three rows.rows.now i) ≡ true) × (distinct (three rows.rows.now j) ≡ true) }
    requires by_index { (p : ℕ) → p < 3 → entity rows.rows.now j p ≡ entity rows.rows.now i 3 → ⊥ }
    ensures { result ≡ cells_right (three rows.entry.rows.now i) (three rows.entry.rows.now j) }
{
    let at = 4 * j;
    let x = rows.rows[at];
    if !rows.has_entity(i, x) {
        return true;
    }
    let y = rows.rows[at + 1];
    if !rows.has_entity(i, y) {
        return true;
    }
    let z = rows.rows[at + 2];
    if !rows.has_entity(i, z) {
        return true;
    }
    let own = 4 * i;
    (rows.rows[own] == x) & (rows.rows[own + 1] == y) & (rows.rows[own + 2] == z)
}
