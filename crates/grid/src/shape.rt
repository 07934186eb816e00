// The shape of a cell: its kind says how many vertices it has, 3 or 4, and it has as many edges; and the vertices that each edge joins. Below, rows: four
// numbers a cell in a flat list.
ghost use Rattle.std.specs.Prelude.{◌≡◌, true, ◌+◌, ◌*◌, ◌≤◌, ◌<◌, length, get_or, eqb};
ghost use Rattle.std.proofs.lemmas.List.Edits.{sets};
ghost use Rattle.lists.specs.Bool.{◌or◌};
ghost use Rattle.lists.specs.Bounded.{all};
ghost use Rattle.numbers.specs.Ranges.{all_below};
ghost use Rattle.grid.specs.Cells.{before, own, has, distinct, ends_of, same_two, edge_joining};
ghost use Rattle.grid.specs.EdgesFacts.{edge_pairs};
ghost use Rattle.grid.specs.CellsFacts.{Shaped};
ghost use Rattle.grid.specs.Rows.{entity, row, rows_of, cell_in, fourth_or_first};
ghost use Rattle.grid.specs.RowsFacts.{filled};
ghost use Rattle.grid.specs.Mesh.{most_cells, most_vertices, cells_of, kinds_match};
ghost use Rattle.grid.specs.KindsFacts.{few};
ghost use Rattle.grid.specs.EdgeRule.{pair_key, cell_keys};

use crate::MOST_VERTICES;
use numbers::wide;

// The most vertices of a cell, and the most edges.
pub(crate) const MOST_CORNERS: usize = 4;

// The number of vertices of a cell of a kind, and of edges. A kind, here and below, is a byte of the list that C lends, and itself the number of the cell's
// vertices: with an enum each caller would have to make one of each byte first, and show that it is a kind.
pub fn corners_of(kind: u8) -> usize
    ensures { (result ≡ kind) × (result < 256) }
{
    kind as usize
}

// Whether each kind is 3 or 4. With no way out before the end, it is compiled to several comparisons at a time: by `all`, 10,244 instructions for 715 at 2,048
// cells.
pub(crate) fn kinds_known(kinds: &[u8]) -> bool
    ensures { result ≡ all (length kinds.now) (λ i. eqb (get_or kinds.now i 0) 3 or eqb (get_or kinds.now i 0) 4) }
{
    let mut known = true;
    for &kind in kinds {
        known &= (kind == 3) | (kind == 4);
    }
    known
}

// How many of few cells are of a kind, a byte as they are. Eight bits do, so that it is compiled to sixteen cells at a time, not four: by `filter` and
// `count`, 1,415 instructions for 33 at 128 cells.
fn count_few(kinds: &[u8], kind: u8) -> u8
    requires { length kinds.now ≤ few }
    ensures { result ≡ cells_of kinds.now kind }
{
    let mut count = 0;
    for &k in kinds {
        count += (k == kind) as u8;
    }
    count
}

// The most cells that are counted in eight bits.
const FEW: usize = 128;

// How many cells are of a kind, a byte as in their list.
pub fn count_kind(kinds: &[u8], kind: u8) -> u32
    requires { length kinds.now ≤ most_cells }
    ensures { result ≡ cells_of kinds.now kind }
{
    let mut count = 0;
    for few in kinds.chunks(FEW) {
        count += count_few(few, kind) as u32;
    }
    count
}

// Whether the first 4n cells are of a kind, a byte as in their list. With no way out before the end, as above, and a cell of each quarter at a time, so that
// there are fewer turns: one such loop over the whole list is plainer, and takes 530 instructions for 450 at 2,048 cells, in every call of a run; `all`, which
// `rest_are` has for the last three at most, would take 6,150.
fn quarters_are(kinds: &[u8], n: usize, kind: u8) -> bool
    requires { 4 * n ≤ length kinds.now }
    ensures { result ≡ all (4 * n) (λ i. eqb (get_or kinds.now i 0) kind) }
{
    let mut same = true;
    for i in 0..n {
        same = same
            & (kinds[i] == kind)
            & (kinds[n + i] == kind)
            & (kinds[2 * n + i] == kind)
            & (kinds[3 * n + i] == kind);
    }
    same
}

// Whether the cells of a list are of a kind, a byte as in the list.
fn rest_are(kinds: &[u8], kind: u8) -> bool
    ensures { result ≡ all (length kinds.now) (λ i. eqb (get_or kinds.now i 0) kind) }
{
    kinds.iter().all(|&k| k == kind)
}

// Whether all cells are of a kind, a byte as in their list.
fn all_are(kinds: &[u8], kind: u8) -> bool
    ensures { result ≡ all (length kinds.now) (λ i. eqb (get_or kinds.now i 0) kind) }
{
    let n = kinds.len() / 4;
    let end = 4 * n;
    quarters_are(kinds, n, kind) & rest_are(&kinds[end..], kind)
}

// Whether the kinds are those of so many cells, of which so many are triangles and so many quads. Of one kind alone, the list is not counted.
pub fn kinds_match(cells: u32, triangles: u32, quads: u32, kinds: &[u8]) -> bool
    requires { cells ≤ most_cells }
    ensures { result ≡ kinds_match cells triangles quads kinds.now }
{
    if kinds.len() != wide(cells) {
        return false;
    }
    if quads == 0 {
        return (triangles == cells) & all_are(kinds, 3);
    }
    if triangles == 0 {
        return (quads == cells) & all_are(kinds, 4);
    }
    let fours = count_kind(kinds, 4);
    kinds_known(kinds) & (triangles == cells - fours) & (quads == fours)
}

// How many vertices the cells have together, and edges.
pub(crate) fn count_places(kinds: &[u8]) -> usize
    requires { length kinds.now ≤ most_cells }
    ensures { result ≡ before own kinds.now (length kinds.now) }
{
    let mut at = 0;
    for &kind in kinds {
        at += corners_of(kind);
    }
    at
}

// The end of the numbers of a cell of a kind, a byte as in the list of kinds, that begin at a place.
pub(crate) fn end_of(kind: u8, at: usize) -> usize
    requires { at + kind ≤ 4 * most_cells }
    ensures { result ≡ at + kind }
{
    at + corners_of(kind)
}

// Whether no vertex stands twice in the cell. (This and the two functions below that write of a cell ask that it is of few numbers, and no type does: each cell
// is cut out of a list for one such call, and where it is cut out the fact would be shown as here.)
pub(crate) fn is_distinct(cell: &[u32]) -> bool
    requires { (3 ≤ length cell.now) × (length cell.now ≤ 4) }
    ensures { result ≡ distinct cell.now }
{
    let a = cell[0];
    let b = cell[1];
    let c = cell[2];
    let three = (a != b) & ((a != c) & (b != c));
    if cell.len() == 3 {
        three
    } else {
        let d = cell[3];
        three & ((a != d) & (b != d) & (c != d))
    }
}

// The key of two vertices is the smaller times this, plus the other.
pub(crate) const KEY_STEP: u32 = MOST_VERTICES as u32;

// The key of two vertices of a cell, by their places: the same in either order, and another for any other two.
fn pair_key(cell: &[u32], p: usize, q: usize) -> u32
    requires { (p < length cell.now) × (q < length cell.now) × (all_below cell.now most_vertices ≡ true) }
    ensures { result ≡ pair_key (get_or cell.now p 0) (get_or cell.now q 0) }
{
    let a = cell[p];
    let b = cell[q];
    KEY_STEP * a.min(b) + a.max(b)
}

// The two local vertices that each local edge joins.
const TRIANGLE_EDGES: [(u32, u32); 3] = [(1, 2), (0, 2), (0, 1)];

const QUAD_EDGES: [(u32, u32); 4] = [(0, 1), (0, 2), (1, 3), (2, 3)];

// Those of a cell of kind n, 3 or 4. (Here, in `edge_joining` and in `second_of` the kind is a u32, since it is the length of a cell, not a byte of the list
// of kinds.)
fn edges_of(n: u32) -> &'static [(u32, u32)]
    ensures { result.now ≡ edge_pairs n }
{
    if n == 3 { &TRIANGLE_EDGES } else { &QUAD_EDGES }
}

// Writes the keys of the two vertices that each edge of a cell joins, from a place on. (By the edge's number, which says where its key stands.)
pub(crate) fn write_cell_keys(cell: &[u32], keys: &mut [u32], at: usize)
    requires in_bounds { (3 ≤ length cell.now) × (length cell.now ≤ 4) }
    requires most_vertices_value { (all_below cell.now most_vertices ≡ true) × (at + length cell.now ≤ length keys.old) }
    ensures { keys.new ≡ sets keys.old at (cell_keys (length cell.now) cell.now) }
{
    for (e, &(p, q)) in edges_of(cell.len() as u32).iter().enumerate() {
        keys[at + e] = pair_key(cell, wide(p), wide(q));
    }
}

// Whether a local edge of the vertices p and q joins a and b.
fn joins(p: u32, q: u32, a: u32, b: u32) -> bool
    ensures { result ≡ same_two p q a b }
{
    ((p == a) & (q == b)) | ((p == b) & (q == a))
}

// The local edge of a cell of kind n, 3 or 4, that joins local vertices a and b; n where none does. No Option: the place of a pattern in its block is defined
// (`in_block`) by a number where no edge joins too, and the caller's contract tells that number, so it could not leave by `?`.
pub fn edge_joining(n: u32, a: u32, b: u32) -> u32
    requires { (3 ≤ n) × (n ≤ 4) }
    ensures { (result ≡ edge_joining n a b) × (result ≤ 4) }
{
    match edges_of(n).iter().position(|&(p, q)| joins(p, q, a, b)) {
        Some(e) => e as u32,
        None => n,
    }
}

// The second local vertex of local edge e of a cell of kind n; 0 where there is no such edge. No Option, for the same reason: the definition compares with 0
// there.
pub fn second_of(n: u32, e: u32) -> u32
    ensures { result ≡ (ends_of n e).second }
{
    match edges_of(n).get(wide(e)) {
        Some(&(_, q)) => q,
        None => 0,
    }
}

// Writes the row of a cell from a place on: its numbers, and `none` where these are three.
fn write_row(cell: &[u32], none: u32, rows: &mut [u32], at: usize)
    requires in_bounds { (3 ≤ length cell.now) × (length cell.now ≤ 4) }
    requires at_in_bounds { at + 4 ≤ length rows.old }
    ensures { rows.new ≡ sets rows.old at (filled none cell.now) }
{
    rows[at] = cell[0];
    rows[at + 1] = cell[1];
    rows[at + 2] = cell[2];
    if cell.len() == 3 {
        rows[at + 3] = none;
    } else {
        rows[at + 3] = cell[3];
    }
}

// Writes the rows of the cells, from the list of their own numbers. (The list is cut by the kinds, with the place moved on by hand, here, in `all_distinct`, in
// `write_keys` and in the numbering of the DOFs: each does another thing with the part, and an iterator of our own needs a contract longer than two lines.)
pub fn write_rows(kinds: &[u8], list: &[u32], none: u32, rows: &mut [u32])
    requires { Shaped kinds.now list.now × (length rows.old ≡ 4 * length kinds.now) }
    ensures { rows.new ≡ rows_of none kinds.now list.now (length kinds.now) }
{
    let mut at = 0;
    for (i, &kind) in kinds.iter().enumerate() {
        let end = end_of(kind, at);
        write_row(&list[at..end], none, rows, 4 * i);
        at = end;
    }
}

// The rows of the cells, and the number that stands in the fourth place of a triangle's. What else a function needs of rows it asks for itself: as a fact of
// this type it would be asked of every caller of these methods. (`none` is a number, and not an Option in each place: a row is four numbers of one flat list of
// fixed size, which Options would double, and it is as a number that the fourth is grouped with the others and compared.)
#[derive(Clone, Copy)]
pub struct Rows<'a> {
    pub rows: &'a [u32],
    pub none: u32,
}

impl<'a> Rows<'a> {
    // Whether cell i is a triangle.
    pub fn is_triangle(self, i: usize) -> bool
        requires { 4 * i + 4 ≤ length self.rows.now }
        ensures { result ≡ eqb (entity self.entry.rows.now i 3) self.entry.none }
    {
        self.rows[4 * i + 3] == self.none
    }

    // The numbers of cell i, three or four.
    pub fn cell(self, i: usize) -> &'a [u32]
        requires { 4 * i + 4 ≤ length self.rows.now }
        ensures { result.now ≡ cell_in self.entry.none self.entry.rows.now i }
    {
        let at = 4 * i;
        if self.is_triangle(i) {
            &self.rows[at..at + 3]
        } else {
            &self.rows[at..at + 4]
        }
    }

    // The fourth number of cell i, or where it has none its first again: so `none`, in the row of another cell, is none of the four.
    pub fn fourth_or_first(self, i: usize) -> u32
        requires { 4 * i + 4 ≤ length self.rows.now }
        ensures { result ≡ fourth_or_first self.entry.none self.entry.rows.now i }
    {
        let at = 4 * i;
        if self.is_triangle(i) {
            self.rows[at]
        } else {
            self.rows[at + 3]
        }
    }

    // Whether x is one of the four numbers of cell i's row.
    pub fn has_entity(self, i: usize, x: u32) -> bool
        requires { 4 * i + 4 ≤ length self.rows.now }
        ensures { result ≡ has (row self.entry.rows.now i) x }
    {
        let at = 4 * i;
        self.rows[at..at + 4].contains(&x)
    }
}
