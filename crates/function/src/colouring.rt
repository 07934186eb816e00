// The colours of the cells: cells rise, and each takes the smallest colour that no earlier cell sharing an entity has. The earlier cells that share
// one are found among the cells of each of its entities. (That the groups are of the cells by entity, and that cell i and those before it are there, each
// function asks by a record's name: the types `Rows` and `Groups` cannot hold it, since their methods ask for less.)
ghost use Rattle.std.specs.Prelude.{◌≡◌, not, ℕ, ◌+◌, ◌*◌, ◌<◌, ◌≤◌, length, get_or, eqb};
ghost use Rattle.lists.specs.Bounded.{least};
ghost use Rattle.grid.specs.Cells.{share_in};
ghost use Rattle.grid.specs.Rows.{share};
ghost use Rattle.grid.specs.RowsFacts.{Padded};
ghost use Rattle.grid.specs.Mesh.{most_cells, kinds_present};
ghost use Rattle.cells_by_key.specs.Groups.{ByEntity};
ghost use Rattle.function.specs.Colours.{taken, smallest, colours_to, colour_list, colour_count, Colourable};
ghost use Rattle.function.specs.ColoursFacts.{colour_to, Marked, Marks, Earlier, Listed};
ghost use Rattle.function.specs.Lent.{space_lent};

use super::Elements;
use cells_by_key::{Groups, by_key};
use grid::{MOST_CELLS, MOST_EDGES, Mesh, Rows, count_kind, write_rows};
use numbers::wide;

// Marks the colours of those cells of a list that are below i. A mark of cell i is i + 1, and 0 is none: an Option<usize> would take twice the fixed memory.
fn mark_colours(cells: &[u32], colours: &[u32], i: usize, marks: &mut [usize; MOST_CELLS])
    requires earlier { Earlier colours.now i }
    requires marks_len { length marks.old ≡ most_cells }
    ensures { Marked i (colour_to cells.now colours.now i (length cells.now)) marks.old marks.new }
{
    for &cell in cells {
        let j = wide(cell);
        if j < i {
            let at = wide(colours[j]);
            marks[at] = i + 1;
        }
    }
}

// Marks the colours of the cells before cell i that share an entity with it. The groups are of the cells by entity.
fn mark_sharing(
    rows: Rows,
    groups: Groups,
    colours: &[u32],
    i: usize,
    marks: &mut [usize; MOST_CELLS],
)
    requires by_entity { ByEntity rows.rows.now groups.order.now groups.ends.now × Padded rows.none rows.rows.now }
    requires i_in_bounds { 4 * i + 4 ≤ length rows.rows.now }
    requires earlier { Earlier colours.now i }
    requires marks_len { length marks.old ≡ most_cells }
    ensures { Marked i (taken (share rows.entry.none rows.entry.rows.now) colours.now i) marks.old marks.new }
{
    for &x in rows.cell(i) {
        mark_colours(groups.group(wide(x)), colours, i, marks);
    }
}

// The smallest colour below i that cell i has not marked, or i.
fn first_unmarked(marks: &[usize; MOST_CELLS], i: usize) -> usize
    requires { i < most_cells }
    ensures { result ≡ least i (λ c. not (eqb (get_or marks.now c 0) (i + 1))) }
{
    (0..i).find(|&c| marks[c] != i + 1).unwrap_or(i)
}

// The colour of cell i, from the colours of the cells before it.
fn next_colour(
    rows: Rows,
    groups: Groups,
    colours: &[u32],
    i: usize,
    marks: &mut [usize; MOST_CELLS],
) -> usize
    requires by_entity { ByEntity rows.rows.now groups.order.now groups.ends.now × Padded rows.none rows.rows.now }
    requires i_in_bounds { 4 * i + 4 ≤ length rows.rows.now }
    requires earlier { Earlier colours.now i }
    requires marks { Marks i marks.old }
    ensures value { result ≡ smallest (share rows.entry.none rows.entry.rows.now) colours.now i }
    ensures marks_2 { Marks (i + 1) marks.new }
{
    mark_sharing(rows, groups, colours, i, marks);
    first_unmarked(marks, i)
}

// The colours of all cells, by their rows and the cells by entity. The marks have a fixed size, since nothing is allocated. (By index: the list is
// read up to i while place i is written.)
fn colour_grouped(rows: Rows, groups: Groups, colours: &mut [u32])
    requires by_entity { ByEntity rows.rows.now groups.order.now groups.ends.now × Padded rows.none rows.rows.now }
    requires rows_len { (length rows.rows.now ≡ 4 * length colours.old) × (length colours.old ≤ most_cells) }
    ensures { colours.new ≡ colours_to (share rows.entry.none rows.entry.rows.now) (length colours.old) }
{
    let mut marks = [0usize; MOST_CELLS];
    for i in 0..colours.len() {
        let colour = next_colour(rows, groups, colours, i, &mut marks);
        colours[i] = colour as u32;
    }
}

// The colours of all cells, by the entities of one list, which are below top. The rows and the cells by entity are alive here alone, in lists
// of fixed sizes, since nothing is allocated.
fn colour_cells(kinds: &[u8], list: &[u32], top: u32, colours: &mut [u32])
    requires { Listed top kinds.now list.now colours.old }
    ensures { colours.new ≡ colours_to (share_in kinds.now list.now) (length colours.old) }
{
    let n = 4 * kinds.len();
    let groups = wide(top) + 1;
    let mut rows = [0; 4 * MOST_CELLS];
    let mut order = [0; 4 * MOST_CELLS];
    let mut ends = [0; MOST_EDGES + 1];
    let rows = &mut rows[..n];
    let order = &mut order[..n];
    let ends = &mut ends[..groups];
    write_rows(kinds, list, top, rows);
    by_key(rows, 4, ends, order);
    colour_grouped(Rows { rows, none: top }, Groups { order, ends }, colours);
}

// All colours 0: no two cells share.
fn colour_alone(colours: &mut [u32])
    ensures { colours.new ≡ colours_to eqb (length colours.old) }
{
    colours.fill(0);
}

// The first kind present, a byte as in the list that C lends: triangles first.
fn leading_kind(kinds: &[u8]) -> u8
    requires { length kinds.now ≤ most_cells }
    ensures { result ≡ get_or (kinds_present kinds.now) 0 3 }
{
    if 0 < count_kind(kinds, 3) {
        3
    } else if 0 < count_kind(kinds, 4) {
        4
    } else {
        3
    }
}

// By the entities of dimension 0 if a > 0, else 1 if b > 0, else 2, in the element of the first kind present.
fn colour_by_dimension(mesh: Mesh, elements: Elements, colours: &mut [u32])
    requires { Colourable mesh.sizes mesh.kinds.now mesh.cell_vertices.now mesh.cell_edges.now colours.old }
    ensures { colours.new ≡ colour_list (space_lent mesh.entry elements) mesh.entry.sizes.cells }
{
    let element = elements.of(leading_kind(mesh.kinds));
    if 0 < element.a {
        colour_cells(mesh.kinds, mesh.cell_vertices, mesh.sizes.vertices, colours);
    } else if 0 < element.b {
        colour_cells(mesh.kinds, mesh.cell_edges, mesh.sizes.edges, colours);
    } else {
        colour_alone(colours);
    }
}

// One more than the largest colour; 0 where there is none.
fn count_colours(colours: &[u32]) -> u32
    requires { (i : ℕ) → i < length colours.now → get_or colours.now i 0 < most_cells }
    ensures { result ≡ colour_count colours.now }
{
    let mut count = 0;
    for &colour in colours {
        count = count.max(colour + 1);
    }
    count
}

// Colours the cells, and hands back the number of colours.
pub fn cell_colouring(mesh: Mesh, elements: Elements, colours: &mut [u32]) -> u32
    requires { Colourable mesh.sizes mesh.kinds.now mesh.cell_vertices.now mesh.cell_edges.now colours.old }
    ensures colours_after { colours.new ≡ colour_list (space_lent mesh.entry elements) mesh.entry.sizes.cells }
    ensures value { result ≡ colour_count (colour_list (space_lent mesh.entry elements) mesh.entry.sizes.cells) }
{
    colour_by_dimension(mesh, elements, colours);
    count_colours(colours)
}
