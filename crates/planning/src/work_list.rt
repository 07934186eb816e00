// The work list: distant pairs, then touching pairs.
ghost use Rattle.std.specs.Prelude.{◌≡◌, ℕ, ◌*◌, ◌+◌, ◌<◌, ◌≤◌, cond, eqb, get_or, length};
ghost use Rattle.grid.specs.Lent.{mesh_lent};
ghost use Rattle.grid.specs.Mesh.{most_cells};
ghost use Rattle.cells_by_key.specs.Groups.{kind_key};
ghost use Rattle.planning.specs.Work.{Ready, Grouping, Side, Keyable, SideGroups, Rising, Counts, Written};

use cells_by_key::{Groups, by_key};
use distant_pairs::write_distant;
use grid::{MOST_CELLS, Mesh, Rows, write_rows};
use numbers::wide;
use plans::KindPairs;
use touching_pairs::{TouchingEnds, write_touching};

// The colours of the cells on one side, and how many colours there are.
#[derive(Clone, Copy)]
pub(crate) struct Coloured<'a> {
    pub(crate) colours: &'a [u32],
    pub(crate) count: u32,
}

// How many pairs are distant, how many touching, and how many of these there are of each two kinds.
#[derive(Clone, Copy)]
pub(crate) struct PairCounts {
    pub(crate) distant: u32,
    pub(crate) touching: u32,
    pub(crate) pairs: KindPairs,
}

// The key by which a cell is grouped, of so many colours: its colour, for a quad behind those of the triangles. (A kind is a byte, as in the list that C
// lends.)
fn key_of(kind: u8, colour: u32, count: u32) -> u32
    requires { (colour < most_cells) × (count ≤ most_cells) }
    ensures { result ≡ colour + cond (eqb kind 4) count 0 }
{
    if kind == 4 { colour + count } else { colour }
}

// Writes the key of each cell. (The index reads two lists: after a zip of them with iter_mut nothing would be known of the keys.)
fn write_keys(kinds: &[u8], side: Coloured, keys: &mut [u32])
    requires { Keyable kinds.now side.colours.now side.count keys.old }
    ensures { (i : ℕ) → i < length kinds.now → get_or keys.new i 0 ≡ kind_key side.entry.count kinds.now side.entry.colours.now i }
{
    for (i, key) in keys.iter_mut().enumerate() {
        *key = key_of(kinds[i], side.colours[i], side.count);
    }
}

// The cells by kind and colour on one side, by way of the key of each.
fn group_cells<'a>(
    mesh: Mesh,
    side: Coloured,
    keys: &mut [u32],
    order: &'a mut [u32],
    ends: &'a mut [usize],
) -> Groups<'a>
    requires side { Side (mesh_lent mesh) side.colours.now side.count }
    requires keys { length keys.old ≡ mesh.sizes.cells }
    requires grouping { Grouping mesh.sizes.cells side.count order.old ends.old }
    ensures { SideGroups (mesh_lent mesh.entry) side.entry.colours.now result.order.now result.ends.now }
{
    write_keys(mesh.kinds, side, keys);
    by_key(keys, 1, ends, order);
    Groups { order, ends }
}

// How many pairs there are of each sort, by the places after the distant pairs and after the touching pairs of each two kinds.
fn counts_of(n: usize, ends: TouchingEnds) -> PairCounts
    requires { Rising n ends }
    ensures { Counts n ends result.distant result.touching result.pairs }
{
    PairCounts {
        distant: n as u32,
        touching: (ends.quad_quad - n) as u32,
        pairs: KindPairs {
            triangle_triangle: (ends.triangle_triangle - n) as u32,
            triangle_quad: (ends.triangle_quad - ends.triangle_triangle) as u32,
            quad_triangle: (ends.quad_triangle - ends.triangle_quad) as u32,
            quad_quad: (ends.quad_quad - ends.quad_triangle) as u32,
        },
    }
}

// Writes the work list; hands back how many pairs there are of each sort. The rows of the cells, the key of each and the cells by kind and colour are alive
// here alone.
#[inline(never)]
pub(crate) fn write_work(
    mesh: Mesh,
    batch: usize,
    tests: Coloured,
    trials: Coloured,
    work: &mut [u32],
) -> PairCounts
    requires { Ready (mesh_lent mesh) batch tests.colours.now tests.count trials.colours.now trials.count work.old }
    ensures { Written (mesh_lent mesh.entry) batch tests.entry.colours.now trials.entry.colours.now work.new result.distant result.touching result.pairs }
{
    let cells = wide(mesh.sizes.cells);
    // nothing is allocated: room for the most cells, and for their groups by kind and colour
    let mut rows = [0u32; 4 * MOST_CELLS];
    let mut keys = [0u32; MOST_CELLS];
    let mut test_order = [0u32; MOST_CELLS];
    let mut test_ends = [0usize; 2 * MOST_CELLS];
    let mut trial_order = [0u32; MOST_CELLS];
    let mut trial_ends = [0usize; 2 * MOST_CELLS];
    let rows = &mut rows[..4 * cells];
    let keys = &mut keys[..cells];
    write_rows(mesh.kinds, mesh.cell_vertices, mesh.sizes.vertices, rows);
    let test_groups = group_cells(
        mesh,
        tests,
        keys,
        &mut test_order[..cells],
        &mut test_ends[..2 * wide(tests.count)],
    );
    let trial_groups = group_cells(
        mesh,
        trials,
        keys,
        &mut trial_order[..cells],
        &mut trial_ends[..2 * wide(trials.count)],
    );
    let rows = Rows {
        rows,
        none: mesh.sizes.vertices,
    };
    let n = write_distant(rows, batch, test_groups, trial_groups, work);
    let ends = write_touching(rows, cells, work, n);
    counts_of(n, ends)
}
