// From the bytes of a job to the text that `worklist` prints.
ghost use Rattle.std.specs.Prelude.{◌≡◌, ◌*◌, ◌≤◌, min, length, take};
ghost use Rattle.grid.specs.Mesh.{triangles};
ghost use Rattle.grid.specs.Lent.{mesh_lent};
ghost use Rattle.planning.specs.Arguments.{planning_with};
ghost use Rattle.function.specs.Elements.{most_dim, dim};
ghost use Rattle.job.specs.Job.{most_worklist_cells};
ghost use Rattle.worklist_text.specs.Text.{numbers_planning, worklist};
ghost use Rattle.worklist_text.specs.PlannedText.{right_text};

use crate::Text;
use crate::text::{write_lines, write_refused};
use cell_pairs::WIDTH;
use function::{Element, Elements, MOST_DIM};
use grid::{Mesh, Sizes};
use integrands::{Integrand, Term};
use job::{JobNumbers, MOST_WORKLIST_CELLS, read_job};
use planning::{Assembly, plan};
use plans::PlanLists;

// The most cells of a job, places of a DOF list, and pairs of cells.
const CELLS: usize = MOST_WORKLIST_CELLS as usize;

const DOFS: usize = CELLS * MOST_DIM;

const PAIRS: usize = CELLS * CELLS;

// The most bytes of the text: a line of at most 12 for each pair.
pub const MOST_TEXT: usize = 12 * PAIRS;

// The kind of a triangle. (`oracle_runs` has the same line: no crate below both has a constant for it.)
const TRIANGLE: u8 = 3;

// The length of a DOF list. A dim above the most is refused before the lists' lengths are read.
fn dof_places(cells: u32, element: Element) -> usize
    requires { cells ≤ most_worklist_cells }
    ensures { (result ≡ cells * min most_dim (dim element)) × (result ≤ most_worklist_cells * most_dim) }
{
    cells as usize * element.dim(TRIANGLE).min(MOST_DIM)
}

// Writes the text of a planned mesh of triangles, with lists of the right lengths: the work list's lines, or what is refused.
fn write_mesh(text: &mut Text, mesh: Mesh, assembly: Assembly)
    requires { (mesh.sizes.cells ≤ most_worklist_cells) × (mesh.kinds.now ≡ triangles mesh.sizes.cells) }
    ensures { text.new.bytes ≡ right_text (planning_with (mesh_lent mesh.entry) assembly) }
{
    let cells = mesh.sizes.cells as usize;
    let rows = dof_places(mesh.sizes.cells, assembly.test.triangle);
    let columns = dof_places(mesh.sizes.cells, assembly.trial.triangle);
    // Of fixed size: a `Vec` may find no memory, and there is a text for every job. Planning is lent the front of each, of just the length that check 8 wants.
    let mut test_dofs = [0; DOFS];
    let mut trial_dofs = [0; DOFS];
    let mut test_colours = [0; CELLS];
    let mut trial_colours = [0; CELLS];
    let mut test_owners = [0; 3 * DOFS];
    let mut trial_owners = [0; 3 * DOFS];
    let mut work = [0; WIDTH * PAIRS];
    let mut lists = PlanLists {
        test_dofs: &mut test_dofs[..rows],
        trial_dofs: &mut trial_dofs[..columns],
        test_colours: &mut test_colours[..cells],
        trial_colours: &mut trial_colours[..cells],
        test_owners: &mut test_owners[..3 * rows],
        trial_owners: &mut trial_owners[..3 * columns],
        work: &mut work[..WIDTH * (cells * cells)],
    };
    match plan(mesh, assembly, &mut lists) {
        Ok(_) => write_lines(text, lists.work),
        Err(refusal) => write_refused(text, refusal.number()),
    }
}

// The same for the numbers of a job with one bare term of kind 0, whose vertices and edges stand at the front of these lists.
fn write_numbers(text: &mut Text, job: JobNumbers, vertex_list: &[u32], edge_list: &[u32])
    requires few { job.cells ≤ most_worklist_cells }
    requires room { (3 * most_worklist_cells ≤ length vertex_list.now) × (3 * most_worklist_cells ≤ length edge_list.now) }
    ensures { text.new.bytes ≡ right_text (numbers_planning job (take (3 * job.cells) vertex_list.now) (take (3 * job.cells) edge_list.now)) }
{
    let cells = job.cells as usize;
    let kinds = [TRIANGLE; CELLS];
    let mesh = Mesh {
        sizes: Sizes {
            cells: job.cells,
            vertices: job.vertices,
            edges: job.edges,
        },
        kinds: &kinds[..cells],
        cell_vertices: &vertex_list[..3 * cells],
        cell_edges: &edge_list[..3 * cells],
    };
    let assembly = Assembly {
        test: Elements::from(job.test),
        trial: Elements::from(job.trial),
        batch: job.batch,
        integrand: Integrand {
            terms: 1,
            first: Term::Bare(0),
            second: Term::Bare(0),
        },
    };
    write_mesh(text, mesh, assembly);
}

// Writes what `worklist` prints for these bytes, whatever stood in the text.
pub fn write_worklist(text: &mut Text, bytes: &[u8])
    ensures { text.new.bytes ≡ worklist bytes.now }
{
    // Of fixed size, for the most cells that a job may have: a `Vec` may find no memory, and there is a text for all bytes.
    let mut vertex_list = [0; 3 * CELLS];
    let mut edge_list = [0; 3 * CELLS];
    let limit = Some(MOST_WORKLIST_CELLS);
    match read_job(bytes, limit, &mut vertex_list, &mut edge_list) {
        Ok(job) => write_numbers(text, job, &vertex_list, &edge_list),
        Err(refusal) => write_refused(text, refusal.number()),
    }
}

// What `worklist` prints for these bytes, in a text of its own.
pub fn worklist_text(bytes: &[u8]) -> Text
    ensures { result.bytes ≡ worklist bytes.now }
{
    let mut text = Text::new();
    write_worklist(&mut text, bytes);
    text
}
