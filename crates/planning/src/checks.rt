// Checks 1, 26, 1 and 2 to 8, in this order.
ghost use Rattle.std.specs.Prelude.{◌≡◌, ◌*◌, ◌≤◌};
ghost use Rattle.grid.specs.Lent.{mesh_lent};
ghost use Rattle.grid.specs.Mesh.{most_cells};
ghost use Rattle.grid.specs.Facts.{Fine};
ghost use Rattle.function.specs.Elements.{most_dim};
ghost use Rattle.cell_pairs.specs.Patterns.{patterns_right};
ghost use Rattle.refusals.specs.Numbers.{told};
ghost use Rattle.plans.specs.Planning.{batch_right, plan_refusal};
ghost use Rattle.plans.specs.Lent.{lists_lent};
ghost use Rattle.planning.specs.Arguments.{planning_with};
ghost use Rattle.planning.specs.Facts.{lengths_by};

use crate::Assembly;
use cell_pairs::WIDTH;
use cell_patterns::patterns_right;
use function::dims_right;
use grid::{MOST_CELLS, Mesh, Rows, count_kind, mesh_refusal, write_rows};
use integrands::integrand_right;
use numbers::wide;
use plans::PlanLists;
use refusals::Refusal;

// The largest batch.
const MOST_BATCH: u32 = 65535;

// Check 5.
fn batch_right(batch: u32) -> bool
    ensures { result ≡ batch_right batch }
{
    (1..=MOST_BATCH).contains(&batch)
}

// Check 8, of so many cells, which have so many places of DOFs on either side.
fn lengths_right(cells: u32, rows: usize, columns: usize, lists: &PlanLists) -> bool
    requires { (cells ≤ most_cells) × (rows ≤ most_cells * most_dim) × (columns ≤ most_cells * most_dim) }
    ensures { result ≡ lengths_by cells rows columns (lists_lent lists.now) }
{
    let c = wide(cells);
    (lists.test_dofs.len() == rows)
        & (lists.trial_dofs.len() == columns)
        & (lists.test_colours.len() == c)
        & (lists.trial_colours.len() == c)
        & (lists.test_owners.len() == 3 * rows)
        & (lists.trial_owners.len() == 3 * columns)
        & (lists.work.len() == WIDTH * (c * c))
}

// Check 7, by way of the rows of the cells.
#[inline(never)]
fn cells_right(mesh: Mesh) -> bool
    requires { Fine (mesh_lent mesh) }
    ensures { result ≡ patterns_right (mesh_lent mesh.entry) }
{
    // nothing is allocated: room for the rows of the most cells
    let mut rows = [0u32; 4 * MOST_CELLS];
    let rows = &mut rows[..4 * wide(mesh.sizes.cells)];
    write_rows(mesh.kinds, mesh.cell_vertices, mesh.sizes.vertices, rows);
    patterns_right(
        wide(mesh.sizes.cells),
        Rows {
            rows,
            none: mesh.sizes.vertices,
        },
    )
}

// The first check that turns planning down, if any.
pub(crate) fn plan_checked(mesh: Mesh, assembly: Assembly, lists: &PlanLists) -> Result<(), Refusal>
    ensures { told result ≡ plan_refusal (planning_with (mesh_lent mesh.entry) assembly) (lists_lent lists.now) }
{
    mesh_refusal(mesh)?;
    let triangles = count_kind(mesh.kinds, 3);
    let quads = count_kind(mesh.kinds, 4);
    if !dims_right(triangles, quads, assembly.test, assembly.trial) {
        return Err(Refusal::Dim);
    }
    if !batch_right(assembly.batch) {
        return Err(Refusal::Batch);
    }
    if !integrand_right(assembly.integrand) {
        return Err(Refusal::Integrand);
    }
    if !cells_right(mesh) {
        return Err(Refusal::Pattern);
    }
    let rows = assembly.test.places(triangles, quads);
    let columns = assembly.trial.places(triangles, quads);
    if !lengths_right(mesh.sizes.cells, rows, columns, lists) {
        return Err(Refusal::ListLength);
    }
    Ok(())
}
