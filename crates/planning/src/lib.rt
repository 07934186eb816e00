// Planning: from mesh, elements, batch size and integrand to the plan and its numbers.
#![tactic(auto)]

mod checks;
mod work_list;

ghost use Rattle.std.specs.Prelude.{◌≡◌, ◌*◌, length};
ghost use Rattle.grid.specs.Lent.{mesh_lent};
ghost use Rattle.function.specs.Lent.{space_lent};
ghost use Rattle.function.specs.Colours.{Colourable};
ghost use Rattle.dof_numbering.specs.Walk.{Sized};
ghost use Rattle.plans.specs.Planning.{plan, plan_numbers, plan_lists, written_lists, places_on};
ghost use Rattle.plans.specs.Accepted.{Accepted};
ghost use Rattle.plans.specs.Lent.{lists_lent, SameLists, planned_of};
ghost use Rattle.planning.specs.Arguments.{planning_with};
ghost use Rattle.planning.specs.Plan.{SideWritten};

use checks::plan_checked;
use dof_numbering::assign_dofs;
use function::{Elements, cell_colouring};
use grid::{Mesh, count_kind};
use integrands::Integrand;
use numbers::wide;
use plans::{PlanLists, PlanNumbers};
use refusals::Refusal;
use work_list::{Coloured, write_work};

// What is to be assembled on a mesh: the elements of both sides, the batch size and the integrand.
#[derive(Clone, Copy)]
pub struct Assembly {
    pub test: Elements,
    pub trial: Elements,
    pub batch: u32,
    pub integrand: Integrand,
}

// How many DOFs and how many colours there are on one side.
#[derive(Clone, Copy)]
struct SideCounts {
    dofs: u32,
    colours: u32,
}

// Writes the three lists of one side. Not inlined, nor what else has lists of its own here, so that those of one step are not on the stack with those of
// another.
#[inline(never)]
fn write_side(
    mesh: Mesh,
    elements: Elements,
    dofs: &mut [u32],
    owners: &mut [u32],
    colours: &mut [u32],
) -> SideCounts
    requires sized { Sized (space_lent mesh elements) mesh.sizes.cells }
    requires cells { length mesh.kinds.now ≡ mesh.sizes.cells }
    requires places { (length dofs.old ≡ places_on (mesh_lent mesh) elements) × (length owners.old ≡ 3 * places_on (mesh_lent mesh) elements) }
    requires colourable { Colourable mesh.sizes mesh.kinds.now mesh.cell_vertices.now mesh.cell_edges.now colours.old }
    ensures { SideWritten (space_lent mesh.entry elements) mesh.entry.sizes.cells owners.old dofs.new owners.new colours.new result.dofs result.colours }
{
    SideCounts {
        dofs: assign_dofs(mesh, elements, dofs, owners),
        colours: cell_colouring(mesh, elements, colours),
    }
}

// Writes the seven lists of a planning that no check turns down.
fn write_plan(mesh: Mesh, assembly: Assembly, lists: &mut PlanLists) -> PlanNumbers
    requires { Accepted (planning_with (mesh_lent mesh) assembly) (lists_lent lists.old) }
    ensures value { result ≡ plan_numbers (planning_with (mesh_lent mesh.entry) assembly) }
    ensures written { lists_lent lists.new ≡ written_lists (planning_with (mesh_lent mesh.entry) assembly) (lists_lent lists.old) }
    ensures same { SameLists lists.old lists.new }
{
    let test = write_side(
        mesh,
        assembly.test,
        lists.test_dofs,
        lists.test_owners,
        lists.test_colours,
    );
    let trial = write_side(
        mesh,
        assembly.trial,
        lists.trial_dofs,
        lists.trial_owners,
        lists.trial_colours,
    );
    // Three loans first: the borrow checker reads no list through `lists` while another is lent.
    let test_colours = &mut *lists.test_colours;
    let trial_colours = &mut *lists.trial_colours;
    let work = &mut *lists.work;
    let tests = Coloured {
        colours: test_colours,
        count: test.colours,
    };
    let trials = Coloured {
        colours: trial_colours,
        count: trial.colours,
    };
    let written = write_work(mesh, wide(assembly.batch), tests, trials, work);
    PlanNumbers {
        cells: mesh.sizes.cells,
        vertices: mesh.sizes.vertices,
        edges: mesh.sizes.edges,
        triangles: count_kind(mesh.kinds, 3),
        quads: count_kind(mesh.kinds, 4),
        touching: written.touching,
        distant: written.distant,
        pairs: written.pairs,
        rows: test.dofs,
        columns: trial.dofs,
        test: assembly.test,
        trial: assembly.trial,
        integrand: assembly.integrand,
    }
}

// Plans: checks 1, 26, 1 and 2 to 8 in this order, every check before the first write; then the seven lists and the numbers. A refused call leaves the lists as
// they were.
pub fn plan(mesh: Mesh, assembly: Assembly, lists: &mut PlanLists) -> Result<PlanNumbers, Refusal>
    ensures value { planned_of result ≡ plan (planning_with (mesh_lent mesh.entry) assembly) (lists_lent lists.old) }
    ensures written { lists_lent lists.new ≡ plan_lists (planning_with (mesh_lent mesh.entry) assembly) (lists_lent lists.old) }
    ensures same { SameLists lists.old lists.new }
{
    plan_checked(mesh, assembly, lists)?;
    Ok(write_plan(mesh, assembly, lists))
}
