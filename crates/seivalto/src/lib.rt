// The C interface: planning, the calls of a run and sparse rows, for a C or a Rust program to link. `host/include/seivalto.h` declares it: so each list is a
// parameter of its own, however many there are, a refusal is a number, and a run is passed and handed back by value.
#![tactic(auto)]

mod adds;
mod sparse;

ghost use Rattle.std.specs.Prelude.{◌≡◌};
ghost use Rattle.grid.specs.Mesh.{sizes_of, mesh_with};
ghost use Rattle.plans.specs.Planning.{planning_of, lists_of, plan, plan_lists};
ghost use Rattle.runs.specs.Runs.{plan_of, begin, begin_entries, look};
ghost use Rattle.c_forms.specs.Forms.{integrand_of, numbers_of, run_of, c_planned, c_run, c_looked};

use boundary_assemblers::Run;
use c_forms::{CIntegrand, CLooked, CNumbers, CPlanned, CRun, c_looked, c_planned, c_run};
use function::Elements;
use grid::{Mesh, Sizes};
use integrands::Integrand;
use planning::{Assembly, plan};
use plans::{Plan, PlanLists, PlanNumbers};

// Plans: writes the seven lists, unless a check turns the call down.
#[unsafe(no_mangle)]
pub extern "C" fn seivalto_plan(
    cells: u32,
    vertices: u32,
    edges: u32,
    kinds: &[u8],
    cell_vertices: &[u32],
    cell_edges: &[u32],
    test: Elements,
    trial: Elements,
    batch: u32,
    integrand: CIntegrand,
    test_dofs: &mut [u32],
    trial_dofs: &mut [u32],
    test_colours: &mut [u32],
    trial_colours: &mut [u32],
    test_owners: &mut [u32],
    trial_owners: &mut [u32],
    work: &mut [u32],
) -> CPlanned
    ensures value { result ≡ c_planned test trial integrand
        (plan (planning_of (mesh_with (sizes_of cells vertices edges) kinds.now cell_vertices.now cell_edges.now) test trial batch (integrand_of integrand))
        (lists_of test_dofs.old trial_dofs.old test_colours.old trial_colours.old test_owners.old trial_owners.old work.old)) }
    ensures work_after { lists_of test_dofs.new trial_dofs.new test_colours.new trial_colours.new test_owners.new trial_owners.new work.new
        ≡ plan_lists (planning_of (mesh_with (sizes_of cells vertices edges) kinds.now cell_vertices.now cell_edges.now) test trial batch (integrand_of integrand))
        (lists_of test_dofs.old trial_dofs.old test_colours.old trial_colours.old test_owners.old trial_owners.old work.old) }
{
    let mesh = Mesh {
        sizes: Sizes {
            cells,
            vertices,
            edges,
        },
        kinds,
        cell_vertices,
        cell_edges,
    };
    let assembly = Assembly {
        test,
        trial,
        batch,
        integrand: Integrand::from(integrand),
    };
    let mut lists = PlanLists {
        test_dofs,
        trial_dofs,
        test_colours,
        trial_colours,
        test_owners,
        trial_owners,
        work,
    };
    let answer = plan(mesh, assembly, &mut lists);
    c_planned(test, trial, integrand, answer)
}

// Begins a dense run.
#[unsafe(no_mangle)]
pub extern "C" fn seivalto_begin(numbers: CNumbers) -> CRun
    ensures { result ≡ c_run numbers (begin (numbers_of numbers)) }
{
    c_run(numbers, Run::begin(PlanNumbers::from(numbers)))
}

// Begins an entries run.
#[unsafe(no_mangle)]
pub extern "C" fn seivalto_begin_entries(numbers: CNumbers) -> CRun
    ensures { result ≡ c_run numbers (begin_entries (numbers_of numbers)) }
{
    c_run(numbers, Run::begin_entries(PlanNumbers::from(numbers)))
}

// Answers record p.
#[unsafe(no_mangle)]
pub extern "C" fn seivalto_look(
    run: CRun,
    kinds: &[u8],
    test_dofs: &[u32],
    trial_dofs: &[u32],
    work: &[u32],
) -> CLooked
    ensures { result ≡ c_looked run (look (run_of run) (plan_of kinds.now test_dofs.now trial_dofs.now work.now)) }
{
    let plan = Plan {
        kinds,
        test_dofs,
        trial_dofs,
        work,
    };
    c_looked(run, Run::from(run).look(plan))
}
