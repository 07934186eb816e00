// The adds, and the entries call. A function that C calls takes each list by itself, as its header declares, and puts them together here: a function for that
// would be given the same lists by themselves, which is no shorter.
ghost use Rattle.std.specs.Prelude.{◌≡◌};
ghost use Rattle.lent_numbers.specs.Lent.{touching, distant};
ghost use Rattle.runs.specs.Runs.{plan_of, entry_lists, add_touching, touching_matrix, add_distant, distant_matrix, add_entries, entries_written};
ghost use Rattle.c_forms.specs.Forms.{run_of, c_added};

use boundary_assemblers::Run;
use c_forms::{CAdded, CRun, c_added};
use lent_numbers::{DistantNumbers, Side, TouchingNumbers};
use plans::Plan;
use scatter::EntryLists;

// Adds the local matrix of a distant pair.
#[unsafe(no_mangle)]
pub extern "C" fn seivalto_add_distant(
    run: CRun,
    kinds: &[u8],
    test_dofs: &[u32],
    trial_dofs: &[u32],
    work: &[u32],
    test_points: usize,
    trial_points: usize,
    test_weights: &[f64],
    trial_weights: &[f64],
    test_table: &[f64],
    trial_table: &[f64],
    kernel: &[f64],
    test_geometry: &[f64],
    trial_geometry: &[f64],
    matrix: &mut [f64],
) -> CAdded
    ensures value { result ≡ c_added run (add_distant (run_of run) (plan_of kinds.now test_dofs.now trial_dofs.now work.now) matrix.old
        (distant test_points trial_points test_weights.now trial_weights.now test_table.now trial_table.now kernel.now test_geometry.now trial_geometry.now)) }
    ensures matrix_after { matrix.new ≡ distant_matrix (run_of run) (plan_of kinds.now test_dofs.now trial_dofs.now work.now) matrix.old
        (distant test_points trial_points test_weights.now trial_weights.now test_table.now trial_table.now kernel.now test_geometry.now trial_geometry.now) }
{
    let plan = Plan {
        kinds,
        test_dofs,
        trial_dofs,
        work,
    };
    let lent = DistantNumbers {
        test: Side {
            points: test_points,
            weights: test_weights,
            table: test_table,
            geometry: test_geometry,
        },
        trial: Side {
            points: trial_points,
            weights: trial_weights,
            table: trial_table,
            geometry: trial_geometry,
        },
        kernel,
    };
    c_added(run, Run::from(run).add_distant(plan, lent, matrix))
}

// Adds the local matrix of a touching pair.
#[unsafe(no_mangle)]
pub extern "C" fn seivalto_add_touching(
    run: CRun,
    kinds: &[u8],
    test_dofs: &[u32],
    trial_dofs: &[u32],
    work: &[u32],
    points: usize,
    weights: &[f64],
    test_table: &[f64],
    trial_table: &[f64],
    kernel: &[f64],
    test_geometry: &[f64],
    trial_geometry: &[f64],
    matrix: &mut [f64],
) -> CAdded
    ensures value { result ≡ c_added run (add_touching (run_of run) (plan_of kinds.now test_dofs.now trial_dofs.now work.now) matrix.old
        (touching points weights.now test_table.now trial_table.now kernel.now test_geometry.now trial_geometry.now)) }
    ensures matrix_after { matrix.new ≡ touching_matrix (run_of run) (plan_of kinds.now test_dofs.now trial_dofs.now work.now) matrix.old
        (touching points weights.now test_table.now trial_table.now kernel.now test_geometry.now trial_geometry.now) }
{
    let plan = Plan {
        kinds,
        test_dofs,
        trial_dofs,
        work,
    };
    let lent = TouchingNumbers {
        points,
        weights,
        test_table,
        trial_table,
        kernel,
        test_geometry,
        trial_geometry,
    };
    c_added(run, Run::from(run).add_touching(plan, lent, matrix))
}

// Writes row, column and value of each entry of a touching pair into three lists.
#[unsafe(no_mangle)]
pub extern "C" fn seivalto_add_entries(
    run: CRun,
    kinds: &[u8],
    test_dofs: &[u32],
    trial_dofs: &[u32],
    work: &[u32],
    points: usize,
    weights: &[f64],
    test_table: &[f64],
    trial_table: &[f64],
    kernel: &[f64],
    test_geometry: &[f64],
    trial_geometry: &[f64],
    rows: &mut [u32],
    columns: &mut [u32],
    values: &mut [f64],
) -> CAdded
    ensures value { result ≡ c_added run (add_entries (run_of run) (plan_of kinds.now test_dofs.now trial_dofs.now work.now)
        (entry_lists rows.old columns.old values.old)
        (touching points weights.now test_table.now trial_table.now kernel.now test_geometry.now trial_geometry.now)) }
    ensures values_after { entry_lists rows.new columns.new values.new
        ≡ entries_written (run_of run) (plan_of kinds.now test_dofs.now trial_dofs.now work.now)
        (entry_lists rows.old columns.old values.old)
        (touching points weights.now test_table.now trial_table.now kernel.now test_geometry.now trial_geometry.now) }
{
    let plan = Plan {
        kinds,
        test_dofs,
        trial_dofs,
        work,
    };
    let lent = TouchingNumbers {
        points,
        weights,
        test_table,
        trial_table,
        kernel,
        test_geometry,
        trial_geometry,
    };
    let mut lists = EntryLists {
        rows,
        columns,
        values,
    };
    c_added(run, Run::from(run).add_entries(plan, lent, &mut lists))
}
