// The checks that every call of a run makes, and look.
ghost use Rattle.std.specs.Prelude.{◌≡◌, ◌+◌, ◌≤◌, ◌<◌, true, length, IfOk};
ghost use Rattle.lists.specs.Bool.{every};
ghost use Rattle.lists.specs.Refusals.{refusal};
ghost use Rattle.refusals.specs.Numbers.{told};
ghost use Rattle.numbers.specs.Ranges.{all_below};
ghost use Rattle.grid.specs.Mesh.{most_cells};
ghost use Rattle.grid.specs.KindsFacts.{kinds_to};
ghost use Rattle.runs.specs.Runs.{pairs, begin, begin_entries, ranges_right, counts_right, kinds_fit, plan_right, record_known, state_checks, look};
ghost use Rattle.boundary_assemblers.specs.Forms.{run_of, plan_lent, looked_of, pair_at, cell_at, dofs_at};
ghost use Rattle.boundary_assemblers.specs.RunFacts.{read_by21, Matched, Inside};

use crate::{Cell, Pair, Run};
use cell_pairs::{DISTANT, NO_PATTERN, WIDTH, WorkRecord, record_at};
use function::{Elements, dims_right};
use grid::{MOST_CELLS, MOST_EDGES, MOST_VERTICES, count_kind, kinds_match};
use integrands::integrand_right;
use numbers::{all_below, wide};
use plans::{Plan, PlanNumbers};
use refusals::Refusal;
use scatter::LocalMatrix;

// The DOFs of a cell in the DOF list of its side.
fn cell_dofs(dofs: &[u32], cell: Cell) -> &[u32]
    requires { cell.start + cell.dim ≤ length dofs.now }
    ensures { result.now ≡ dofs_at dofs.now cell }
{
    &dofs[cell.start..cell.start + cell.dim]
}

// The local matrix of record p, at the DOFs of its two cells.
pub(crate) fn local_matrix<'a>(
    plan: Plan<'a>,
    pair: Pair,
    entries: &'a [f64; 100],
) -> LocalMatrix<'a>
    requires { Inside plan.test_dofs.now pair.test × Inside plan.trial_dofs.now pair.trial }
    ensures test { result.test_dofs.now ≡ dofs_at plan.entry.test_dofs.now pair.test }
    ensures trial { result.trial_dofs.now ≡ dofs_at plan.entry.trial_dofs.now pair.trial }
    ensures entries { result.entries.now ≡ entries.now }
{
    LocalMatrix {
        test_dofs: cell_dofs(plan.test_dofs, pair.test),
        trial_dofs: cell_dofs(plan.trial_dofs, pair.trial),
        entries,
    }
}

// 22: each DOF of a cell is below the size of its side.
fn dofs_below(dofs: &[u32], cell: Cell, size: u32) -> bool
    requires { Inside dofs.now cell }
    ensures { result ≡ all_below (dofs_at dofs.now cell) size }
{
    all_below(cell_dofs(dofs, cell), size)
}

impl Run {
    // A dense run starts at 0.
    pub fn begin(numbers: PlanNumbers) -> Run
        ensures { run_of result ≡ begin numbers }
    {
        Run {
            numbers,
            entries: false,
            position: 0,
        }
    }

    // An entries run starts at N.
    pub fn begin_entries(numbers: PlanNumbers) -> Run
        ensures { run_of result ≡ begin_entries numbers }
    {
        Run {
            numbers,
            entries: true,
            position: numbers.distant,
        }
    }

    // 21: the run's numbers are in their ranges.
    fn ranges_right(&self) -> bool
        ensures { result ≡ ranges_right (run_of self.now) }
    {
        let n = self.numbers;
        (1..=MOST_CELLS as u32).contains(&n.cells)
            & (3..=MOST_VERTICES as u32).contains(&n.vertices)
            & (3..=MOST_EDGES as u32).contains(&n.edges)
            & dims_right(n.triangles, n.quads, n.test, n.trial)
            & integrand_right(n.integrand)
    }

    // C·C.
    fn pair_count(&self) -> usize
        ensures { result ≡ pairs self.now.numbers }
    {
        wide(self.numbers.cells) * wide(self.numbers.cells)
    }

    // 21: the pairs per two kinds add up to S, S and N to all pairs, and p is no more than these. The sums are made as usize, so that they fit of any u32.
    fn counts_right(self) -> bool
        ensures { result ≡ counts_right (run_of self) }
    {
        let n = self.numbers;
        let kinds = n.pairs;
        let touching = wide(n.touching);
        (wide(kinds.triangle_triangle)
            + wide(kinds.triangle_quad)
            + wide(kinds.quad_triangle)
            + wide(kinds.quad_quad)
            == touching)
            & (touching + wide(n.distant) == self.pair_count())
            & (wide(self.position) <= self.pair_count())
            & (!self.entries | (n.distant <= self.position))
    }

    // 21: the kind list is that of the cells.
    fn kinds_fit(&self, plan: Plan) -> bool
        requires { self.now.numbers.cells ≤ most_cells }
        ensures { result ≡ kinds_fit (run_of self.now) (plan_lent plan.entry) }
    {
        let n = self.numbers;
        kinds_match(n.cells, n.triangles, n.quads, plan.kinds)
    }

    // 21: of a kind list that is that of the cells, the plan has its length. (That it is, is asked here, of `quads_before` and of `cell`: it is known of a plan
    // only after `kinds_fit`, and run and plan are any host's, so it is a fact of neither type.)
    fn plan_right(&self, plan: Plan) -> bool
        requires { Matched self.now.numbers plan.kinds.now }
        ensures { result ≡ plan_right (run_of self.now) (plan_lent plan.entry) }
    {
        let n = self.numbers;
        let test_places = n.test.places(n.triangles, n.quads);
        let trial_places = n.trial.places(n.triangles, n.quads);
        (wide(n.rows) <= test_places)
            & (wide(n.columns) <= trial_places)
            & (plan.test_dofs.len() == test_places)
            & (plan.trial_dofs.len() == trial_places)
            & (plan.work.len() == WIDTH * self.pair_count())
    }

    // 21, of the run and the plan. The counts come before the kind list, which is read whole: a run whose counts are wrong is turned down without it.
    fn run_right(&self, plan: Plan) -> bool
        ensures { result ≡ every (read_by21 (run_of self.now) (plan_lent plan.entry) true) }
    {
        if !self.ranges_right() {
            return false;
        }
        if !self.counts_right() {
            return false;
        }
        if !self.kinds_fit(plan) {
            return false;
        }
        self.plan_right(plan)
    }

    // How many of the cells before a cell are quads. Cells of one kind are not counted.
    fn quads_before(&self, kinds: &[u8], cell: u32) -> u32
        requires { Matched self.now.numbers kinds.now × (cell < self.now.numbers.cells) }
        ensures { result ≡ kinds_to kinds.now 4 cell }
    {
        let n = self.numbers;
        if n.quads == 0 {
            return 0;
        }
        if n.triangles == 0 {
            return cell;
        }
        count_kind(&kinds[..wide(cell)], 4)
    }

    // 22: a record has a pattern of the list, and cells below C.
    fn record_known(&self, item: WorkRecord) -> bool
        ensures { result ≡ record_known (run_of self.now) item }
    {
        let cells = self.numbers.cells;
        ((item.pattern < NO_PATTERN) | (item.pattern == DISTANT))
            & (item.test < cells)
            & (item.trial < cells)
    }

    // A cell of a side with these elements.
    fn cell(&self, kinds: &[u8], elements: Elements, cell: u32) -> Cell
        requires { Matched self.now.numbers kinds.now × (cell < self.now.numbers.cells) }
        ensures { result ≡ cell_at kinds.now elements cell }
    {
        let quads = self.quads_before(kinds, cell);
        let kind = kinds[wide(cell)];
        Cell {
            kind,
            start: elements.places(cell - quads, quads),
            dim: elements.dim(kind),
        }
    }

    // 21, 20, 22, which every call checks, then record p and its cells. (A call that is lent more than the plan checks the length of that first: it is 21 too.)
    pub(crate) fn state_checked(&self, plan: Plan) -> Result<Pair, Refusal>
        ensures refusal { told result ≡ refusal (state_checks (run_of self.now) (plan_lent plan.entry) true) }
        ensures pair { IfOk result (λ e. e ≡ pair_at (run_of self.now) (plan_lent plan.entry)) }
    {
        if !self.run_right(plan) {
            return Err(Refusal::Run);
        }
        if wide(self.position) == self.pair_count() {
            return Err(Refusal::NoRecordLeft);
        }
        let record = record_at(plan.work, wide(self.position));
        if !self.record_known(record) {
            return Err(Refusal::Record);
        }
        let n = self.numbers;
        let test = self.cell(plan.kinds, n.test, record.test);
        let trial = self.cell(plan.kinds, n.trial, record.trial);
        if !(dofs_below(plan.test_dofs, test, n.rows)
            & dofs_below(plan.trial_dofs, trial, n.columns))
        {
            return Err(Refusal::Record);
        }
        Ok(Pair {
            item: record,
            test,
            trial,
        })
    }

    // Record p.
    fn record(&self, plan: Plan) -> Result<WorkRecord, Refusal>
        ensures { looked_of (self.now, result) ≡ look (run_of self.now) (plan_lent plan.entry) }
    {
        let pair = self.state_checked(plan)?;
        Ok(pair.item)
    }

    // Answers record p, and hands the run back.
    pub fn look(self, plan: Plan) -> (Run, Result<WorkRecord, Refusal>)
        ensures { looked_of result ≡ look (run_of self) (plan_lent plan.entry) }
    {
        (self, self.record(plan))
    }
}
