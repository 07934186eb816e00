// Plays a whole list of calls on one run, begun from planning. The calls are encoded as numbers, and their lent lists are parts of one pool.
#![tactic(auto)]

ghost use Rattle.std.specs.Prelude.{◌≡◌, ◌+◌, ◌*◌, ◌≤◌, ◌<◌, length};
ghost use Rattle.std.proofs.lemmas.List.Edits.{sets};
ghost use Rattle.grid.specs.Lent.{mesh_lent};
ghost use Rattle.lent_numbers.specs.Forms.{touching_of, distant_of};
ghost use Rattle.plans.specs.Planning.{plan_lists};
ghost use Rattle.plans.specs.Lent.{lists_lent, SameLists};
ghost use Rattle.planning.specs.Arguments.{planning_with};
ghost use Rattle.runs.specs.Runs.{begun, found, accepted, refused as not_accepted};
ghost use Rattle.refusals.specs.Numbers.{number_of};
ghost use Rattle.scatter.specs.Lent.{SameLists as SameEntries};
ghost use Rattle.boundary_assemblers.specs.Forms.{run_of, plan_lent, entries_lent, answer_of};
ghost use Rattle.replay.specs.Encoding.{part_of, list_in, distant_in, touching_in, call_of, call_at, call_count, answer_numbers};
ghost use Rattle.replay.specs.Replay.{call_lent, calls_lent, SameWritten, outcome_of, replayed, replayed_matrix, replayed_lists, replayed_answers};
ghost use Rattle.replay.specs.Laws.{standing, Answered, Going};

use boundary_assemblers::Run;
use cell_pairs::WorkRecord;
use grid::Mesh;
use lent_numbers::{DistantNumbers, Side, TouchingNumbers};
use planning::{Assembly, plan};
use plans::{Plan, PlanLists, PlanNumbers};
use refusals::Refusal;
use scatter::EntryLists;

// A call on a run, with what it is lent.
#[derive(Clone, Copy)]
enum Call<'a> {
    Look,
    AddDistant(DistantNumbers<'a>),
    AddTouching(TouchingNumbers<'a>),
    AddEntries(TouchingNumbers<'a>),
}

// Numbers a to e of the pool, or none where those are not there.
fn part_of(pool: &[f64], a: usize, e: usize) -> &[f64]
    ensures { result.now ≡ part_of pool.now a e }
{
    pool.get(a..e).unwrap_or(&[])
}

// The eleven numbers that encode a call, and the pool whose parts are its lists.
#[derive(Clone, Copy)]
struct Encoded<'a> {
    numbers: &'a [usize; 11],
    pool: &'a [f64],
}

impl<'a> Encoded<'a> {
    // List j.
    fn list(self, j: usize) -> &'a [f64]
        requires { j < 7 }
        ensures { result.now ≡ list_in self.entry.pool.now self.entry.numbers.now j }
    {
        part_of(self.pool, self.numbers[j + 3], self.numbers[j + 4])
    }

    // What a distant pair is lent.
    fn distant(self) -> DistantNumbers<'a>
        ensures { distant_of result ≡ distant_in self.entry.pool.now self.entry.numbers.now }
    {
        DistantNumbers {
            test: Side {
                points: self.numbers[1],
                weights: self.list(0),
                table: self.list(2),
                geometry: self.list(5),
            },
            trial: Side {
                points: self.numbers[2],
                weights: self.list(1),
                table: self.list(3),
                geometry: self.list(6),
            },
            kernel: self.list(4),
        }
    }

    // What a touching pair is lent.
    fn touching(self) -> TouchingNumbers<'a>
        ensures { touching_of result ≡ touching_in self.entry.pool.now self.entry.numbers.now }
    {
        TouchingNumbers {
            points: self.numbers[1],
            weights: self.list(0),
            test_table: self.list(1),
            trial_table: self.list(2),
            kernel: self.list(3),
            test_geometry: self.list(4),
            trial_geometry: self.list(5),
        }
    }

    // The call. (A `match` on its kind's number: what encodes a call are numbers alone.)
    fn call(self) -> Call<'a>
        ensures { call_lent result ≡ call_of self.entry.pool.now self.entry.numbers.now }
    {
        match self.numbers[0] {
            0 => Call::Look,
            1 => Call::AddDistant(self.distant()),
            2 => Call::AddTouching(self.touching()),
            _ => Call::AddEntries(self.touching()),
        }
    }
}

// A list of calls: eleven numbers a call, one call after the other, and the pool whose parts are the lists that they are lent.
#[derive(Clone, Copy)]
pub struct Calls<'a> {
    pub numbers: &'a [usize],
    pub pool: &'a [f64],
}

impl<'a> Calls<'a> {
    // Call k.
    fn call(self, k: usize) -> Call<'a>
        requires { 11 * k + 11 ≤ length self.numbers.now }
        ensures { call_lent result ≡ call_at self.entry.numbers.now self.entry.pool.now k }
    {
        let numbers = self.numbers[11 * k..].first_chunk().unwrap();
        let encoded = Encoded {
            numbers,
            pool: self.pool,
        };
        encoded.call()
    }

    // How many are played: as many as the numbers encode whole, and no more than there is room to answer.
    fn count(self, written: &Written) -> usize
        ensures value { result ≡ call_count self.entry.numbers.now written.now.answers.now }
        ensures room { (11 * result ≤ length self.entry.numbers.now) × (4 * result ≤ length written.now.answers.now) }
    {
        (self.numbers.len() / 11).min(written.answers.len() / 4)
    }
}

// What calls write: the matrix, the entry lists, and the answers, four numbers a call.
#[derive(Drop)]
pub struct Written<'a> {
    pub matrix: &'a mut [f64],
    pub entries: EntryLists<'a>,
    pub answers: &'a mut [u32],
}

// A refusal, as four numbers. (The first is 0, 1 or 2 for a record, an add and a refusal: the answers are a lent list of numbers, as `answer_numbers` has
// them, so that no enum stands there.)
fn refused(refusal: Refusal) -> [u32; 4]
    ensures { result ≡ answer_numbers (not_accepted (number_of refusal)) }
{
    [2, refusal.number(), 0, 0]
}

// What look answers, as four numbers.
fn looked(answer: Result<WorkRecord, Refusal>) -> [u32; 4]
    ensures { result ≡ answer_numbers (answer_of found answer) }
{
    match answer {
        Ok(e) => [0, e.pattern, e.test, e.trial],
        Err(refusal) => refused(refusal),
    }
}

// What an add answers, as four numbers.
fn added(answer: Result<(), Refusal>) -> [u32; 4]
    ensures { result ≡ answer_numbers (answer_of (λ _. accepted) answer) }
{
    match answer {
        Ok(()) => [1, 0, 0, 0],
        Err(refusal) => refused(refusal),
    }
}

impl Call<'_> {
    // Makes the call; what it answers, as four numbers. (Each arm ends in the same two steps, on answers of two types: a helper that keeps the run and hands
    // the answer on takes off four lines, and is eight with its contract.)
    fn play(self, run: &mut Run, plan: Plan, matrix: &mut [f64], lists: &mut EntryLists) -> [u32; 4]
        ensures answered { Answered (plan_lent plan.entry) (call_lent self.entry) (standing (run_of run.old) matrix.old (entries_lent lists.old))
            (run_of run.new) matrix.new (entries_lent lists.new) result }
        ensures same { SameEntries lists.old lists.new }
    {
        match self {
            Call::Look => {
                let (next, answer) = run.look(plan);
                *run = next;
                looked(answer)
            }
            Call::AddDistant(lent) => {
                let (next, answer) = run.add_distant(plan, lent, matrix);
                *run = next;
                added(answer)
            }
            Call::AddTouching(lent) => {
                let (next, answer) = run.add_touching(plan, lent, matrix);
                *run = next;
                added(answer)
            }
            Call::AddEntries(lent) => {
                let (next, answer) = run.add_entries(plan, lent, lists);
                *run = next;
                added(answer)
            }
        }
    }
}

// Plays the calls, as many as there is room to answer; their answers stand one after the other. (k is the place of a call and of its answer. With `zip` and
// `chunks_exact_mut` nothing is known of the answers after the loop.)
fn play_calls(run: &mut Run, plan: Plan, calls: Calls, written: &mut Written)
    ensures going { Going (plan_lent plan.entry) (calls_lent calls.entry written.old.answers.now)
        (standing (run_of run.old) written.old.matrix.now (entries_lent written.old.entries)) written.old.answers.now
        (run_of run.new) written.new.matrix.now (entries_lent written.new.entries) written.new.answers.now }
    ensures same { SameWritten written.old written.new }
{
    for k in 0..calls.count(written) {
        let call = calls.call(k);
        let answer = call.play(run, plan, written.matrix, &mut written.entries);
        written.answers[4 * k..4 * k + 4].copy_from_slice(&answer);
    }
}

// A run of either kind. (A `bool`, as in the run itself and in `begun` of the definitions.)
fn begin_run(numbers: PlanNumbers, entries: bool) -> Run
    ensures { run_of result ≡ begun entries numbers }
{
    if entries {
        Run::begin_entries(numbers)
    } else {
        Run::begin(numbers)
    }
}

// Plans, begins a run, of entries or dense, and plays the calls on it, as many as there is room to answer; plays nothing where planning refuses.
pub fn replay(
    mesh: Mesh,
    assembly: Assembly,
    lists: &mut PlanLists,
    entries: bool,
    calls: Calls,
    written: &mut Written,
) -> Result<Run, Refusal>
    ensures result_value { outcome_of result ≡ replayed (planning_with (mesh_lent mesh.entry) assembly) (lists_lent lists.old) entries
        (calls_lent calls.entry written.old.answers.now) written.old.matrix.now (entries_lent written.old.entries) }
    ensures matrix_after { written.new.matrix.now ≡ replayed_matrix (planning_with (mesh_lent mesh.entry) assembly) (lists_lent lists.old) entries
        (calls_lent calls.entry written.old.answers.now) written.old.matrix.now (entries_lent written.old.entries) }
    ensures values_after { entries_lent written.new.entries ≡ replayed_lists (planning_with (mesh_lent mesh.entry) assembly) (lists_lent lists.old) entries
        (calls_lent calls.entry written.old.answers.now) written.old.matrix.now (entries_lent written.old.entries) }
    ensures answers_after { written.new.answers.now ≡ replayed_answers (planning_with (mesh_lent mesh.entry) assembly) (lists_lent lists.old) entries
        (calls_lent calls.entry written.old.answers.now) written.old.matrix.now (entries_lent written.old.entries) written.old.answers.now }
    ensures work_after { lists_lent lists.new ≡ plan_lists (planning_with (mesh_lent mesh.entry) assembly) (lists_lent lists.old) }
    ensures same_lists { SameLists lists.old lists.new }
    ensures same_written { SameWritten written.old written.new }
{
    let numbers = plan(mesh, assembly, lists)?;
    let mut run = begin_run(numbers, entries);
    play_calls(&mut run, lists.plan(mesh.kinds), calls, written);
    Ok(run)
}
