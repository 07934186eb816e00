// The forms in which runs, numbers and answers pass through C, what they stand for, and the C forms of what the calls answer. Elements and touching
// pairs per two kinds pass as they are.
#![tactic(auto)]

ghost use Rattle.std.specs.Prelude.{◌≡◌};
ghost use Rattle.refusals.specs.Numbers.{told};
ghost use Rattle.plans.specs.Lent.{planned_of};
ghost use Rattle.boundary_assemblers.specs.Forms as Inner;
ghost use Rattle.sparse_lists.specs.Answers.{gathered_of};
ghost use Rattle.c_forms.specs.Forms.{term_of, integrand_of, numbers_of, run_of, c_numbers, no_numbers, c_planned, c_record, no_record, c_looked, c_run, moved, c_added, c_gathered};

use boundary_assemblers::Run;
use cell_pairs::WorkRecord;
use function::Elements;
use integrands::{Integrand, Term};
use plans::{KindPairs, PlanNumbers};
use refusals::Refusal;

// A term: `scaled` is 0 for a bare one, whose factor is not read, and any other number for one that carries the factor. The kind is a number, as a host
// hands it over.
#[repr(C)]
#[derive(Clone, Copy, Default)]
pub struct CTerm {
    pub scaled: u32,
    pub kind: u32,
    pub factor: f64,
}

// One or two terms. Where the count is 1 the second is not read.
#[repr(C)]
#[derive(Clone, Copy, Default)]
pub struct CIntegrand {
    pub terms: u32,
    pub first: CTerm,
    pub second: CTerm,
}

// The numbers that planning hands back. (The fields are those of the header; they are named twice more below, there and back, since the integrand is of another
// type there, and one struct is not taken over from another in part.)
#[repr(C)]
#[derive(Clone, Copy, Default)]
pub struct CNumbers {
    pub cells: u32,
    pub vertices: u32,
    pub edges: u32,
    pub triangles: u32,
    pub quads: u32,
    pub touching: u32,
    pub distant: u32,
    pub pairs: KindPairs,
    pub rows: u32,
    pub columns: u32,
    pub test: Elements,
    pub trial: Elements,
    pub integrand: CIntegrand,
}

// What planning answers: 0 and the numbers, or the number of a refusal.
#[repr(C)]
#[derive(Clone, Copy)]
pub struct CPlanned {
    pub refusal: u32,
    pub numbers: CNumbers,
}

// A run: `entries` is 0 for a dense one, and any other number for an entries run.
#[repr(C)]
#[derive(Clone, Copy)]
pub struct CRun {
    pub numbers: CNumbers,
    pub entries: u32,
    pub position: u32,
}

impl CRun {
    // The host's run at another position.
    fn moved_to(self, position: u32) -> CRun
        ensures { result ≡ moved self position }
    {
        CRun { position, ..self }
    }
}

// A record of the work list.
#[repr(C)]
#[derive(Clone, Copy, Default)]
pub struct CRecord {
    pub pattern: u32,
    pub test_cell: u32,
    pub trial_cell: u32,
}

// What look answers: 0 and record p, or the number of a refusal.
#[repr(C)]
#[derive(Clone, Copy)]
pub struct CLooked {
    pub refusal: u32,
    pub run: CRun,
    pub record: CRecord,
}

// What an add or the entries call answers: 0, or the number of a refusal.
#[repr(C)]
#[derive(Clone, Copy)]
pub struct CAdded {
    pub refusal: u32,
    pub run: CRun,
}

// What seivalto_sparse_rows answers: 0 and how many values are kept, or the number of a refusal and 0.
#[repr(C)]
#[derive(Clone, Copy)]
pub struct CGathered {
    pub refusal: u32,
    pub kept: u64,
}

// ---- what a C form stands for

// Bare where `scaled` is 0; for any other `scaled` the term carries the factor.
impl From<CTerm> for Term {
    ghost from_gives = { λ c t. t ≡ term_of c };

    fn from(c: CTerm) -> Term {
        if c.scaled == 0 {
            Term::Bare(c.kind)
        } else {
            Term::Scaled(c.factor, c.kind)
        }
    }
}

impl From<CIntegrand> for Integrand {
    ghost from_gives = { λ c f. f ≡ integrand_of c };

    fn from(c: CIntegrand) -> Integrand {
        Integrand {
            terms: c.terms,
            first: Term::from(c.first),
            second: Term::from(c.second),
        }
    }
}

impl From<CNumbers> for PlanNumbers {
    ghost from_gives = { λ c n. n ≡ numbers_of c };

    fn from(c: CNumbers) -> PlanNumbers {
        PlanNumbers {
            cells: c.cells,
            vertices: c.vertices,
            edges: c.edges,
            triangles: c.triangles,
            quads: c.quads,
            touching: c.touching,
            distant: c.distant,
            pairs: c.pairs,
            rows: c.rows,
            columns: c.columns,
            test: c.test,
            trial: c.trial,
            integrand: Integrand::from(c.integrand),
        }
    }
}

// Dense where `entries` is 0; for any other `entries` an entries run.
impl From<CRun> for Run {
    ghost from_gives = { λ c r. Inner.run_of r ≡ run_of c };

    fn from(c: CRun) -> Run {
        Run {
            numbers: PlanNumbers::from(c.numbers),
            entries: c.entries != 0,
            position: c.position,
        }
    }
}

// ---- the C forms of what the calls answer, set field by field: most go together with what the host gave, which a `From` of the answer alone has not

// Planning's numbers, with the elements, of both kinds whether present or not, and the integrand that the host gave.
fn c_numbers(test: Elements, trial: Elements, f: CIntegrand, n: PlanNumbers) -> CNumbers
    ensures { result ≡ c_numbers test trial f n }
{
    CNumbers {
        cells: n.cells,
        vertices: n.vertices,
        edges: n.edges,
        triangles: n.triangles,
        quads: n.quads,
        touching: n.touching,
        distant: n.distant,
        pairs: n.pairs,
        rows: n.rows,
        columns: n.columns,
        test,
        trial,
        integrand: f,
    }
}

// What stands in their place where planning refuses: no cell.
fn no_numbers(test: Elements, trial: Elements, f: CIntegrand) -> CNumbers
    ensures { result ≡ no_numbers test trial f }
{
    CNumbers {
        test,
        trial,
        integrand: f,
        ..CNumbers::default()
    }
}

// The number of an answer, as C has it: 0 where the call is accepted.
fn refusal_of<T>(answer: &Result<T, Refusal>) -> u32
    ensures { result ≡ told answer.now }
{
    match answer {
        Ok(_) => 0,
        Err(refusal) => u32::from(*refusal),
    }
}

pub fn c_planned(
    test: Elements,
    trial: Elements,
    f: CIntegrand,
    answer: Result<PlanNumbers, Refusal>,
) -> CPlanned
    ensures { result ≡ c_planned test trial f (planned_of answer) }
{
    CPlanned {
        refusal: refusal_of(&answer),
        numbers: match answer {
            Ok(n) => c_numbers(test, trial, f, n),
            Err(_) => no_numbers(test, trial, f),
        },
    }
}

// A run that begins, with the numbers that the host gave.
pub fn c_run(n: CNumbers, run: Run) -> CRun
    ensures { result ≡ c_run n (Inner.run_of run) }
{
    CRun {
        numbers: n,
        entries: u32::from(run.entries),
        position: run.position,
    }
}

impl From<WorkRecord> for CRecord {
    ghost from_gives = { λ e c. c ≡ c_record e };

    fn from(e: WorkRecord) -> CRecord {
        CRecord {
            pattern: e.pattern,
            test_cell: e.test,
            trial_cell: e.trial,
        }
    }
}

// What look answers, of the host's run.
pub fn c_looked(c: CRun, looked: (Run, Result<WorkRecord, Refusal>)) -> CLooked
    ensures { result ≡ c_looked c (Inner.looked_of looked) }
{
    let (run, answer) = looked;
    CLooked {
        refusal: refusal_of(&answer),
        run: c.moved_to(run.position),
        record: match answer {
            Ok(e) => CRecord::from(e),
            Err(_) => CRecord::default(),
        },
    }
}

// What an add or the entries call answers, of the host's run.
pub fn c_added(c: CRun, added: (Run, Result<(), Refusal>)) -> CAdded
    ensures { result ≡ c_added c (Inner.added_of added) }
{
    let (run, answer) = added;
    CAdded {
        refusal: refusal_of(&answer),
        run: c.moved_to(run.position),
    }
}

impl From<Result<u64, Refusal>> for CGathered {
    ghost from_gives = { λ r c. c ≡ c_gathered (gathered_of r) };

    fn from(answer: Result<u64, Refusal>) -> CGathered {
        CGathered {
            refusal: refusal_of(&answer),
            kept: answer.unwrap_or(0),
        }
    }
}
