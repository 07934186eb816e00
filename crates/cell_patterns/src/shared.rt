// Cells of any kinds: the vertices that two cells share, and the pattern of these. The formula says where in the table it has to stand, and the row that stands
// there is read.
ghost use Rattle.std.specs.Prelude.{◌≡◌, true, ◌++◌, ◌+◌, ◌≤◌, ◌<◌, length, take, IfSome};
ghost use Rattle.lists.specs.Range.{AllIn};
ghost use Rattle.grid.specs.Cells.{distinct};
ghost use Rattle.cell_pairs.specs.Matches.{matches};
ghost use Rattle.cell_pairs.specs.Patterns.{cells_pattern};
ghost use Rattle.cell_pairs.specs.Records.{IsPattern};
ghost use Rattle.cell_pairs.specs.Table.{pattern, number_of, block_start, in_block};
ghost use Rattle.triangle_patterns.specs.Triangles.{cells_right};
ghost use Rattle.pattern_table.specs.Numbers.{code_of};
ghost use Rattle.cell_patterns.specs.Shared.{place_in, IsPlace, Small, small_fact, matches_in, one_at};

use cell_pairs::{NO_PATTERN, QUAD_QUAD, QUAD_TRIANGLE, TRIANGLE_QUAD};
use grid::{edge_joining, second_of};
use pattern_table::table_row;

// A vertex that two cells share, by its places in the test cell and in the trial cell.
#[derive(Clone, Copy)]
struct SharedVertex {
    test: u32,
    trial: u32,
}

// The vertices that two cells share: the first `count` of a list, since at most four are shared and nothing is allocated.
#[derive(Clone, Copy)]
struct Shared {
    count: usize,
    list: [SharedVertex; 4],
}

// The place of the vertex x in a cell, if it has one.
fn place_in(cell: &[u32], x: u32) -> Option<usize>
    ensures { IsPlace result (place_in cell.now x) (length cell.now) }
{
    cell.iter().position(|&y| y == x)
}

// Adds the vertex at trial place q, if it has a place in the test cell.
fn add_vertex(shared: &mut Shared, place: Option<usize>, q: usize)
    requires count_bound { (shared.old.count < 4) × (q < 4) }
    requires place_bound { IfSome place (λ p. p < 4) }
    ensures { (take shared.new.count shared.new.list ≡ take shared.old.count shared.old.list ++ one_at place q) × (shared.new.count ≡ shared.old.count + length (one_at place q)) }
{
    if let Some(p) = place {
        shared.list[shared.count] = SharedVertex {
            test: p as u32,
            trial: q as u32,
        };
        shared.count += 1;
    }
}

// The shared vertices of two cells, trial places rising. The test cell has no vertex twice.
fn matches_of(test: &[u32], trial: &[u32]) -> Shared
    requires { (length test.now ≤ 4) × (length trial.now ≤ 4) × (distinct test.now ≡ true) }
    ensures { (matches_in (take result.count result.list) ≡ matches test.now trial.now) × (result.count ≤ 4) × (length (take result.count result.list) ≡ result.count) × AllIn Small (take result.count result.list) }
{
    let mut shared = Shared {
        count: 0,
        list: [SharedVertex { test: 0, trial: 0 }; 4],
    };
    for (q, &x) in trial.iter().enumerate() {
        add_vertex(&mut shared, place_in(test, x), q);
    }
    shared
}

// Where the block of test kind n and trial kind k begins.
fn block_start(n: u32, k: u32) -> u32
    ensures { (result ≡ block_start n k) × (result ≤ 100) }
{
    match (n, k) {
        (3, 3) => 0,
        (3, _) => TRIANGLE_QUAD as u32,
        (_, 3) => QUAD_TRIANGLE as u32,
        _ => QUAD_QUAD as u32,
    }
}

// Two cells: how many vertices the test cell has, and the trial cell, and those that they share. (The two functions below make one each: it borrows the list of
// the shared vertices, which is a local of theirs, so a constructor would be handed that list, and ask of it what `matches_of` has just told.)
#[derive(Clone, Copy)]
struct Meeting<'a> {
    n: u32,
    k: u32,
    shared: &'a [SharedVertex],
    ghost le_n: { (3 ≤ n) × (n ≤ 4) × (3 ≤ k) × (k ≤ 4) × (length shared.now ≤ 4) },
    ghost small: { AllIn Small shared.now } by { small_fact shared.now },
}

impl Meeting<'_> {
    // Their code, as a row of the table has it.
    fn code(self) -> u64
        ensures { result ≡ code_of (pattern self.entry.n self.entry.k (matches_in self.entry.shared.now)) }
    {
        let mut code = (10 * self.n + self.k) as u64;
        for s in self.shared {
            code = 100 * code + (10 * s.test + s.trial) as u64;
        }
        code
    }

    // The place inside the block of their kinds that the formula gives the shared vertices, if there are any.
    fn in_block(self) -> Option<u32>
        ensures { IsPattern result (in_block self.entry.n self.entry.k (matches_in self.entry.shared.now)) }
    {
        let Meeting { n, k, shared } = self;
        match shared {
            [] => None,
            [s] => Some(k * s.test + s.trial),
            [s, t] => {
                let e = edge_joining(n, s.test, t.test);
                let g = edge_joining(k, s.trial, t.trial);
                let place = n * k + 2 * (k * e + g);
                if s.test == second_of(n, e) {
                    Some(place + 1)
                } else {
                    Some(place)
                }
            }
            _ => Some(3 * (n * k)),
        }
    }

    // The number of their pattern: the formula's, if the table has their code there.
    fn pattern_number(self) -> Option<u32>
        ensures { IsPattern result (number_of (pattern self.entry.n self.entry.k (matches_in self.entry.shared.now))) }
    {
        let r = block_start(self.n, self.k) + self.in_block()?;
        if r < NO_PATTERN {
            if table_row(r as usize) == self.code() {
                return Some(r);
            }
        }
        None
    }
}

// The pattern of a test cell and a trial cell, if the table has it. The test cell has no vertex twice. (A call of its own: put into `pattern_of`, its registers
// would be saved for each pair of triangles too.)
#[inline(never)]
pub(crate) fn cells_pattern(test: &[u32], trial: &[u32]) -> Option<u32>
    requires { (3 ≤ length test.now) × (length test.now ≤ 4) × (3 ≤ length trial.now) × (length trial.now ≤ 4) × (distinct test.now ≡ true) }
    ensures { IsPattern result (cells_pattern test.now trial.now) }
{
    let shared = matches_of(test, trial);
    let meeting = Meeting {
        n: test.len() as u32,
        k: trial.len() as u32,
        shared: &shared.list[..shared.count],
    };
    meeting.pattern_number()
}

// Check 7 of a test cell and a trial cell: they share no vertex, or have a pattern.
pub(crate) fn cells_right(test: &[u32], trial: &[u32]) -> bool
    requires { (3 ≤ length test.now) × (length test.now ≤ 4) × (3 ≤ length trial.now) × (length trial.now ≤ 4) × (distinct test.now ≡ true) }
    ensures { result ≡ cells_right test.now trial.now }
{
    let shared = matches_of(test, trial);
    let meeting = Meeting {
        n: test.len() as u32,
        k: trial.len() as u32,
        shared: &shared.list[..shared.count],
    };
    (shared.count == 0) | meeting.pattern_number().is_some()
}
