// A lent table at a point, and `View`, a thin view of it that gives row values at a point and a basis function, which is `Table` of the Rust's integrands.
#![tactic(auto)]

ghost use Rattle.std.specs.Prelude.{◌≡◌, ◌<◌};
ghost use Rattle.table.specs.Rows.{table_row, Reach};

// The view: the table's values, its rows D and points P, and a point and a basis number.
#[derive(Clone, Copy)]
pub struct View<'a> {
    pub values: &'a [f64],
    pub rows: usize,
    pub points: usize,
    pub point: usize,
    pub basis: usize,
}

// `new` is one of the thin functions that the paper asks for, as is that of `Table`: one for both would take a struct of the four fields that they share.
impl<'a> View<'a> {
    pub fn new(
        values: &'a [f64],
        rows: usize,
        points: usize,
        point: usize,
        basis: usize,
    ) -> View<'a>
        ensures { (result.values ≡ values.entry) × (result.rows ≡ rows) × (result.points ≡ points) × (result.point ≡ point) × (result.basis ≡ basis) }
    {
        View {
            values,
            rows,
            points,
            point,
            basis,
        }
    }

    // Row i: it stands at i + D(p + P·f).
    pub fn get(self, i: usize) -> f64
        requires { Reach self.rows self.points self.point self.basis self.values.now × (i < self.rows) }
        ensures { result ≡ table_row self.entry.values.now self.entry.rows self.entry.points self.entry.point self.entry.basis i }
    {
        self.values[i + self.rows * (self.point + self.points * self.basis)]
    }
}

// A lent table at a point: its values, its rows D, points P and basis functions, and the point.
#[derive(Clone, Copy)]
pub struct Table<'a> {
    pub values: &'a [f64],
    pub rows: usize,
    pub points: usize,
    pub dim: usize,
    pub point: usize,
}

impl<'a> Table<'a> {
    pub fn new(values: &'a [f64], rows: usize, points: usize, dim: usize, point: usize) -> Table<'a>
        ensures { (result.values ≡ values.entry) × (result.rows ≡ rows) × (result.points ≡ points) × (result.dim ≡ dim) × (result.point ≡ point) }
    {
        Table {
            values,
            rows,
            points,
            dim,
            point,
        }
    }

    // Row i of a basis function.
    pub fn get(self, basis: usize, i: usize) -> f64
        requires { Reach self.rows self.points self.point basis self.values.now × (i < self.rows) }
        ensures { result ≡ table_row self.entry.values.now self.entry.rows self.entry.points self.entry.point basis i }
    {
        View::new(self.values, self.rows, self.points, self.point, basis).get(i)
    }
}
