// A local matrix put into the dense matrix, and into entry lists. Its entry (i, j) stands at i + m·j, m test DOFs; the order is trial basis outer.
#![tactic(auto)]

ghost use Rattle.function.specs.Elements.{most_dim};
ghost use Rattle.std.specs.Prelude.{◌≡◌, ℕ, ◌+◌, ◌*◌, ◌≤◌, ◌<◌, length, map};
ghost use Rattle.lists.specs.Range.{range};
ghost use Rattle.std.proofs.lemmas.List.Edits.{sets};
ghost use Rattle.numbers.specs.Floats.{◌!◌};
ghost use Rattle.scatter.specs.Adding.{add_local, local_rows, local_columns, local_values};
ghost use Rattle.scatter.specs.Entries.{entry_at, AddFits, ColumnFits, add_column, HasRoom};
ghost use Rattle.scatter.specs.Lent.{SameLists};

use numbers::wide;

// The DOFs of a local matrix's rows and columns, and its entries: room for MOST_DIM·MOST_DIM, of which as many are filled as there are pairs of DOFs.
#[derive(Clone, Copy)]
pub struct LocalMatrix<'a> {
    pub test_dofs: &'a [u32],
    pub trial_dofs: &'a [u32],
    pub entries: &'a [f64; 100],
}

// Entry lists: the row, the column and the value of each entry.
#[derive(Drop)]
pub struct EntryLists<'a> {
    pub rows: &'a mut [u32],
    pub columns: &'a mut [u32],
    pub values: &'a mut [f64],
}

// The entries of one trial basis function, added to a column that starts at base.
fn add_column(matrix: &mut [f64], rows: usize, base: usize, test_dofs: &[u32], entries: &[f64])
    requires fits { ColumnFits matrix.old rows base test_dofs.now }
    requires entries_len { length entries.now ≡ length test_dofs.now }
    ensures { matrix.new ≡ add_column (λ (i : ℕ). entries.now ! i)
        base test_dofs.now matrix.old }
{
    for (&row, &entry) in test_dofs.iter().zip(entries) {
        matrix[wide(row) + base] += entry;
    }
}

// The entries of trial basis function j, one for each place of the list. (By number and not as a slice, so that the order which the lists promise, i + m·j,
// stands in the code, and the other order can be tried against the contract.)
fn write_column(values: &mut [f64], entries: &[f64; 100], j: usize)
    requires { (length values.old ≤ most_dim) × (j < most_dim) }
    ensures { values.new ≡ map (λ (i : ℕ). entry_at entries.now (length values.old) i j) (range (length values.old)) }
{
    let m = values.len();
    for (i, value) in values.iter_mut().enumerate() {
        *value = entries[i + m * j];
    }
}

// The DOFs of a column's rows, one for each place of the list. (A loop, since `copy_from_slice` would have a C host bring memmove besides memcpy and memset; and
// by number, since after a zip of the two lists nothing would be known of the places.)
fn write_test_dofs(rows: &mut [u32], test_dofs: &[u32])
    requires { length rows.old ≡ length test_dofs.now }
    ensures { rows.new ≡ test_dofs.now }
{
    for (i, row) in rows.iter_mut().enumerate() {
        *row = test_dofs[i];
    }
}

impl LocalMatrix<'_> {
    // Adds the local matrix to the matrix: entry (i, j) at row + rows·column.
    pub fn add_to(self, matrix: &mut [f64], rows: usize, columns: usize)
        requires { AddFits matrix.old rows columns self.test_dofs.now self.trial_dofs.now }
        ensures { matrix.new ≡ add_local (entry_at self.entry.entries.now (length self.entry.test_dofs.now)) rows
            self.entry.test_dofs.now self.entry.trial_dofs.now matrix.old }
    {
        let LocalMatrix {
            test_dofs,
            trial_dofs,
            entries,
        } = self;
        let m = test_dofs.len();
        for (j, &column) in trial_dofs.iter().enumerate() {
            let base = rows * wide(column);
            let first = m * j;
            add_column(matrix, rows, base, test_dofs, &entries[first..first + m]);
        }
    }

    // The row of each entry, written from place at on. (By the number of a column, here and in the two below: it says where the column stands. One loop for the
    // three would take what it writes in a column as a closure over a part of the list, with clauses for that: longer than the three.)
    pub fn write_rows(self, rows: &mut [u32], at: usize)
        requires { at + length self.test_dofs.now * length self.trial_dofs.now ≤ length rows.old }
        ensures { rows.new ≡ sets rows.old at (local_rows self.entry.test_dofs.now self.entry.trial_dofs.now) }
    {
        let m = self.test_dofs.len();
        for j in 0..self.trial_dofs.len() {
            let place = at + m * j;
            write_test_dofs(&mut rows[place..place + m], self.test_dofs);
        }
    }

    // The column of each entry, written from place at on.
    pub fn write_columns(self, columns: &mut [u32], at: usize)
        requires { at + length self.test_dofs.now * length self.trial_dofs.now ≤ length columns.old }
        ensures { columns.new ≡ sets columns.old at (local_columns self.entry.test_dofs.now self.entry.trial_dofs.now) }
    {
        let m = self.test_dofs.len();
        for (j, &column) in self.trial_dofs.iter().enumerate() {
            let place = at + m * j;
            columns[place..place + m].fill(column);
        }
    }

    // The value of each entry, written from place at on.
    pub fn write_values(self, values: &mut [f64], at: usize)
        requires room { at + length self.test_dofs.now * length self.trial_dofs.now ≤ length values.old }
        requires few { (length self.test_dofs.now ≤ most_dim) × (length self.trial_dofs.now ≤ most_dim) }
        ensures { values.new ≡ sets values.old at
            (local_values (entry_at self.entry.entries.now (length self.entry.test_dofs.now)) (length self.entry.test_dofs.now) (length self.entry.trial_dofs.now)) }
    {
        let m = self.test_dofs.len();
        for j in 0..self.trial_dofs.len() {
            let place = at + m * j;
            write_column(&mut values[place..place + m], self.entries, j);
        }
    }
}

impl EntryLists<'_> {
    // The row, the column and the value of each entry of a local matrix, written from place at on.
    pub fn write(&mut self, at: usize, local: LocalMatrix)
        requires fits { HasRoom at self.old.rows.now self.old.columns.now self.old.values.now local.test_dofs.now local.trial_dofs.now }
        ensures rows { self.new.rows.now ≡ sets self.old.rows.now at (local_rows local.entry.test_dofs.now local.entry.trial_dofs.now) }
        ensures columns { self.new.columns.now ≡ sets self.old.columns.now at (local_columns local.entry.test_dofs.now local.entry.trial_dofs.now) }
        ensures values { self.new.values.now ≡ sets self.old.values.now at
            (local_values (entry_at local.entry.entries.now (length local.entry.test_dofs.now)) (length local.entry.test_dofs.now) (length local.entry.trial_dofs.now)) }
        ensures same_lists { SameLists self.old self.new }
    {
        local.write_rows(self.rows, at);
        local.write_columns(self.columns, at);
        local.write_values(self.values, at);
    }
}
