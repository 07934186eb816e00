// The entries of a run as sparse rows. (Each list is a parameter of its own, as the header declares.)
ghost use Rattle.std.specs.Prelude.{◌≡◌};
ghost use Rattle.runs.specs.Runs.{entry_lists};
ghost use Rattle.sparse_lists.specs.Sparse.{sparse_lists, sparse_rows, sparse_written};
ghost use Rattle.c_forms.specs.Forms.{c_gathered};

use c_forms::CGathered;
use sparse_rows::{RunEntries, SparseLists, sparse_rows};

// Writes row starts, columns and values of the entries, those of one row and column added up.
#[unsafe(no_mangle)]
pub extern "C" fn seivalto_sparse_rows(
    rows: &[u32],
    columns: &[u32],
    values: &[f64],
    row_count: u32,
    column_count: u32,
    row_starts: &mut [u64],
    kept_columns: &mut [u32],
    kept_values: &mut [f64],
) -> CGathered
    ensures value { result ≡ c_gathered (sparse_rows (entry_lists rows.now columns.now values.now) row_count column_count
        (sparse_lists row_starts.old kept_columns.old kept_values.old)) }
    ensures kept_values_after { sparse_lists row_starts.new kept_columns.new kept_values.new
        ≡ sparse_written (entry_lists rows.now columns.now values.now) row_count column_count
        (sparse_lists row_starts.old kept_columns.old kept_values.old) }
{
    let entries = RunEntries {
        rows,
        columns,
        values,
    };
    let mut lists = SparseLists {
        starts: row_starts,
        columns: kept_columns,
        values: kept_values,
    };
    CGathered::from(sparse_rows(entries, row_count, column_count, &mut lists))
}
