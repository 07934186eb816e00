// The sparse rows of a case.
use crate::cases::Gathering;
use recorded::{EntryVecs, Words};
use sparse_rows::{RunEntries, SparseLists, sparse_rows};
use std::alloc::AllocError;
use std::io::Read;

impl Gathering {
    /// Reads the three lists, gathers the entries of a matrix of so many rows and columns into them, and compares.
    pub fn agrees<R: Read>(
        self,
        words: &mut Words<R>,
        entries: &EntryVecs,
        row_count: u32,
        column_count: u32,
    ) -> Result<bool, AllocError> {
        let mut starts = words.scalars(self.starts)?;
        let mut columns = words.scalars(self.columns)?;
        let mut values = words.scalars(self.values)?;
        let lent = RunEntries {
            rows: &entries.rows,
            columns: &entries.columns,
            values: &entries.values,
        };
        let mut lists = SparseLists {
            starts: &mut starts,
            columns: &mut columns,
            values: &mut values,
        };
        let answer = sparse_rows(lent, row_count, column_count, &mut lists);
        Ok(
            (Some(answer.map_err(|refusal| refusal.number())) == self.answer)
                & words.are_next(&starts)
                & words.are_next(&columns)
                & words.are_next(&values),
        )
    }
}
