// The fields of the job format, big-endian, and what the first 7 bytes of a job decide.
ghost use Rattle.std.specs.Prelude.{◌≡◌, ◌+◌, ◌*◌, ◌<◌, length, eqb, ◌∷◌, []};
ghost use Rattle.job.specs.Answers.{head_told, told};
ghost use Rattle.job.specs.Head.{head_right, read_head, size_refusal};
ghost use Rattle.lists.specs.Refusals.{check, refusal};
ghost use Rattle.job.specs.Job.{two, four, within};

use crate::{JobRefusal, MOST_WORKLIST_CELLS};

// The number of 2 bytes from byte k on.
pub(crate) fn two_at(bytes: &[u8], k: usize) -> u16
    requires { k + 1 < length bytes.now }
    ensures { result ≡ two bytes.now k }
{
    u16::from_be_bytes(bytes[k..k + 2].try_into().unwrap())
}

// The number of 4 bytes from byte k on. (`two_at` but for the length, which stands in the type that `from_be_bytes` takes: one function for both is a trait.)
fn four_at(bytes: &[u8], k: usize) -> u32
    requires { k + 3 < length bytes.now }
    ensures { result ≡ four bytes.now k }
{
    u32::from_be_bytes(bytes[k..k + 4].try_into().unwrap())
}

// Whether the first 7 bytes are there and right.
pub(crate) fn head_right(bytes: &[u8]) -> bool
    ensures { result ≡ head_right bytes.now }
{
    if bytes.len() < 7 {
        return false;
    }
    let rest = four_at(bytes, 0);
    let version = bytes[4];
    let cells = u32::from(two_at(bytes, 5));
    (version == 1) & (rest == 15 + 12 * cells)
}

// What the first 7 bytes say: C, or that they are refused whatever follows. `head_wrong`, `head_size` and `head_longer` of proofs/HeadFacts
// have what they decide.
pub fn read_head(bytes: &[u8]) -> Result<u32, JobRefusal>
    ensures { head_told result ≡ read_head bytes.now }
{
    if head_right(bytes) {
        Ok(u32::from(two_at(bytes, 5)))
    } else {
        Err(JobRefusal::Malformed)
    }
}

// Check 12 and, where there is a limit, 13 of a job whose first 7 bytes are right and say so many cells, and of which so many bytes came.
pub(crate) fn check_cells(cells: u32, bytes: usize, limit: Option<u32>) -> Result<(), JobRefusal>
    ensures { told result ≡ refusal (check 12 (eqb bytes (19 + 12 * cells)) ∷ check 13 (within limit cells) ∷ []) }
{
    if bytes != 19 + 12 * cells as usize {
        return Err(JobRefusal::Malformed);
    }
    // No limit: as many as there are.
    let most = limit.unwrap_or(cells);
    if most < cells {
        return Err(JobRefusal::TooLarge);
    }
    Ok(())
}

// Checks 12 and 13 of a job of `worklist` whose first 7 bytes are right and say so many cells, and of which so many bytes came.
pub fn check_size(cells: u32, bytes: usize) -> Result<(), JobRefusal>
    ensures { told result ≡ size_refusal cells bytes }
{
    check_cells(cells, bytes, Some(MOST_WORKLIST_CELLS))
}
