// Reads a job: checks 12 and 13, the numbers and the two lists.
ghost use Rattle.std.specs.Prelude.{◌≡◌, ◌+◌, ◌*◌, ◌≤◌, ◌<◌, length};
ghost use Rattle.job.specs.Answers.{job_told, told};
ghost use Rattle.job.specs.Job.{twos, element_at, job_numbers, job_refusal, front, read_job, vertex_list_of, edge_list_of};

use crate::head::{check_cells, two_at};
use crate::{JobNumbers, JobRefusal, read_head};
use function::Element;

// Check 12 and, where there is a limit, 13.
fn check_job(bytes: &[u8], limit: Option<u32>) -> Result<(), JobRefusal>
    ensures { told result ≡ job_refusal bytes.now limit }
{
    let cells = read_head(bytes)?;
    check_cells(cells, bytes.len(), limit)
}

// The element whose a, b and c are bytes k, k + 1 and k + 2.
fn element_at(bytes: &[u8], k: usize) -> Element
    requires { k + 2 < length bytes.now }
    ensures { result ≡ element_at bytes.now k }
{
    Element {
        a: u32::from(bytes[k]),
        b: u32::from(bytes[k + 1]),
        c: u32::from(bytes[k + 2]),
    }
}

// The numbers before the lists. (Not by `From`, which may ask nothing of its bytes: there have to be 19.)
fn numbers_of(bytes: &[u8]) -> JobNumbers
    requires { 19 ≤ length bytes.now }
    ensures { (result ≡ job_numbers bytes.now) × (result.cells < 65536) }
{
    JobNumbers {
        cells: u32::from(two_at(bytes, 5)),
        vertices: u32::from(two_at(bytes, 7)),
        edges: u32::from(two_at(bytes, 9)),
        test: element_at(bytes, 11),
        trial: element_at(bytes, 14),
        batch: u32::from(two_at(bytes, 17)),
    }
}

// Numbers of 2 bytes from byte `at` on, as many as the list is long. (With `zip` and `chunks_exact` nothing is known of the list after the loop.)
fn read_numbers(bytes: &[u8], at: usize, list: &mut [u32])
    requires { at + 2 * length list.old ≤ length bytes.now }
    ensures { list.new ≡ twos bytes.now at (length list.old) }
{
    for (i, number) in list.iter_mut().enumerate() {
        *number = u32::from(two_at(bytes, at + 2 * i));
    }
}

// n such numbers, as far as the list has room; the rest of a longer list stays.
fn read_front(bytes: &[u8], at: usize, n: usize, list: &mut [u32])
    requires { at + 2 * n ≤ length bytes.now }
    ensures { list.new ≡ front (twos bytes.now at n) list.old }
{
    let most = n.min(list.len());
    read_numbers(bytes, at, &mut list[..most]);
}

// Reads a job: its numbers, with its vertices and edges at the front of the two lists, as far as these have room; or 12; or, where it has
// more cells than the limit, 13. A refusal writes nothing.
pub fn read_job(
    bytes: &[u8],
    limit: Option<u32>,
    vertex_list: &mut [u32],
    edge_list: &mut [u32],
) -> Result<JobNumbers, JobRefusal>
    ensures value { job_told result ≡ read_job bytes.now limit }
    ensures vertex_list_after { vertex_list.new ≡ vertex_list_of bytes.now limit vertex_list.old }
    ensures edge_list_after { edge_list.new ≡ edge_list_of bytes.now limit edge_list.old }
{
    check_job(bytes, limit)?;
    let numbers = numbers_of(bytes);
    let n = 3 * numbers.cells as usize;
    let vertices_at = 19;
    let edges_at = 19 + 2 * n;
    read_front(bytes, vertices_at, n, vertex_list);
    read_front(bytes, edges_at, n, edge_list);
    Ok(numbers)
}
