// Reads one job from a file, as standard input, and prints its work list, or `refused n`. No more of the input is read than the answer needs:
// the first 7 bytes say how long a job is, and one byte more than that is read, to see that it is not longer.
#![tactic(auto)]

ghost use Rattle.std.specs.Prelude.{◌≡◌, ◌<◌, ◌≤◌, min, length, take};
ghost use Rattle.job.specs.Job.{most_worklist_cells};
ghost use Rattle.job.specs.Head.{read_head, Says};
ghost use Rattle.worklist_io.specs.Answers.{most_bytes, Answers};

use full_reads::Source;
use job::{MOST_WORKLIST_CELLS, check_size, read_head};
use std::io::{self, Read};
use worklist_text::{Text, write_refused, write_worklist};

// The most bytes that are kept, one more than the largest job has. They stand in an array: who calls `answer_file` lends it no allocator.
const MOST_BYTES: usize = 20 + 12 * (MOST_WORKLIST_CELLS as usize);

// How many bytes are read at a time where none is kept.
const SKIPPED: usize = 4096;

// How many bytes came, and how many of them, the first, stand in the list that they were read into: by these the contract speaks of the text. (Numbers, and
// no part of that list: a `&mut` that goes into a result has no value after the call that a contract could name, and the contract ties the bytes to the list.
// Nor is the text a part: one that is handed back is cleared and copied at each return, 49,152 bytes, so one is lent.)
#[derive(Clone, Copy)]
struct Answered {
    came: usize,
    kept: usize,
}

// Reads n bytes into the piece, as far as it has room and so many come.
fn read_some<R: Read>(file: &mut Source<R>, piece: &mut [u8], n: usize) -> usize
    ensures { result ≤ min n (length piece.new) }
{
    let most = n.min(piece.len());
    file.read_full(&mut piece[..most])
}

// Reads n bytes, as far as so many come, a piece at a time: none is kept. (The count grows by what came, and not by one: a `while`, for which
// no iterator stands.)
fn skip<R: Read>(file: &mut Source<R>, n: usize) -> usize
    ensures { result ≤ n }
{
    // Of fixed size, as no allocator is at hand; a piece is read in part only where fewer bytes are left.
    let mut piece = [0; SKIPPED];
    let mut count = 0;
    while count < n {
        let got = read_some(file, &mut piece, n - count);
        if got == 0 {
            return count;
        }
        count += got;
    }
    count
}

// The answer to a job of at most 64 cells, whose first 7 bytes are read.
fn small_answer<R: Read>(
    file: &mut Source<R>,
    bytes: &mut [u8; MOST_BYTES],
    cells: u32,
    text: &mut Text,
) -> Answered
    requires { (cells ≤ most_worklist_cells) × Says (read_head (take 7 bytes.old)) cells }
    ensures { Answers bytes.new text.new.bytes result }
{
    let came = 7 + read_some(file, &mut bytes[7..], 13 + 12 * cells as usize);
    write_worklist(text, &bytes[..came]);
    Answered { came, kept: came }
}

// The answer to a job of more than 64 cells, whose first 7 bytes are read: the others are not kept.
fn large_answer<R: Read>(
    file: &mut Source<R>,
    bytes: &[u8],
    cells: u32,
    text: &mut Text,
) -> Answered
    requires { (most_worklist_cells < cells) × (7 ≤ length bytes.now) × Says (read_head (take 7 bytes.now)) cells }
    ensures { Answers bytes.now text.new.bytes result }
{
    let came = 7 + skip(file, 13 + 12 * cells as usize);
    let refusal = check_size(cells, came).unwrap_err();
    write_refused(text, refusal.number());
    Answered { came, kept: 7 }
}

// The answer to what the file holds.
fn answer<R: Read>(file: &mut Source<R>, bytes: &mut [u8; MOST_BYTES], text: &mut Text) -> Answered
    ensures { Answers bytes.new text.new.bytes result }
{
    let came = read_some(file, bytes, 7);
    match read_head(&bytes[..came]) {
        Ok(cells) if cells <= MOST_WORKLIST_CELLS => small_answer(file, bytes, cells, text),
        Ok(cells) => large_answer(file, bytes, cells, text),
        Err(refusal) => {
            write_refused(text, refusal.number());
            Answered { came, kept: came }
        }
    }
}

// The whole of the program `worklist`, on the job that an open file holds: prints the answer by one call, then hands back the error where a read failed.
pub fn answer_file<P: Print, R: Read>(rt: &P, file: &mut R) -> io::Result<()> {
    let mut file = Source::new(file);
    // Of fixed size, as no allocator is at hand: `MOST_BYTES` is what the largest job needs.
    let mut bytes = [0; MOST_BYTES];
    let mut text = Text::new();
    answer(&mut file, &mut bytes, &mut text);
    rt.write_all(text.as_str().as_bytes())?;
    file.finish()
}
