// The text that `worklist` prints: decimal numbers, lines, `refused n`.
ghost use Rattle.std.specs.Prelude.{◌≡◌, ◌++◌, ◌+◌, ◌≤◌, length};
ghost use Rattle.worklist_text.specs.Text.{decimal, line_of, refused_line};
ghost use Rattle.worklist_text.specs.Lines.{lines_of};
ghost use Rattle.worklist_text.specs.PlannedText.{most_text};

use crate::Text;
use cell_pairs::{WIDTH, WorkRecord, record_at};
use itoa::Buffer;

// Appends a number and what stands after it.
fn push_number(text: &mut Text, n: u32, after: &str)
    requires { length text.old.bytes + length (decimal n ++ after.now) ≤ most_text }
    ensures { text.new.bytes ≡ text.old.bytes ++ decimal n ++ after.now }
{
    text.push_str(Buffer::new().format(n));
    text.push_str(after);
}

// Appends the line of a record.
fn push_line(text: &mut Text, item: WorkRecord)
    requires { length text.old.bytes + length (line_of item) ≤ most_text }
    ensures { text.new.bytes ≡ text.old.bytes ++ line_of item }
{
    push_number(text, item.pattern, " ");
    push_number(text, item.test, " ");
    push_number(text, item.trial, "\n");
}

// Writes the lines of a work list, whatever stood in the text.
pub(crate) fn write_lines(text: &mut Text, work: &[u32])
    requires { length (lines_of work.now) ≤ most_text }
    ensures { text.new.bytes ≡ lines_of work.now }
{
    text.clear();
    for record in work.chunks_exact(WIDTH) {
        push_line(text, record_at(record, 0));
    }
}

// Writes `refused n`, whatever stood in the text, of a refusal's number: a job's refusal and planning's are two types. (`write!` of one's Display is
// no plainer: no contract says what that writes.)
pub fn write_refused(text: &mut Text, n: u32)
    ensures { text.new.bytes ≡ refused_line n }
{
    text.clear();
    text.push_str("refused ");
    push_number(text, n, "\n");
}

// `refused n`, in a text of its own.
pub fn refused_text(n: u32) -> Text
    ensures { result.bytes ≡ refused_line n }
{
    let mut text = Text::new();
    write_refused(&mut text, n);
    text
}
