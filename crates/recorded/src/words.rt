// The words of a file, read from the front: whole, or a few digits at a time. Past the end of the file, and after a read that failed, they are zeros.
ghost use Rattle.std.specs.Prelude.{◌≤◌};

use full_reads::Source;
use std::alloc::Global;
use std::io::{self, Read};

// The digits of a word, and with the byte behind them.
const DIGITS: usize = 16;

const WORD_BYTES: usize = DIGITS + 1;

const WORD_BITS: u32 = 64;

// What a byte says as a digit, in lower case; 0 where it is none.
fn value_of(byte: u8) -> u8
    ensures { result ≤ 15 }
{
    match byte {
        b'0'..=b'9' => byte - b'0',
        b'a'..=b'f' => byte - b'a' + 10,
        _ => 0,
    }
}

/// The words that are left, and how many bits of the last one are; and where the lists that are read of them are allocated.
#[derive(Drop)]
pub struct Words<R> {
    pub alloc: Global,
    file: Source<R>,
    last: u64,
    left: u32,
    ghost few: { left ≤ 64 },
}

impl<R: Read> Words<R> {
    pub fn new(file: R, alloc: Global) -> Self {
        Words {
            alloc,
            file: Source::new(file),
            last: 0,
            left: 0,
        }
    }

    /// The next word, whole: what is left of the last one is passed over.
    pub fn word(&mut self) -> u64 {
        self.finish_word();
        // Of fixed size, as a word of the file is.
        let mut text = [0; WORD_BYTES];
        self.file.read_full(&mut text);
        text[..DIGITS].iter().fold(0u64, |word, byte| {
            word.wrapping_mul(16) | u64::from(value_of(*byte))
        })
    }

    /// Passes over what is left of the last word.
    pub fn finish_word(&mut self) {
        self.left = 0;
    }

    // The last word, moved right until its next n bits are the last ones. Where fewer are left it is the next word.
    fn bits(&mut self, n: u32) -> u64
        requires { (1 ≤ n) × (n ≤ 64) }
    {
        if self.left < n {
            self.last = self.word();
            self.left = WORD_BITS;
        }
        self.left -= n;
        self.last >> self.left
    }

    /// The next digit.
    pub fn digit(&mut self) -> u8
        ensures { result ≤ 15 }
    {
        (self.bits(4) % 16) as u8
    }

    /// The next number of four digits.
    pub fn number(&mut self) -> u16 {
        // Masked, since a cast may lose no bits; by `try_from` an error would be handed on that never comes.
        (self.bits(16) & 0xffff) as u16
    }

    /// Whether no byte is left.
    pub fn is_at_end(&mut self) -> bool {
        self.file.at_end()
    }

    /// The error of the read that failed, if one did.
    pub fn finish(&mut self) -> io::Result<()> {
        self.file.finish()
    }
}
