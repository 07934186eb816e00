// A reader that is read a whole piece at a time. Where a read fails, the input counts as ended, and the error is kept for the one who asks at the end.
#![tactic(auto)]

ghost use Rattle.std.specs.Prelude.{◌≡◌, ◌<◌, ◌≤◌, ◌↔◌, IsOk, IsTrue, length, take};
ghost use Rattle.std.specs.Io.KnownBytes.{Consumes, IsAtEnd};
ghost use Rattle.full_reads.specs.Sources.{HasNotFailed, bytes_left};

use std::io::{self, Read};

#[derive(Drop)]
pub struct Source<R> {
    reader: R,
    failed: Option<io::Error>,
}

impl<R: Read> Source<R> {
    pub fn new(reader: R) -> Source<R>
        ensures fresh { HasNotFailed result }
        ensures bytes { bytes_left R.remaining result ≡ R.remaining reader }
    {
        Source {
            reader,
            failed: None,
        }
    }

    // One read into the piece; 0 at the end of the input, and where a read has failed. (A number, and no Option: `read` of std says the end by 0 too, and for
    // who reads on a failed read is the end.)
    fn read_once(&mut self, piece: &mut [u8]) -> usize
        ensures within { result ≤ length piece.new }
        ensures bytes { Consumes (bytes_left R.remaining self.old) (bytes_left R.remaining self.new) (take result piece.new) }
        ensures ended { result ≡ 0 → 0 < length piece.old → HasNotFailed self.new → IsAtEnd (bytes_left R.remaining self.new) }
        ensures failed { HasNotFailed self.new → HasNotFailed self.old }
    {
        if self.failed.is_some() {
            return 0;
        }
        match self.reader.read(piece) {
            Ok(n) => n,
            Err(error) => {
                self.failed = Some(error);
                0
            }
        }
    }

    // Reads until the piece is full, the input ends or a read fails, and answers how many bytes came, which stand at its front. A loop over reads, since std's
    // `read_exact` says nothing of the bytes that came before a failure; and a `while`, since the place grows by what came and not by one.
    pub fn read_full(&mut self, piece: &mut [u8]) -> usize
        ensures within { result ≤ length piece.new }
        ensures bytes { Consumes (bytes_left R.remaining self.old) (bytes_left R.remaining self.new) (take result piece.new) }
        ensures ended { result < length piece.old → HasNotFailed self.new → IsAtEnd (bytes_left R.remaining self.new) }
        ensures failed { HasNotFailed self.new → HasNotFailed self.old }
    {
        let mut done = 0;
        while done < piece.len() {
            let got = self.read_once(&mut piece[done..]);
            if got == 0 {
                return done;
            }
            done += got;
        }
        done
    }

    // Whether a read, of one byte, finds the end of the input.
    pub fn at_end(&mut self) -> bool
        ensures ended { IsTrue result → HasNotFailed self.new → IsAtEnd (bytes_left R.remaining self.new) }
        ensures failed { HasNotFailed self.new → HasNotFailed self.old }
    {
        let mut byte = [0];
        self.read_full(&mut byte) == 0
    }

    // The error of the read that failed, if one did.
    pub fn finish(&mut self) -> io::Result<()>
        ensures { IsOk result ↔ HasNotFailed self.old }
    {
        self.failed.take().map_or(Ok(()), Err)
    }
}

#[cfg(test)]
mod tests {
    use super::*;
    use std::io::ErrorKind;
    use std::test::Fail;

    // Gives a byte a read, and fails where none is left.
    #[derive(Drop)]
    struct Failing {
        left: u8,
    }

    impl Read for Failing {
        fn read(&mut self, buf: &mut [u8]) -> io::Result<usize> {
            if self.left == 0 {
                return Err(io::Error::from(ErrorKind::Other));
            }
            if buf.is_empty() {
                return Ok(0);
            }
            buf[0] = self.left;
            self.left -= 1;
            Ok(1)
        }
    }

    #[test]
    fn reads_whole_pieces(rt: HostRuntime) -> Result<(), Fail> {
        let mut file = Source::new(b"abcde".as_slice());
        let mut piece = [0u8; 3];
        assert_eq!(rt; file.read_full(&mut piece), 3);
        assert_eq!(rt; piece, [97, 98, 99]);
        assert_eq!(rt; file.at_end(), false);
        assert_eq!(rt; file.read_full(&mut piece), 1);
        assert_eq!(rt; piece, [101, 98, 99]);
        assert_eq!(rt; file.at_end(), true);
        file.finish()?;
        Ok(())
    }

    #[test]
    fn keeps_the_error(rt: HostRuntime) -> Result<(), Fail> {
        let mut file = Source::new(Failing { left: 3 });
        let mut piece = [0u8; 5];
        assert_eq!(rt; file.read_full(&mut piece), 3);
        assert_eq!(rt; piece, [3, 2, 1, 0, 0]);
        assert_eq!(rt; file.read_full(&mut piece), 0);
        assert_eq!(rt; file.at_end(), true);
        assert_eq!(rt; file.finish().is_err(), true);
        Ok(())
    }
}
