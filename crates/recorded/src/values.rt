// The values of lists, and lists of them.
ghost use Rattle.std.specs.Prelude.{◌≡◌, IfOk, vec_len};

use crate::{Words, bits_of, finite_of};
use std::alloc::AllocError;
use std::io::{self, ErrorKind, Read};

/// A value of a list, which any digits give: an integer of four digits, or a whole word.
pub trait Scalar: PartialEq + Copy + Default {
    fn next_in<R: Read>(words: &mut Words<R>) -> Self;

    /// Whether the next value is this one.
    fn is_next_in<R: Read>(&self, words: &mut Words<R>) -> bool {
        Self::next_in(words) == *self
    }
}

impl Scalar for u8 {
    /// The last of the four digits: a kind.
    fn next_in<R: Read>(words: &mut Words<R>) -> Self {
        (words.number() % 16) as u8
    }
}

impl Scalar for u32 {
    fn next_in<R: Read>(words: &mut Words<R>) -> Self {
        u32::from(words.number())
    }
}

impl Scalar for usize {
    fn next_in<R: Read>(words: &mut Words<R>) -> Self {
        usize::from(words.number())
    }
}

impl Scalar for u64 {
    fn next_in<R: Read>(words: &mut Words<R>) -> Self {
        words.word()
    }
}

impl Scalar for f64 {
    fn next_in<R: Read>(words: &mut Words<R>) -> Self {
        finite_of(words.word())
    }

    fn is_next_in<R: Read>(&self, words: &mut Words<R>) -> bool {
        bits_of(*self) == words.word()
    }
}

impl<R: Read> Words<R> {
    /// Reads the next list, as long as this one, into it.
    pub fn fill<T: Scalar>(&mut self, list: &mut [T]) {
        self.finish_word();
        for x in list {
            *x = T::next_in(self);
        }
    }

    /// The next list, of n values.
    pub fn scalars<T: Scalar>(&mut self, n: usize) -> Result<Vec<T>, AllocError> {
        let mut list = vec![in self.alloc; T::default(); n]?;
        self.fill(&mut list);
        Ok(list)
    }

    /// Whether the next list is this one, all of which is read.
    pub fn are_next<T: Scalar>(&mut self, list: &[T]) -> bool {
        self.finish_word();
        let mut same = true;
        for x in list {
            same &= x.is_next_in(self);
        }
        same
    }
}

/// A value of a list of a text, which may be refused: an integer of four digits, or a whole word. Its type need be neither Copy nor have a default.
pub trait Recorded: PartialEq + Drop {
    fn read(words: &mut Words<&[u8]>) -> io::Result<Self>;

    /// Whether the next value is this one.
    fn is_next(&self, words: &mut Words<&[u8]>) -> io::Result<bool> {
        Ok(Self::read(words)? == *self)
    }
}

impl Recorded for u8 {
    /// All four digits: a number above 255 is refused.
    fn read(words: &mut Words<&[u8]>) -> io::Result<Self> {
        u8::try_from(words.number()).map_err(|_| io::Error::from(ErrorKind::InvalidData))
    }
}

impl Recorded for u32 {
    fn read(words: &mut Words<&[u8]>) -> io::Result<Self> {
        Ok(u32::next_in(words))
    }
}

impl Recorded for usize {
    fn read(words: &mut Words<&[u8]>) -> io::Result<Self> {
        Ok(usize::next_in(words))
    }
}

impl Recorded for u64 {
    fn read(words: &mut Words<&[u8]>) -> io::Result<Self> {
        Ok(u64::next_in(words))
    }
}

impl Recorded for f64 {
    fn read(words: &mut Words<&[u8]>) -> io::Result<Self> {
        Ok(f64::next_in(words))
    }

    fn is_next(&self, words: &mut Words<&[u8]>) -> io::Result<bool> {
        Ok(self.is_next_in(words))
    }
}

impl Words<&[u8]> {
    /// The next list, of n values.
    pub fn list<T: Recorded>(&mut self, n: usize) -> io::Result<Vec<T>>
        ensures { IfOk result (λ list. vec_len list ≡ n) }
    {
        self.finish_word();
        let alloc = self.alloc;
        (0..n).map(|_| T::read(self)).try_collect(alloc)
    }

    /// Whether the next list is this one, all of which is read. (A loop beside that of `are_next`: here a value may be refused, and there none can.)
    pub fn is_next<T: Recorded>(&mut self, list: &[T]) -> io::Result<bool> {
        self.finish_word();
        let mut same = true;
        for x in list {
            same &= x.is_next(self)?;
        }
        Ok(same)
    }
}

#[cfg(test)]
mod tests {
    use super::*;
    use std::test::Fail;

    // A value of one's own, which is neither Copy nor Default.
    #[derive(PartialEq, Drop)]
    struct Place {
        kind: u8,
        number: u32,
    }

    impl Recorded for Place {
        fn read(words: &mut Words<&[u8]>) -> io::Result<Self> {
            Ok(Place {
                kind: u8::read(words)?,
                number: u32::read(words)?,
            })
        }
    }

    #[test]
    fn reads_lists(rt: HostRuntime) -> Result<(), Fail> {
        let text = "000100ff00130100 4045000000000000 ffffffffffffffff 0002000300040000\n";
        let mut words = Words::new(text.as_bytes(), rt.alloc());
        let numbers: Vec<u32> = words.list(3)?;
        assert_eq!(rt; numbers.as_slice(), [1, 255, 19].as_slice());
        let floats: Vec<f64> = words.list(1)?;
        assert_eq!(rt; floats.as_slice(), [42.0].as_slice());
        let bits: Vec<u64> = words.list(1)?;
        assert_eq!(rt; bits.as_slice(), [u64::MAX].as_slice());
        let lengths: Vec<usize> = words.list(2)?;
        assert_eq!(rt; lengths.as_slice(), [2, 3].as_slice());
        assert_eq!(rt; words.is_at_end(), true);
        Ok(())
    }

    // The fourth number is 256: the list of kinds is refused, and so is the question whether it is the next one.
    #[test]
    fn refuses_kinds(rt: HostRuntime) -> Result<(), Fail> {
        let text = "000100ff00130100 000100ff00130100 000100ff00130100\n";
        let mut words = Words::new(text.as_bytes(), rt.alloc());
        let kinds: Vec<u8> = words.list(3)?;
        assert_eq!(rt; kinds.as_slice(), [1, 255, 19].as_slice());
        let refused: io::Result<Vec<u8>> = words.list(4);
        assert_eq!(rt; refused.is_err(), true);
        assert_eq!(rt; words.is_next(&[1u8, 255, 19, 0]).is_err(), true);
        Ok(())
    }

    #[test]
    fn compares_lists(rt: HostRuntime) -> Result<(), Fail> {
        let text = "0001000200030004 4045000000000000 7ff8000000000000 0001000200030004\n";
        let mut words = Words::new(text.as_bytes(), rt.alloc());
        assert_eq!(rt; words.is_next(&[1u32, 2, 3])?, true);
        assert_eq!(rt; words.is_next(&[42.0, f64::NAN])?, true);
        assert_eq!(rt; words.is_next(&[1usize, 2, 4])?, false);
        Ok(())
    }

    #[test]
    fn reads_values_of_ones_own(rt: HostRuntime) -> Result<(), Fail> {
        let text = "0001000200030004 0001000200030004\n";
        let mut words = Words::new(text.as_bytes(), rt.alloc());
        let places: Vec<Place> = words.list(2)?;
        let first = Place { kind: 1, number: 2 };
        let second = Place { kind: 3, number: 4 };
        assert_eq!(rt; places.as_slice() == [first, second].as_slice(), true);
        assert_eq!(rt; words.is_next(&places)?, true);
        Ok(())
    }
}
