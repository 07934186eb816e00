// The head of a recorded case: what planning is given.
use crate::{Scalar, Words};
use function::{Element, Elements};
use grid::Sizes;
use integrands::{Integrand, Term};
use planning::Assembly;
use std::io::Read;

/// A term, by its kind, a number as `Term` has it. The factor of one that has it stands further on in the file.
#[derive(Clone, Copy)]
enum Form {
    Bare(u32),
    Scaled(u32),
}

impl Form {
    fn read<R: Read>(words: &mut Words<R>) -> Self {
        // Two digits of the file: the first is 0 for a bare term.
        let scaled = words.digit() != 0;
        let kind = u32::from(words.digit());
        if scaled {
            Form::Scaled(kind)
        } else {
            Form::Bare(kind)
        }
    }

    fn term(self, factor: f64) -> Term {
        match self {
            Form::Bare(kind) => Term::Bare(kind),
            Form::Scaled(kind) => Term::Scaled(factor, kind),
        }
    }
}

/// How many terms an integrand has, a number as `Integrand` has it, which check 6 may turn down; and their forms.
#[derive(Clone, Copy)]
pub struct Forms {
    terms: u32,
    first: Form,
    second: Form,
}

impl Forms {
    pub fn read<R: Read>(words: &mut Words<R>) -> Self {
        Forms {
            terms: u32::from(words.digit()),
            first: Form::read(words),
            second: Form::read(words),
        }
    }

    /// The integrand, whose two factors are the next words.
    pub fn read_factors<R: Read>(self, words: &mut Words<R>) -> Integrand {
        Integrand {
            terms: self.terms,
            first: self.first.term(f64::next_in(words)),
            second: self.second.term(f64::next_in(words)),
        }
    }
}

/// An element: a, b and c. (Its fields are other than those of `Forms`: nothing is shared but reading a digit.)
pub fn read_element<R: Read>(words: &mut Words<R>) -> Element {
    Element {
        a: u32::from(words.digit()),
        b: u32::from(words.digit()),
        c: u32::from(words.digit()),
    }
}

/// The head of a case: what planning is given, but for the factors of its terms. Digits that each program reads for itself stand before these.
#[derive(Clone, Copy)]
pub struct Head {
    pub sizes: Sizes,
    batch: u32,
    test: Element,
    trial: Element,
    forms: Forms,
}

impl Head {
    pub fn read<R: Read>(words: &mut Words<R>) -> Self {
        words.finish_word();
        Head {
            sizes: Sizes {
                cells: u32::next_in(words),
                vertices: u32::next_in(words),
                edges: u32::next_in(words),
            },
            batch: u32::next_in(words),
            test: read_element(words),
            trial: read_element(words),
            forms: Forms::read(words),
        }
    }

    /// What planning is given besides the mesh: the factors are the next words. A recorded element is that of triangles, and stands for quads too where there
    /// are none.
    pub fn read_assembly<R: Read>(self, words: &mut Words<R>) -> Assembly {
        Assembly {
            test: Elements::from(self.test),
            trial: Elements::from(self.trial),
            batch: self.batch,
            integrand: self.forms.read_factors(words),
        }
    }
}
