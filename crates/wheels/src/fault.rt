ghost use Rattle.std.specs.Prelude.{◌≡◌, ◌++◌, Some, codes};
ghost use Rattle.wheels.specs.Escapes.{quoted};
ghost use Rattle.wheels.specs.Problems.{problem_words};

use crate::quoted::Quoted;
use std::fmt;

/// What can be wrong with a word of the arguments.
#[derive(Clone, Copy)]
pub(crate) enum Problem {
    NoCommand,
    Missing,
    TooMany,
    NoNumber,
    TooLarge,
    NoPartition,
}

impl Problem {
    /// The problem with this word.
    pub(crate) fn of<'a>(self, word: &'a str) -> Fault<'a>
        ensures problem { result.problem ≡ self }
        ensures word { result.word.now ≡ word.now }
    {
        Fault {
            word,
            problem: self,
        }
    }

    fn words(self) -> &'static str
        ensures { result.now ≡ problem_words self }
    {
        match self {
            Problem::NoCommand => "is no command",
            Problem::Missing => "is missing",
            Problem::TooMany => "is one argument too many",
            Problem::NoNumber => "is no decimal number",
            Problem::TooLarge => "has more than 64 bits",
            Problem::NoPartition => "is no partition: those are 0 to 511",
        }
    }
}

/// A word of the arguments, and what is wrong with it.
#[derive(Clone, Copy)]
pub(crate) struct Fault<'a> {
    word: &'a str,
    problem: Problem,
}

impl fmt::Display for Fault<'_> {
    ghost output = { λ fault. Some (quoted fault.word.now ++ (codes " " ++ problem_words fault.problem)) };

    fn fmt<W: fmt::Write>(&self, f: &mut fmt::Formatter<W>) -> fmt::Result {
        let problem = self.problem.words();
        write!(f, "{} {problem}", Quoted(self.word.as_bytes()))
    }
}
