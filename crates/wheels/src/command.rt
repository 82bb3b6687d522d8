use crate::fault::{Fault, Problem};
use crate::request::Request;

/// What the program is asked to do.
#[derive(Clone, Copy)]
pub(crate) enum Command<'a> {
    /// Places sensor IDs.
    Place(Request),
    /// Says what the packed image in a file holds.
    Image(&'a str),
}

impl<'a> Command<'a> {
    /// Reads the arguments that follow the program's name.
    pub(crate) fn read(words: &'a [String]) -> Result<Command<'a>, Fault<'a>> {
        match words {
            [] => Ok(Command::Place(Request::example())),
            [command, rest @ ..] => match command.as_str() {
                "place" => Ok(Command::Place(Request::read(rest)?)),
                "image" => Ok(Command::Image(file(rest)?)),
                _ => Err(Problem::NoCommand.of(command.as_str())),
            },
        }
    }
}

/// The one argument of `image`.
fn file(words: &[String]) -> Result<&str, Fault<'_>> {
    match words {
        [] => Err(Problem::Missing.of("FILE")),
        [path] => Ok(path.as_str()),
        [_, word, ..] => Err(Problem::TooMany.of(word.as_str())),
    }
}
