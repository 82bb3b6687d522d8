ghost use Rattle.std.specs.Prelude.{◌≡◌, length, MatchOption, ◌==◌};
ghost use Rattle.std.specs.Iterator.{at_most};
ghost use Rattle.wheels.specs.Texts.{FirstLine, without_newline};

/// The lines of a text, without their ends. What follows the last end is a line too, where it is not empty.
#[derive(Drop)]
pub(crate) struct Lines<'a> {
    rest: &'a [u8],
}

impl<'a> Lines<'a> {
    // Kept: beside the `of` of `image`'s `Records`, since each is a line and no crate below both knows the two types.
    pub(crate) fn of(text: &'a [u8]) -> Lines<'a>
        ensures { result.rest.now ≡ text.now }
    {
        Lines { rest: text }
    }
}

impl<'a> Iterator for Lines<'a> {
    type Item = &'a [u8];

    ghost next_gives = { λ lines r after. MatchOption r ((length lines.rest.now ≡ 0) × (after ≡ lines)) (λ line. FirstLine lines.rest.now line.now after.rest.now) };

    ghost remaining = { λ lines. at_most (length lines.rest.now) };

    fn next(&mut self) -> Option<&'a [u8]> {
        let text = self.rest;
        let line = text.split_inclusive(is_newline).next()?;
        self.rest = &text[line.len()..];
        Some(without_end(line))
    }
}

fn is_newline(byte: &u8) -> bool
    ensures { result ≡ (byte.now == 10) }
{
    *byte == b'\n'
}

/// A line without the newline at its end.
fn without_end(line: &[u8]) -> &[u8]
    ensures { result.now ≡ without_newline line.now }
{
    line.strip_suffix(b"\n").unwrap_or(line)
}
