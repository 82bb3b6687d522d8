ghost use Rattle.std.specs.Prelude.{◌≡◌, [], length, MatchOption};
ghost use Rattle.names.specs.Names.{class};
ghost use Rattle.image.specs.Promises.{entry_in, FirstEntry, StepsOver};
ghost use Rattle.image.specs.Reading.{listed};
ghost use Rattle.std.specs.Iterator.{at_most};

use crate::field::Record;
use crate::read::read_record;

/// The records of an image from its front on, up to where no sound record follows.
#[derive(Drop)]
pub struct Records<'a> {
    rest: &'a [u8],
}

impl<'a> Records<'a> {
    pub fn of(image: &'a [u8]) -> Records<'a>
        ensures { result.rest.now ≡ image.now }
    {
        Records { rest: image }
    }
}

impl<'a> Iterator for Records<'a> {
    type Item = Record<'a>;

    ghost next_gives = { StepsOver };

    ghost remaining = { λ records. at_most (length records.rest.now) };

    fn next(&mut self) -> Option<Record<'a>> {
        let (record, rest) = split_record(self.rest)?;
        self.rest = rest;
        Some(record)
    }
}

/// The record at the front, and what follows it, unless there is a fault.
fn split_record<'a>(bytes: &'a [u8]) -> Option<(Record<'a>, &'a [u8])>
    ensures { MatchOption result (listed class bytes.now ≡ []) (λ split. FirstEntry class bytes.now (entry_in split.0) split.1.now) }
{
    let record = read_record(bytes, 0).ok()?;
    Some((record, &bytes[record.length()..]))
}
