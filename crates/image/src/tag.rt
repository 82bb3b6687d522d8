ghost use Rattle.std.specs.Prelude.{◌≡◌, length, true, false, MatchOption};
ghost use Rattle.names.specs.Names.{class};
ghost use Rattle.image.specs.Promises.{Says};
ghost use Rattle.image.specs.Reading.{length_fits, content_fits};
ghost use Rattle.image.specs.Tags.{tag_number};

use crate::field::Field;
use names::is_short;
use store::LAST_PARTITION;

/// The tag of a field, which says what its content is.
#[derive(Clone, Copy, PartialEq, Eq, Debug)]
pub(crate) enum Tag {
    Partition = 1,
    Name = 2,
    Number = 3,
}

impl Tag {
    /// Whether the content of a field with this tag may have this length.
    pub(crate) fn allows(self, len: usize) -> bool
        ensures { result ≡ length_fits (tag_number self) len }
    {
        match self {
            Tag::Partition => len == 2,
            Tag::Name => (1..=32).contains(&len),
            Tag::Number => len == 8,
        }
    }

    /// The field with this tag and content, unless the content does not pass.
    pub(crate) fn field<'a>(self, content: &'a [u8]) -> Option<Field<'a>>
        requires { length_fits (tag_number self) (length content.now) ≡ true }
        ensures { MatchOption result (content_fits class (tag_number self) content.now ≡ false) (λ field. (content_fits class (tag_number self) content.now ≡ true) × Says field self content.now) }
    {
        match self {
            Tag::Partition => {
                let partition = u16::from_be_bytes(content.try_into().unwrap());
                (partition <= LAST_PARTITION).then_some(Field::Partition(partition))
            }
            Tag::Name => is_short(content).then_some(Field::Name(content)),
            Tag::Number => Some(Field::Number(u64::from_be_bytes(content.try_into().unwrap()))),
        }
    }
}
