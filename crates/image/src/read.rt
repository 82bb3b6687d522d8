ghost use Rattle.std.specs.Prelude.{◌≤◌, length, drop};
ghost use Rattle.names.specs.Names.{class};
ghost use Rattle.image.specs.Promises.{ContentRead, FieldRead, TagRead, RecordRead};

use crate::fault::{FieldCheck, FieldFault, RecordFault};
use crate::field::{Field, Record};
use crate::tag::Tag;

/// The record that begins at `place`, or its first fault.
pub(crate) fn read_record<'a>(image: &'a [u8], place: usize) -> Result<Record<'a>, RecordFault>
    requires { place ≤ length image.now }
    ensures { RecordRead class result place (drop place image.now) }
{
    let Field::Partition(partition) = read_field(&image[place..], Tag::Partition, place)? else {
        unreachable!()
    };
    let Field::Name(name) = read_field(&image[place + 5..], Tag::Name, place + 5)? else {
        unreachable!()
    };
    let at = place + 8 + name.len();
    let Field::Number(number) = read_field(&image[at..], Tag::Number, at)? else {
        unreachable!()
    };
    Ok(Record {
        partition,
        name,
        number,
    })
}

/// The field with this tag at the front of `bytes`, which stand at `place` in the image, or its first fault.
fn read_field<'a>(bytes: &'a [u8], tag: Tag, place: usize) -> Result<Field<'a>, RecordFault>
    ensures { FieldRead class result tag place bytes.now }
{
    read_tag(bytes, tag, place)?;
    Ok(read_content(bytes, tag, place)?)
}

// Kept: three functions hand on bytes, tag and place, and a struct of them would be made and taken apart in each.
fn read_tag(bytes: &[u8], tag: Tag, place: usize) -> Result<(), RecordFault>
    ensures { TagRead result tag place bytes.now }
{
    match bytes {
        [first, ..] if *first == tag as u8 => Ok(()),
        _ => Err(RecordFault::Tag(place)),
    }
}

/// The field at the front of `bytes`, whose tag is known.
fn read_content<'a>(bytes: &'a [u8], tag: Tag, place: usize) -> Result<Field<'a>, FieldFault>
    ensures { ContentRead class result tag place bytes.now }
{
    let fault = |check| FieldFault { check, place };
    let [_tag, high, low, rest @ ..] = bytes else {
        return Err(fault(FieldCheck::NoLength));
    };
    // Kept: by `u16::from_be_bytes` a find among 1,000 entries took 22 % longer, the rest of the code being the same.
    let len = usize::from(*high) * 256 + usize::from(*low);
    if !tag.allows(len) {
        return Err(fault(FieldCheck::Length));
    }
    if rest.len() < len {
        return Err(fault(FieldCheck::NoContent));
    }
    tag.field(&rest[..len]).ok_or(fault(FieldCheck::Content))
}
