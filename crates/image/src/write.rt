ghost use Rattle.std.specs.Prelude.{◌≡◌, ◌+◌, ◌<◌, ◌≤◌, ◌++◌, length, drop, replicate};
ghost use Rattle.image.specs.Format.{field, record_bytes, weight};
ghost use Rattle.image.specs.Promises.{entry_in};
ghost use Rattle.image.specs.Tags.{tag_number};

use crate::field::Record;
use crate::tag::Tag;

/// Moves what stands behind the first `gap` bytes to the front, and makes the bytes set free zero.
pub(crate) fn close_up(part: &mut [u8], gap: usize)
    requires { gap ≤ length part.old }
    ensures { part.new ≡ drop gap part.old ++ replicate gap 0 }
{
    let keep = part.len() - gap;
    part.copy_within(gap.., 0);
    part[keep..].fill(0);
}

/// Makes the whole of `part` zero.
pub(crate) fn wipe(part: &mut [u8])
    ensures { part.new ≡ replicate (length part.old) 0 }
{
    part.fill(0);
}

/// Writes a field over the whole of `part`.
pub(crate) fn write_field(part: &mut [u8], tag: Tag, content: &[u8])
    requires { (length part.old ≡ 3 + length content.now) × (length content.now < 65536) }
    ensures { part.new ≡ field (tag_number tag) content.now }
{
    let (front, back) = part.split_at_mut(3);
    let [high, low] = (content.len() as u16).to_be_bytes();
    front.copy_from_slice(&[tag as u8, high, low]);
    back.copy_from_slice(content);
}

/// Writes a record over the whole of `part`.
pub(crate) fn write_record(part: &mut [u8], added: &Record)
    requires { (length part.old ≡ weight (length added.now.name.now)) × (length added.now.name.now < 65536) }
    ensures { part.new ≡ record_bytes (entry_in added.now) }
{
    let (first, others) = part.split_at_mut(5);
    let (second, third) = others.split_at_mut(3 + added.name.len());
    write_field(first, Tag::Partition, &added.partition.to_be_bytes());
    write_field(second, Tag::Name, added.name);
    write_field(third, Tag::Number, &added.number.to_be_bytes());
}
