// Worked cases of names, maps, servers and settings, and the test suite of RFC 1321. The file `stdout` has what each must give.
#![tactic(auto)]

mod display;

use display::Digest;
use index::{Map, PartitionSet, Settings};
use names::{NameRefusal, shorten};
use placement::md5;
use std::io;

fn main(rt: HostRuntime) -> io::Result<()> {
    md5_suite(&rt)?;
    println!(rt; "")?;
    md5_block_ends(&rt)?;
    println!(rt; "")?;
    let map = filled(&[2, 5]);
    ranges(&rt, &map)?;
    outside(&rt, &map)?;
    fillings(&rt)?;
    println!(rt; "")?;
    servers(&rt)?;
    settings(&rt)?;
    println!(rt; "")?;
    same_names(&rt)?;
    refusals(&rt)
}

/// The test suite of RFC 1321, A.5, as the RFC prints it.
fn md5_suite(rt: &impl Print) -> io::Result<()> {
    println!(rt; "MD5 test suite:")?;
    for message in [
        "",
        "a",
        "abc",
        "message digest",
        "abcdefghijklmnopqrstuvwxyz",
        "ABCDEFGHIJKLMNOPQRSTUVWXYZabcdefghijklmnopqrstuvwxyz0123456789",
        "12345678901234567890123456789012345678901234567890123456789012345678901234567890",
    ] {
        println!(rt; "MD5 (\"{message}\") = {}", Digest(md5(message.as_bytes())))?;
    }
    Ok(())
}

/// Messages that end near the end of a block of 64 bytes, or where the length no longer fits the last block.
fn md5_block_ends(rt: &impl Print) -> io::Result<()> {
    let letters = [b'a'; 128];
    for n in [55, 56, 57, 63, 64, 65, 119, 120, 128] {
        if let Some(message) = letters.get(0..n) {
            println!(rt; "MD5 of {n} times \"a\" = {}", Digest(md5(message)))?;
        }
    }
    Ok(())
}

/// The least map that has these partitions.
fn filled(partitions: &[u16]) -> Map {
    let mut set = PartitionSet::new();
    for p in partitions {
        set.add(*p);
    }
    Map::fill(&set)
}

fn ranges(rt: &impl Print, map: &Map) -> io::Result<()> {
    print!(rt; "depths in {map}:")?;
    for depth in (0..512).filter_map(|p| map.depth(p)) {
        print!(rt; " {depth}")?;
    }
    println!(rt; "")?;
    if let Some(range) = map.range(5) {
        println!(rt;
            "partition 5 in {map}: 0x{:08X} to 0x{:08X}",
            range.first, range.last
        )?;
    }
    let before = map.partition_for(0x9FFF_FFFF);
    let after = map.partition_for(0xA000_0000);
    println!(rt; "0x9FFFFFFF goes to {before}, 0xA0000000 goes to {after}")
}

/// Numbers that are no partition of the map.
fn outside(rt: &impl Print, map: &Map) -> io::Result<()> {
    println!(rt; "4 has a depth in {map}: {}", map.depth(4).is_some())?;
    println!(rt; "600 has a range in {map}: {}", map.range(600).is_some())?;
    println!(rt; "512 is in {map}: {}", map.has(512))
}

fn fillings(rt: &impl Print) -> io::Result<()> {
    println!(rt; "{{6}} fills up to {}", filled(&[6]))?;
    let mut map = filled(&[2]);
    let other = filled(&[5]);
    println!(rt; "{{2}} fills up to {map}, {{5}} fills up to {other}")?;
    map.join(&other);
    println!(rt; "they join to {map}, {} partitions", map.len())
}

fn servers(rt: &impl Print) -> io::Result<()> {
    if let Ok(settings) = Settings::new(5, 3, 8000) {
        let [a, b, c] = [14, 15, 20].map(|p| settings.holder(p));
        println!(rt; "with 5 servers and 3 partitions each, 14 15 20 are held by {a} {b} {c}")?;
    }
    Ok(())
}

/// Settings at their limits and beyond them.
fn settings(rt: &impl Print) -> io::Result<()> {
    for (servers, per_server, threshold) in [
        (0, 16, 8000),
        (1, 16, 8000),
        (32, 16, 8000),
        (33, 16, 8000),
        (32, 0, 8000),
        (32, 1, 8000),
        (32, 17, 8000),
        (32, 16, 0),
        (32, 16, 1),
        (32, 16, 8001),
    ] {
        print!(rt; "servers {servers}, partitions each {per_server}, threshold {threshold}: ")?;
        match Settings::new(servers, per_server, threshold) {
            Ok(_) => println!(rt; "accepted")?,
            Err(refusal) => println!(rt; "refused {}", refusal.number())?,
        }
    }
    Ok(())
}

fn same_names(rt: &impl Print) -> io::Result<()> {
    for (one, other) in [(" A 1", "A1"), ("0A1", "A1"), ("a1", "A1")] {
        let same = is_same_name(one.as_bytes(), other.as_bytes()).unwrap_or(false);
        println!(rt; "\"{one}\" is the name \"{other}\": {same}")?;
    }
    Ok(())
}

/// Whether two names are the same one, or why the first of them that is refused is none.
fn is_same_name(one: &[u8], other: &[u8]) -> Result<bool, NameRefusal> {
    Ok(shorten(one)? == shorten(other)?)
}

/// Names at the limits, and names that have more than one fault.
fn refusals(rt: &impl Print) -> io::Result<()> {
    for (what, raw) in [
        ("no byte", ""),
        ("32 bytes", "0123456789ABCDEF0123456789ABCDEF"),
        ("33 bytes", "0123456789ABCDEF0123456789ABCDEF0"),
        ("33 bytes with a slash", "0123456789ABCDEF/123456789ABCDEF0"),
        ("a slash", "3A/7F"),
        ("a byte 0", "3A\x007F"),
        ("spaces and a slash", "  / "),
        ("only spaces", "    "),
        ("spaces and a letter", "  Z "),
    ] {
        match shorten(raw.as_bytes()) {
            Ok(name) => println!(rt; "{what}: accepted, {} in the short form", name.length())?,
            Err(refusal) => println!(rt; "{what}: refused {}", refusal.number())?,
        }
    }
    Ok(())
}
