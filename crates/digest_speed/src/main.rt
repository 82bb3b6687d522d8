// Prints the digest of a million times the letter a; with an argument, how fast `md5` is on messages of 8 bytes and of 1 MiB.
#![tactic(auto)]

use placement::md5;
use std::time::{Duration, Instant};
use std::{env, fmt, io};

// A digest, which prints in hexadecimal.
// Kept: `cases` has the same, since the two programs share only `placement`, where a type that prints would be public for them alone.
#[derive(Clone, Copy)]
struct Digest([u8; 16]);

impl fmt::Display for Digest {
    fn fmt<W: fmt::Write>(&self, f: &mut fmt::Formatter<W>) -> fmt::Result {
        for byte in &self.0 {
            write!(f, "{byte:02x}")?;
        }
        Ok(())
    }
}

// The digest of a million times the letter a, in hexadecimal.
fn show_million(rt: &HostRuntime) -> anyhow::Result<()> {
    let message = vec![in rt.alloc(); b'a'; 1_000_000]?;
    let digest = Digest(md5(&message));
    println!(rt; "{digest}")?;
    Ok(())
}

// How long `times` digests take; each message begins with bytes of the digest before it.
fn time(rt: &HostRuntime, message: &mut [u8], times: u32) -> io::Result<Duration> {
    let start = Instant::now(rt)?;
    for _ in 0..times {
        let digest = md5(message);
        if let Some((front, _)) = message.split_at_mut_checked(8) {
            front.copy_from_slice(&digest[..8]);
        }
    }
    start.elapsed(rt)
}

const RUNS: u32 = 200;

// How long runs of the same work took.
#[derive(Clone, Copy, Debug)]
struct Spent {
    least: Duration,
    mean: Duration,
}

// The least and the mean time of the runs.
fn repeat(rt: &HostRuntime, message: &mut [u8], times: u32) -> io::Result<Spent> {
    let mut least = Duration::MAX;
    let mut total = Duration::ZERO;
    for _ in 0..RUNS {
        let run = time(rt, message, times)?;
        least = least.min(run);
        total = total.saturating_add(run);
    }
    Ok(Spent {
        least,
        mean: total / RUNS,
    })
}

// The rate at which 1 MiB is digested in such a time, in MB/s; 0 where the clock did not move.
fn rate(spent: Duration) -> u128 {
    1_048_576_000u128.checked_div(spent.as_nanos()).unwrap_or(0)
}

fn measure(rt: &HostRuntime) -> anyhow::Result<()> {
    let mut short = [0u8; 8];
    let each = repeat(rt, &mut short, 10_000)?;
    println!(rt;
        "8 bytes: mean {} ns, least {} ns",
        (each.mean / 10_000).as_nanos(),
        (each.least / 10_000).as_nanos()
    )?;
    let mut long = vec![in rt.alloc(); 0u8; 1_048_576]?;
    let whole = repeat(rt, &mut long, 1)?;
    println!(rt;
        "1 MiB: mean {} MB/s, best {} MB/s",
        rate(whole.mean),
        rate(whole.least)
    )?;
    Ok(())
}

fn main(rt: HostRuntime) -> anyhow::Result<()> {
    if env::args(&rt)?.nth(1).is_some() {
        return measure(&rt);
    }
    show_million(&rt)
}
