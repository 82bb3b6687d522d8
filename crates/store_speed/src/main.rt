// Measures the calls of the stores at several numbers of entries.
#![tactic(auto)]

mod load;
mod measure;

use measure::{images, table, tables};
use std::env;

const USAGE: &str = "store_speed measure: nanoseconds for each call of both stores
store_speed slots COUNT ROUNDS: the same for a slot table with COUNT entries, filled and emptied ROUNDS times";

fn main(rt: HostRuntime) -> anyhow::Result<()> {
    let words: Vec<String> = env::args(&rt)?.skip(1).collect(rt.alloc())?;
    match words.as_slice() {
        [word] if word.as_str() == "measure" => {
            tables(&rt)?;
            images(&rt)
        }
        [word, count, rounds] if word.as_str() == "slots" => table(
            &rt,
            count.parse::<u32>()?,
            rounds.parse::<u32>()?,
        ),
        _ => {
            println!(rt; "{USAGE}")?;
            Ok(())
        }
    }
}
