// Places sensor names: the short form of each, its two placements, and where each placement belongs in a map. Says what a packed image holds.
#![tactic(auto)]

ghost use Rattle.std.specs.Iterator.{IsFinite};

mod command;
mod fault;
mod image_report;
mod layout;
mod lines;
mod numbers;
mod quoted;
mod report;
mod request;

use command::Command;
use image_report::report_image;
use index::Map;
use layout::Layout;
use lines::Lines;
use quoted::Quoted;
use report::report;
use request::{Request, Source};
use std::io::Read;
use std::process::ExitCode;
use std::{env, fmt, fs, io};

const USAGE: &str = "usage: wheels
       wheels place N M PARTITION,PARTITION,.. < IDS
       wheels image FILE
N first servers, M partitions per server, the least map that has the partitions; IDS has a sensor ID on each line;
FILE has a packed image";

/// Sensor IDs as hand readers send them.
const EXAMPLE_IDS: [&[u8]; 14] = [
    b" A 1",
    b"A1",
    b"0A1",
    b"a1",
    b"3FD7 2A91",
    b"3FD72A91",
    b"3A/7F",
    b"3A\x007F",
    b"Q\xE9 \xFF\x7F",
    b"50% \"new\"",
    b"0123456789ABCDEF0123456789ABCDEF",
    b"0123456789ABCDEF0123456789ABCDEF0",
    b"   ",
    b"",
];

fn main(rt: HostRuntime) -> io::Result<ExitCode> {
    match arguments(&rt) {
        Ok(words) => match Command::read(words.as_slice()) {
            Ok(Command::Place(request)) => run(&rt, &request),
            Ok(Command::Image(path)) => show_image(&rt, path),
            Err(fault) => fail(&rt, fault),
        },
        Err(error) => fail(&rt, format_args!("the arguments cannot be read: {error}")),
    }
}

/// The arguments after the program's name.
fn arguments(rt: &HostRuntime) -> io::Result<Vec<String>> {
    Ok(env::args(rt)?.skip(1).collect(rt.alloc())?)
}

/// Says what is wrong with the arguments, and how they are written.
fn fail(rt: &HostRuntime, message: impl fmt::Display + Drop) -> io::Result<ExitCode> {
    eprintln!(rt; "wheels: {message}\n{USAGE}")?;
    Ok(ExitCode::FAILURE)
}

/// Places the IDs of a request, unless its settings are refused.
fn run(rt: &HostRuntime, request: &Request) -> io::Result<ExitCode> {
    match request.settings() {
        Ok(settings) => {
            let map = Map::fill(&request.partitions);
            place(rt, &Layout { settings, map }, request.source)?;
            Ok(ExitCode::SUCCESS)
        }
        Err(refusal) => {
            let servers = request.servers;
            let per_server = request.per_server;
            let number = refusal.number();
            fail(
                rt,
                format_args!("N {servers}, M {per_server}: refused {number}: {refusal}"),
            )
        }
    }
}

fn place(rt: &HostRuntime, layout: &Layout, source: Source) -> io::Result<()> {
    println!(rt; "{layout}\n")?;
    match source {
        Source::Examples => place_all(rt, layout, EXAMPLE_IDS.iter().copied()),
        Source::Input => {
            let mut input = Vec::new(rt.alloc());
            rt.stdin().read_to_end(&mut input)?;
            place_all(rt, layout, Lines::of(&input))
        }
    }
}

/// Places sensor IDs.
fn place_all<'a, I: Iterator<Item = &'a [u8]> + Drop>(
    rt: &impl Print,
    layout: &Layout,
    ids: I,
) -> io::Result<()>
    requires can { I.can_next ids }
    requires ends { IsFinite (I.remaining ids) }
{
    for raw in ids {
        report(rt, layout, raw)?;
    }
    Ok(())
}

/// Says what the packed image in a file holds. The file is read whole and never written.
fn show_image(rt: &HostRuntime, path: &str) -> io::Result<ExitCode> {
    match fs::read(rt, path) {
        Ok(image) => {
            report_image(rt, image.as_slice())?;
            Ok(ExitCode::SUCCESS)
        }
        Err(error) => {
            eprintln!(rt;
                "wheels: {} cannot be read: {error}",
                Quoted(path.as_bytes())
            )?;
            Ok(ExitCode::FAILURE)
        }
    }
}
