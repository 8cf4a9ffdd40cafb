// The program: it reads the named files and standard input line by line, hands each line to a session, and prints what the session writes.
#![tactic(auto)]

use session::session::Session;
use std::io::{BufRead, BufReader, Write};
use std::process::ExitCode;
use std::{env, fs, io};

const VERSION: &str = "pocketmica 0.1.0\n";

const HELP: &str = "usage: pocketmica [FILE...]

Reads the named files one after the other, - for standard input; standard input
alone if none is named. First the numbers of a body, then questions, a line each:

  a b c d      a span: four whole numbers, in thousandths of a degree
  line N       the line for what follows; 0 until one is given
  above T      the first tick from T on in which the body is above the line
  rise T       the first tick from T on in which it rises
  set T        the first tick from T on in which it sets
  height T     its height in tick T, in whole thousandths
  spans A B    the numbers of the spans from A up to B, without B
  table S      all risings and settings in the ticks of span S
  table        all risings and settings of the file

Blank lines and lines that begin with # are passed over. What cannot be taken is
answered by 'refused N at P: ' and a reason. The status is 0 if everything was
answered, and 1 if anything was refused or a file could not be read.

  --help       this text
  --version    the version
";

// Why a run ends with status 1.
#[derive(Drop)]
enum Stop {
    // Something was refused, and said so where its answer would stand.
    Refused,
    // Something was said on standard error.
    Failed,
}

// Says on standard error what failed.
fn failed(rt: &HostRuntime, what: &str, why: io::Error) -> Stop {
    let _ = eprintln!(rt; "pocketmica: {what}: {why}");
    Stop::Failed
}

fn no_memory(rt: &HostRuntime) -> Stop {
    let _ = eprintln!(rt; "pocketmica: no memory");
    Stop::Failed
}

// Prints a text of the program's own. A Result, as the other arms of `answer` have.
fn print(rt: &HostRuntime, text: &str) -> Result<(), Stop> {
    let _ = rt.print(text);
    Ok(())
}

// Hands each line of an input to the session, and prints what it writes at once.
fn feed_all<B: BufRead>(
    rt: &HostRuntime,
    session: &mut Session,
    name: &str,
    input: &mut B,
) -> Result<(), Stop> {
    let heap = rt.alloc();
    let mut stdout = rt.stdout();
    // the language's form for a loop that reads until its input ends
    for _ in 0..u64::MAX {
        if session.has_ended() {
            break;
        }
        let mut line = Vec::new(heap);
        let read = input
            .read_until(b'\n', &mut line)
            .map_err(|e| failed(rt, name, e))?;
        if read == 0 {
            break;
        }
        let mut out = String::new(heap);
        session
            .feed(heap, line.as_slice(), &mut out)
            .map_err(|_| no_memory(rt))?;
        stdout
            .write_all(out.as_bytes())
            .map_err(|e| failed(rt, "standard output", e))?;
    }
    Ok(())
}

// One named input: a file, or standard input for `-`.
fn feed_named(rt: &HostRuntime, session: &mut Session, name: &str) -> Result<(), Stop> {
    if name == "-" {
        let name = "standard input";
        let mut input = BufReader::new(rt.alloc(), rt.stdin()).map_err(|e| failed(rt, name, e))?;
        return feed_all(rt, session, name, &mut input);
    }
    let file = fs::open(rt, name).map_err(|e| failed(rt, name, e))?;
    let mut input = BufReader::new(rt.alloc(), file).map_err(|e| failed(rt, name, e))?;
    feed_all(rt, session, name, &mut input)
}

// Sees that every named file can be opened, before anything is answered.
fn open_all(rt: &HostRuntime, names: &[String]) -> Result<(), Stop> {
    for name in names {
        let name = name.as_str();
        if name != "-" {
            let _ = fs::open(rt, name).map_err(|e| failed(rt, name, e))?;
        }
    }
    Ok(())
}

fn run(rt: &HostRuntime, names: &[String]) -> Result<(), Stop> {
    let mut session = Session::new(rt.alloc());
    open_all(rt, names)?;
    if names.is_empty() {
        feed_named(rt, &mut session, "-")?;
    }
    for name in names {
        feed_named(rt, &mut session, name.as_str())?;
    }
    if session.refused() {
        Err(Stop::Refused)
    } else {
        Ok(())
    }
}

// What is named: the arguments without the program's own name.
fn arguments(rt: &HostRuntime) -> io::Result<Vec<String>> {
    Ok(env::args(rt)?.skip(1).collect(rt.alloc())?)
}

// Answers what is asked for; each reason not to has been said where it belongs.
fn answer(rt: &HostRuntime) -> Result<(), Stop> {
    let names = arguments(rt).map_err(|e| failed(rt, "arguments", e))?;
    match names.as_slice() {
        [only] if only.as_str() == "--help" => print(rt, HELP),
        [only] if only.as_str() == "--version" => print(rt, VERSION),
        names => run(rt, names),
    }
}

fn main(rt: HostRuntime) -> ExitCode {
    match answer(&rt) {
        Ok(()) => ExitCode::SUCCESS,
        Err(_) => ExitCode::FAILURE,
    }
}
