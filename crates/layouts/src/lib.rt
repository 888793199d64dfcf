// Layouts from standard input.
#![tactic(auto)]

ghost use Rattle.std.specs.Prelude.{◌≡◌, ◌≤◌, IfOk};
ghost use Rattle.std.specs.Process.{exit_status};
ghost use Rattle.layouts.specs.declared.LineError.TheVariants.{Word, NoMemory};

use anyhow::anyhow;
use conversion::entries::LayoutEntry;
use script::lines::{Line, Unreadable, read_line};
use script::words::Span;
use std::alloc::{AllocError, AllocFailed, Global};
use std::error::Error;
use std::io::{BufRead, BufReader};
use std::process::ExitCode;
use std::{env, fmt, io};

#[derive(Drop)]
pub struct Layout {
    pub name: String,
    pub partially_bound: bool,
    pub entries: Vec<LayoutEntry>,
}

// Why a line can't be taken.
#[derive(Clone, Copy, Debug)]
enum LineError {
    Word(Unreadable),
    // An entry stands before the first layout.
    NoLayout,
    NoMemory(AllocError),
}

impl fmt::Display for LineError {
    fn fmt<W: fmt::Write>(&self, f: &mut fmt::Formatter<W>) -> fmt::Result {
        match self {
            LineError::Word(unreadable) => write!(f, "{unreadable}"),
            LineError::NoLayout => write!(f, "expected `layout` before the first `entry`"),
            LineError::NoMemory(error) => write!(f, "{error}"),
        }
    }
}

impl Error for LineError {}

impl From<Unreadable> for LineError {
    ghost from_gives = { λ u e. e ≡ Word u };

    fn from(unreadable: Unreadable) -> LineError {
        LineError::Word(unreadable)
    }
}

impl From<AllocError> for LineError {
    ghost from_gives = { λ a e. e ≡ NoMemory a };

    fn from(error: AllocError) -> LineError {
        LineError::NoMemory(error)
    }
}

impl<T: Drop> From<AllocFailed<T>> for LineError {
    ghost from_gives = { λ _ e. (a : _) × (e ≡ NoMemory a) };

    fn from(error: AllocFailed<T>) -> LineError {
        LineError::NoMemory(AllocError::from(error))
    }
}

// No `From`, since it asks for memory.
fn name_of(heap: Global, line: &str, name: Span) -> Result<String, AllocError> {
    let Span { start, end } = name;
    let text = line.get(start..end).unwrap_or("?");
    String::from_str(heap, text)
}

// Takes one line up into the layouts.
fn take_line(heap: Global, layouts: &mut Vec<Layout>, line: &str) -> Result<(), LineError> {
    match read_line(line.as_bytes())? {
        Line::Blank => {}
        Line::Layout {
            name,
            partially_bound,
        } => {
            let name = name_of(heap, line, name)?;
            layouts.push(Layout {
                name,
                partially_bound,
                entries: Vec::new(heap),
            })?;
        }
        Line::Entry(entry) => {
            let layout = layouts.last_mut().ok_or(LineError::NoLayout)?;
            layout.entries.push(entry)?;
        }
    }
    Ok(())
}

// All layouts, or an error once each line that can't be read was named.
pub fn read_layouts(rt: &HostRuntime) -> anyhow::Result<Vec<Layout>> {
    let heap = rt.alloc();
    let mut layouts: Vec<Layout> = Vec::new(heap);
    // A flag and no early return, so that each line that can't be read is named.
    let mut readable = true;
    for (index, line) in BufReader::new(heap, rt.stdin())?.lines(heap).enumerate() {
        let number = index.saturating_add(1);
        let line = match line {
            Ok(line) => line,
            Err(error) => {
                eprintln!(rt; "line {number}: {error}")?;
                return Err(anyhow!(
                    "the script can't be read to its end, so nothing was converted"
                ));
            }
        };
        if let Err(error) = take_line(heap, &mut layouts, line.as_str()) {
            match error {
                LineError::Word(unreadable) => eprintln!(rt; "line {number}, {unreadable}")?,
                LineError::NoLayout => eprintln!(rt; "line {number}: {error}")?,
                LineError::NoMemory(_) => return Err(error.into()),
            }
            readable = false;
        }
    }
    if !readable {
        return Err(anyhow!("some lines can't be read, so nothing was converted"));
    }
    Ok(layouts)
}

fn run<F: FnOnce(&HostRuntime, &[Layout]) -> anyhow::Result<()>>(
    rt: &HostRuntime,
    usage: &str,
    work: F,
) -> anyhow::Result<()>
    requires { F.IsAlwaysCallable work }
{
    if let Some(argument) = env::args(rt)?.nth(1) {
        if argument.as_str() != "--help" {
            return Err(anyhow!(
                "no argument but --help is taken; the script is read from standard input"
            ));
        }
        rt.println(usage)?;
        return Ok(());
    }
    let layouts = read_layouts(rt)?;
    work(rt, &layouts)
}

// Runs a program on the layouts that standard input has, or prints its usage. The status is 0 or 1.
// An error is printed after the program's name.
pub fn run_program<F: FnOnce(&HostRuntime, &[Layout]) -> anyhow::Result<()>>(
    rt: &HostRuntime,
    program: &str,
    usage: &str,
    work: F,
) -> io::Result<ExitCode>
    requires { F.IsAlwaysCallable work }
    ensures { IfOk result (λ code. exit_status code ≤ 1) }
{
    match run(rt, usage, work) {
        Ok(()) => Ok(ExitCode::SUCCESS),
        Err(error) => {
            eprintln!(rt; "{program}: {error}")?;
            Ok(ExitCode::FAILURE)
        }
    }
}
