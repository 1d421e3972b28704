//! Compares the charts of the runs whose lines lie in its folder `data` with what the code draws now, and prints a line for each, with the
//! status with which the run ended. With a word, as `all`, it prints each chart as it is drawn now behind a line with its name, and so
//! `tools/pictures` makes them anew. It is a program of tests, and no part of the tool.
#![tactic(auto)]

use outside::{FileSource, MemSink};
use run_charts::run_chart;
use std::alloc::{AllocError, Global};
use std::process::ExitCode;
use std::{env, fs};

// The runs, each a file of lines and one of a configuration of this name.
const RUNS: [&str; 4] = ["lot", "lot_of_25", "troubles", "refused"];

// A chart as it is drawn now, and the status of its run.
#[derive(Drop)]
struct Drawn {
    text: Vec<u8>,
    status: u8,
}

// The chart of the run of this name.
fn chart_of(rt: &HostRuntime, alloc: Global, name: &str) -> Result<Drawn, AllocError> {
    let config = format!(in alloc; "{name}.toml")?;
    let lines = format!(in alloc; "{name}.lines")?;
    let mut config = FileSource::new(rt, config.as_str());
    let mut input = FileSource::new(rt, lines.as_str());
    let mut out = MemSink::new(alloc, Vec::new(alloc));
    let status = run_chart(alloc, &mut config, &mut input, &mut out).status();
    Ok(Drawn {
        text: out.into_bytes(),
        status,
    })
}

// Compares the chart of this name, and prints a line of it.
fn compare(rt: &HostRuntime, alloc: Global, name: &str) -> Result<(), AllocError> {
    let drawn = chart_of(rt, alloc, name)?;
    let path = format!(in alloc; "{name}.svg")?;
    let is_same = match fs::read(rt, path.as_str()) {
        Ok(shipped) => shipped.as_slice() == drawn.text.as_slice(),
        Err(_) => false,
    };
    let verdict = if is_same {
        "as the code draws it"
    } else {
        "not as the code draws it"
    };
    let status = drawn.status;
    let line = format!(in alloc; "{name}: {verdict}, status {status}\n")?;
    let _ = rt.print(line.as_str());
    Ok(())
}

fn compare_all(rt: &HostRuntime, alloc: Global) -> Result<(), AllocError> {
    for name in RUNS {
        compare(rt, alloc, name)?;
    }
    Ok(())
}

// Prints each chart behind a line that begins with a sign with which no line of a chart begins and a blank.
fn print_all(rt: &HostRuntime, alloc: Global) -> Result<(), AllocError> {
    for name in RUNS {
        let drawn = chart_of(rt, alloc, name)?;
        let text = String::from_utf8_lossy(alloc, drawn.text.as_slice())?;
        let all = format!(in alloc; "@ {name}\n{text}")?;
        let _ = rt.print(all.as_str());
    }
    Ok(())
}

// Whether a word stands behind the program's name.
fn has_word(rt: &HostRuntime) -> bool {
    match env::args(rt) {
        Ok(args) => args.count() > 1,
        Err(_) => false,
    }
}

fn main(rt: HostRuntime) -> ExitCode {
    let ended = if has_word(&rt) {
        print_all(&rt, rt.alloc())
    } else {
        compare_all(&rt, rt.alloc())
    };
    match ended {
        Ok(()) => ExitCode::SUCCESS,
        Err(_) => ExitCode::FAILURE,
    }
}
