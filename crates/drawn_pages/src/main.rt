//! Compares the pictures of its folder `data`, which the pages of docs/profile show, with what the code draws now, and prints a line for each.
//! With a word, as `all`, it prints each picture as it is drawn now behind a line with its name, and so `tools/pictures` makes them anew. It
//! is a program of tests, and no part of the tool.
#![tactic(auto)]

use state_charts::{Chart, draw_chart, names};
use std::alloc::{AllocError, Global};
use std::process::ExitCode;
use std::{env, fs};

// Compares the picture of this name, and prints a line of it.
fn compare(rt: &HostRuntime, alloc: Global, name: &str, chart: Chart) -> Result<(), AllocError> {
    let drawn = draw_chart(alloc, chart)?;
    let path = format!(in alloc; "{name}.svg")?;
    let is_same = match fs::read(rt, path.as_str()) {
        Ok(shipped) => shipped.as_slice() == drawn.as_slice(),
        Err(_) => false,
    };
    let verdict = if is_same {
        "as the code draws it"
    } else {
        "not as the code draws it"
    };
    let line = format!(in alloc; "{name}: {verdict}\n")?;
    let _ = rt.print(line.as_str());
    Ok(())
}

fn compare_all(rt: &HostRuntime, alloc: Global) -> Result<(), AllocError> {
    for (name, chart) in names() {
        compare(rt, alloc, name, *chart)?;
    }
    Ok(())
}

// Prints each picture behind a line that begins with a sign with which no line of a picture begins and a blank.
fn print_all(rt: &HostRuntime, alloc: Global) -> Result<(), AllocError> {
    for (name, chart) in names() {
        let drawn = draw_chart(alloc, *chart)?;
        let text = String::from_utf8_lossy(alloc, drawn.as_slice())?;
        let all = format!(in alloc; "@ {name}\n{text}")?;
        let _ = rt.print(all.as_str());
    }
    Ok(())
}

// Whether a word stands behind the program's name.
fn has_word(rt: &HostRuntime) -> bool {
    match env::args(rt) {
        Ok(args) => args.count() > 1,
        Err(_) => false,
    }
}

fn main(rt: HostRuntime) -> ExitCode {
    let ended = if has_word(&rt) {
        print_all(&rt, rt.alloc())
    } else {
        compare_all(&rt, rt.alloc())
    };
    match ended {
        Ok(()) => ExitCode::SUCCESS,
        Err(_) => ExitCode::FAILURE,
    }
}
