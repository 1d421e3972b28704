//! What the subjects here share: points of a gate, and how a line ends that says nothing.

use anyhow::{Result, bail};
use outside::Point;
use std::time::{self, Duration};

/// The answer that was put together, where the line said something.
pub fn told(answer: String, said: Option<()>) -> Result<String> {
    match said {
        Some(()) => Ok(answer),
        None => bail!("it says nothing, or there is no memory"),
    }
}

/// How many milliseconds have passed since this moment of the clock that nobody sets.
pub fn millis_since<R: time::Clock>(rt: &R, before: Duration) -> Option<u64> {
    let passed = rt.monotonic().ok()?.saturating_sub(before);
    let whole = passed.as_secs().saturating_mul(1000);
    Some(whole.saturating_add(u64::from(passed.subsec_millis())))
}

/// A point, by its word: `idle`, `accept`, `host`, `line`, `tick`, `posted-host`, `no-frame`, `posted`, `session-end`, `over`, `no-command-`
/// with the number of a module, or the number of a module alone.
pub fn point(word: &str) -> Option<Point> {
    match word {
        "idle" => Some(Point::Idle),
        "accept" => Some(Point::Accept),
        "host" => Some(Point::HostRead),
        "line" => Some(Point::OperLine),
        "tick" => Some(Point::Tick),
        "posted-host" => Some(Point::HostPosted),
        "no-frame" => Some(Point::NoFrame),
        "posted" => Some(Point::Posted),
        "session-end" => Some(Point::SessionEnd),
        "over" => Some(Point::Over),
        _ => module_point(word),
    }
}

// A point of a module.
fn module_point(word: &str) -> Option<Point> {
    match word.strip_prefix("no-command-") {
        Some(number) => Some(Point::NoCommand(number.parse::<u8>().ok()?)),
        None => Some(Point::Module(word.parse::<u8>().ok()?)),
    }
}
