//! The alarms of the tool.

ghost use Rattle.std.specs.Prelude.{◌≡◌, ◌≤◌, ◌&&◌, not, length, map, IfOk};
ghost use Rattle.event_reports.specs.Alarms.{quiet, no_alarms, is_alarm, is_set, is_alarm_enabled, line_marked, line_enabled, alarm_marked, set_alarm, clear_alarm, ackc5, alarms_enabled};
ghost use Rattle.event_reports.specs.Limits.{most_alarms};

use gem_rows::alids;
use item_model::NoMemory;
use std::alloc::Global;
use std::marker::Model;

/// An alarm: its ALID, whether its changes are reported, and whether it is set (SEMI E5, ALID, ALED, ALCD).
#[derive(Clone, Copy)]
pub struct AlarmLine {
    pub alid: u32,
    pub enabled: bool,
    pub is_set: bool,
}

/// The alarms of a plant, rising by ALID, which contracts see as the list of their lines.
#[derive(Drop)]
pub struct Alarms {
    lines: Vec<AlarmLine>,
}

impl Model for Alarms {
    ghost use Rattle.std.specs.Prelude.{◌≤◌, List, length};
    ghost use Rattle.event_reports.specs.Limits.{most_alarms};
    ghost use Rattle.event_reports.specs.declared.alarms.AlarmLine.{AlarmLine};

    ghost Value = { List AlarmLine };

    ghost view = { λ a. a.lines.items };

    ghost invariant = { λ a. length a.lines.items ≤ most_alarms };
}

impl Alarms {
    /// The alarms of a plant of so many load ports and chambers, at most 4 and 8. None is set and none is enabled.
    /// `NoMemory` where there is no room for them; no later call takes memory.
    pub fn new(alloc: Global, ports: u8, chambers: u8) -> Result<Alarms, NoMemory>
        requires ports { ports ≤ 4 }
        requires chambers { chambers ≤ 8 }
        ensures { IfOk result (λ alarms. alarms ≡ no_alarms ports chambers) }
    {
        let ids = alids(alloc, ports, chambers)?;
        let lines = quiet_lines(alloc, ids.as_slice())?;
        Ok(Alarms { lines })
    }

    /// The alarms as lines, rising by ALID, 17 at most.
    pub fn lines(&self) -> &[AlarmLine]
        ensures lines { result.now ≡ self.now }
        ensures few { length self.now ≤ most_alarms }
    {
        self.lines.as_slice()
    }

    /// Whether the plant has the alarm.
    pub fn is_known(&self, alid: u32) -> bool
        ensures { result ≡ is_alarm alid self.now }
    {
        self.lines.iter().any(|line| line.alid == alid)
    }

    /// Whether the alarm is set. An unknown one is not.
    pub fn is_set(&self, alid: u32) -> bool
        ensures { result ≡ is_set alid self.now }
    {
        self.lines
            .iter()
            .any(|line| line.alid == alid && line.is_set)
    }

    /// Whether changes of the alarm are reported. Those of an unknown one are not.
    pub fn is_enabled(&self, alid: u32) -> bool
        ensures { result ≡ is_alarm_enabled alid self.now }
    {
        self.lines
            .iter()
            .any(|line| line.alid == alid && line.enabled)
    }

    /// Sets an alarm. True exactly where it was clear and the plant has it; else nothing changes.
    pub fn set(&mut self, alid: u32) -> bool
        ensures changed { result ≡ (is_alarm alid self.old && not (is_set alid self.old)) }
        ensures after { self.new ≡ set_alarm alid self.old }
    {
        let changed = self.is_known(alid) && !self.is_set(alid);
        mark(&mut self.lines, alid, true);
        changed
    }

    /// Clears an alarm. True exactly where it was set; else nothing changes.
    pub fn clear(&mut self, alid: u32) -> bool
        ensures changed { result ≡ is_set alid self.old }
        ensures after { self.new ≡ clear_alarm alid self.old }
    {
        let changed = self.is_set(alid);
        mark(&mut self.lines, alid, false);
        changed
    }

    /// Enables or disables an alarm, or all of them where none is named (SEMI E5, S5F3). The answer is ACKC5: 1 exactly
    /// where the plant has no such alarm; then nothing changes.
    pub fn enable(&mut self, on: bool, alid: Option<u32>) -> u8
        ensures code { result ≡ ackc5 alid self.old }
        ensures after { self.new ≡ alarms_enabled on alid self.old }
    {
        let code = self.ackc5(alid);
        enable_lines(&mut self.lines, on, alid);
        code
    }

    // The answer to enabling or disabling an alarm, or all.
    fn ackc5(&self, alid: Option<u32>) -> u8
        ensures { result ≡ ackc5 alid self.now }
    {
        match alid {
            Some(alid) if !self.is_known(alid) => 1,
            _ => 0,
        }
    }
}

impl AlarmLine {
    // An alarm that is neither set nor enabled.
    fn quiet(alid: u32) -> AlarmLine
        ensures { result ≡ quiet alid }
    {
        AlarmLine {
            alid,
            enabled: false,
            is_set: false,
        }
    }

    // The line, set or clear where it is that of this alarm.
    fn marked(self, alid: u32, on: bool) -> AlarmLine
        ensures { result ≡ line_marked on alid self }
    {
        AlarmLine {
            is_set: if self.alid == alid { on } else { self.is_set },
            ..self
        }
    }

    // The line, enabled or disabled where it is that of this alarm, and where none is named.
    fn with_enabled(self, alid: Option<u32>, on: bool) -> AlarmLine
        ensures { result ≡ line_enabled on alid self }
    {
        match alid {
            Some(alid) if self.alid != alid => self,
            _ => AlarmLine {
                enabled: on,
                ..self
            },
        }
    }
}

// A line for each of these alarms, which are neither set nor enabled.
fn quiet_lines(alloc: Global, alids: &[u32]) -> Result<Vec<AlarmLine>, NoMemory>
    ensures { IfOk result (λ lines. lines.items ≡ map quiet alids.now) }
{
    let mut lines = Vec::new(alloc);
    for alid in alids {
        lines.push(AlarmLine::quiet(*alid))?;
    }
    Ok(lines)
}

// Sets or clears the alarm of this ALID.
fn mark(lines: &mut [AlarmLine], alid: u32, on: bool)
    ensures { lines.new ≡ alarm_marked on alid lines.old }
{
    for line in lines {
        *line = line.marked(alid, on);
    }
}

// Enables or disables the alarm of this ALID, or all.
fn enable_lines(lines: &mut [AlarmLine], on: bool, alid: Option<u32>)
    ensures { lines.new ≡ alarms_enabled on alid lines.old }
{
    for line in lines {
        *line = line.with_enabled(alid, on);
    }
}
