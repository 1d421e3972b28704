//! Laws of reports and alarms, for proofs to cite. Each function is empty: what it ensures holds of the definitions.

ghost use Rattle.std.specs.Prelude.{◌≡◌, ◌≤◌, ℕ, Bool, List, Option, length, map};
ghost use Rattle.event_reports.specs.Alarms.{AlarmLine, alarm_marked, alarms_enabled, set_alids};
ghost use Rattle.event_reports.specs.Reports.{Reports as State, no_reports, defined, linked, enabled};
ghost use Rattle.event_reports.specs.Sound.{IsSamePlant, IsSound};

/// No message changes the ports and chambers of a plant, or which collection events there are.
pub fn the_plant_stays_the_same()
    ensures defined { (reports : List (ℕ × List ℕ)) (r : State) → IsSamePlant r (defined reports r) }
    ensures linked { (links : List (ℕ × List ℕ)) (r : State) → IsSamePlant r (linked links r) }
    ensures enabled { (on : Bool) (ceids : List ℕ) (r : State) → IsSamePlant r (enabled on ceids r) }
{}

/// No two reports ever have one RPTID, and links name defined reports alone.
pub fn reports_stay_sound()
    ensures first { (ports chambers : ℕ) → IsSound (no_reports ports chambers) }
    ensures defined { (reports : List (ℕ × List ℕ)) (r : State) → IsSound r → IsSound (defined reports r) }
    ensures linked { (links : List (ℕ × List ℕ)) (r : State) → IsSound r → IsSound (linked links r) }
    ensures enabled { (on : Bool) (ceids : List ℕ) (r : State) → IsSound r → IsSound (enabled on ceids r) }
{}

/// The alarms of a plant stay the same, whatever is set and enabled, and no more are set than there are.
pub fn the_alarms_stay_the_same()
    ensures marked { (on : Bool) (alid : ℕ) (alarms : List AlarmLine) → map (λ a. a.alid) (alarm_marked on alid alarms) ≡ map (λ a. a.alid) alarms }
    ensures enabled { (on : Bool) (alid : Option ℕ) (alarms : List AlarmLine) → map (λ a. a.alid) (alarms_enabled on alid alarms) ≡ map (λ a. a.alid) alarms }
    ensures few { (alarms : List AlarmLine) → length (set_alids alarms) ≤ length alarms }
{}
