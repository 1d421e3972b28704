//! Where a substrate is to go, whether that is free, and whether its pick is useful (this tool's profile, moves).

ghost use Rattle.std.specs.Prelude.{◌≡◌, ◌≤◌, ◌&&◌};
ghost use Rattle.robot_moves.specs.Modules.{module_at, chamber_module, is_idle};
ghost use Rattle.robot_moves.specs.Moves.{is_empty, is_free, chamber_where_free, free_chamber, target, free_target, is_next, may_leave, is_useful};

use crate::modules::Modules;
use crate::view::PlaceView;
use crate::whereabouts::Whereabouts;
use gem_ids::{LocId, ModuleId};
use substrate::is_same;
use tool_tasks::has_chamber;

pub(crate) const ROBOT: ModuleId = ModuleId(1);

pub(crate) const ALIGNER: ModuleId = ModuleId(2);

/// Whether a pick of the substrate is useful: it may leave where it is, and its target is free.
pub fn is_useful<P: Whereabouts>(places: &P, modules: &Modules, v: &PlaceView) -> bool
    ensures { result ≡ is_useful (P.told places.now) modules.now v.now }
{
    may_leave(modules, v) && free_target(places, modules, v).is_some()
}

fn may_leave(modules: &Modules, v: &PlaceView) -> bool
    ensures { result ≡ may_leave v.now.at modules.now v.now }
{
    match v.at {
        LocId::Slot(..) => is_same(v.at, v.slot) && !v.finished && v.may_start,
        LocId::Aligner => modules.is_idle(ALIGNER) && (v.finished || v.aligned),
        LocId::Arm => false,
        LocId::Chamber(c) => chamber_is_idle(modules, c) && (v.finished || !is_next(v, c)),
    }
}

// Whether a chamber of 1 to 8 is in the next step of the substrate's route.
pub(crate) fn is_next(v: &PlaceView, c: u8) -> bool
    ensures { result ≡ is_next v.now c }
{
    1 <= c && c <= 8 && has_chamber(v.chambers, c)
}

// Where a substrate is to go, where that is free.
pub(crate) fn free_target<P: Whereabouts>(
    places: &P,
    modules: &Modules,
    v: &PlaceView,
) -> Option<LocId>
    ensures { result ≡ free_target (P.told places.now) modules.now v.now }
{
    match target(places, modules, v) {
        Some(loc) => {
            if is_free(places, modules, loc) {
                Some(loc)
            } else {
                None
            }
        }
        None => None,
    }
}

fn target<P: Whereabouts>(places: &P, modules: &Modules, v: &PlaceView) -> Option<LocId>
    ensures { result ≡ target (P.told places.now) modules.now v.now }
{
    if v.finished {
        Some(v.slot)
    } else if !v.aligned {
        Some(LocId::Aligner)
    } else {
        match free_chamber(places, modules, v) {
            Some(c) => Some(LocId::Chamber(c)),
            None => None,
        }
    }
}

// The least numbered chamber of its next step that is empty and Idle.
fn free_chamber<P: Whereabouts>(places: &P, modules: &Modules, v: &PlaceView) -> Option<u8>
    ensures { result ≡ free_chamber (P.told places.now) modules.now v.now }
{
    for index in 0..8 {
        let found = chamber_where_free(places, modules, v, index + 1);
        if found.is_some() {
            return found;
        }
    }
    None
}

// A chamber, 1 to 8, where it is in the substrate's next step, empty and Idle.
fn chamber_where_free<P: Whereabouts>(
    places: &P,
    modules: &Modules,
    v: &PlaceView,
    c: u8,
) -> Option<u8>
    requires first { 1 ≤ c }
    requires last { c ≤ 8 }
    ensures { result ≡ chamber_where_free (P.told places.now) modules.now v.now c }
{
    if has_chamber(v.chambers, c) && is_free(places, modules, LocId::Chamber(c)) {
        Some(c)
    } else {
        None
    }
}

/// Whether a location is empty and, if it is a module's, the module is Idle. Of a module that is not Idle nobody is asked who is
/// there.
pub fn is_free<P: Whereabouts>(places: &P, modules: &Modules, loc: LocId) -> bool
    ensures { result ≡ is_free (P.told places.now) modules.now loc }
{
    match loc {
        LocId::Slot(..) => places.is_empty(loc),
        LocId::Aligner => is_free_at(places, modules.is_idle(ALIGNER), loc),
        LocId::Arm => is_free_at(places, modules.is_idle(ROBOT), loc),
        LocId::Chamber(c) => is_free_at(places, chamber_is_idle(modules, c), loc),
    }
}

// Whether the location of a module is empty, and the module is Idle, as is said.
fn is_free_at<P: Whereabouts>(places: &P, idle: bool, loc: LocId) -> bool
    ensures { result ≡ (is_empty loc (P.told places.now) && idle) }
{
    if idle { places.is_empty(loc) } else { false }
}

// Whether the module of a chamber is Idle.
fn chamber_is_idle(modules: &Modules, c: u8) -> bool
    ensures { result ≡ is_idle (module_at (chamber_module c) modules.now) }
{
    c as usize + 2 <= modules.len() && modules.is_idle(ModuleId(c + 2))
}
