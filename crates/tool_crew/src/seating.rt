//! Chairs put into seats, and taken out again.
ghost use Rattle.std.specs.Prelude.{◌≡◌, ◌≤◌, map, length, vec_len, vec_capacity, Some, IfOk};
ghost use Rattle.tool_crew.specs.Seating.{AllOf};
ghost use Rattle.tool_crew.specs.Crews.{first_end, AreEnds};

use crate::ends::Ends;
use crate::seat::Seat;
use actors::ActorEnd;
use history_laws::Recorder;
use shared_tool::{Chair, Held, Shared};
use std::alloc::{AllocError, Global};

fn seat_of<C: Recorder>(chair: Chair<C>) -> Seat<Held<C>>
    ensures { result.chair ≡ Some chair }
{
    Seat {
        chair: Some(chair),
        end: ActorEnd::Quit,
    }
}

/// A seat for each chair, in order.
pub fn seat_all<C: Recorder>(
    alloc: Global,
    chairs: Vec<Chair<C>>,
) -> Result<Vec<Seat<Held<C>>>, AllocError>
    ensures { IfOk result (λ seats. map (λ s. s.chair) seats.items ≡ map Some chairs.items) }
{
    let mut seats = Vec::with_capacity(alloc, chairs.len())?;
    for chair in chairs {
        seats.push(seat_of(chair))?;
    }
    Ok(seats)
}

/// The chairs of all seats, in order, put into a list that has room for them.
pub fn unseat_all<C: Recorder>(
    shared: &Shared<Held<C>>,
    seats: Vec<Seat<Held<C>>>,
    room: Vec<Chair<C>>,
) -> Vec<Chair<C>>
    requires empty { vec_len room ≡ 0 }
    requires room { vec_len seats ≤ vec_capacity room }
    requires all { AllOf shared.now seats.items }
    ensures { map Some result.items ≡ map (λ s. s.chair) seats.items }
{
    let mut chairs = room;
    for seat in seats {
        let Seat { chair, .. } = seat;
        let Some(chair) = chair else { unreachable!() };
        chairs.push_reserved(chair);
    }
    chairs
}

// The first end that isn't `Quit`.
fn first_end<C: Recorder>(seats: &[Seat<Held<C>>]) -> ActorEnd
    ensures { result ≡ first_end (map (λ s. s.end) seats.now) }
{
    match seats {
        [] => ActorEnd::Quit,
        [seat, rest @ ..] => match seat.end {
            ActorEnd::Quit => first_end(rest),
            end => end,
        },
    }
}

/// How the actors in these seats ended.
pub fn ends_of<C: Recorder>(seats: &[Seat<Held<C>>]) -> Ends
    requires { 4 ≤ length seats.now }
    ensures { AreEnds seats.now result }
{
    let [host, _, operator, clock, modules @ ..] = seats else {
        unreachable!()
    };
    Ends {
        host: host.end,
        operator: operator.end,
        clock: clock.end,
        modules: first_end(modules),
    }
}
