use crate::bell::Bell;
use crate::gate::{Gate, Point};
use crate::hearings::Hearings;
use crate::signs::RunSigns;
use std::sync::Wait;
use std::sync::atomic::{AtomicU64, Ordering};
use std::time::Duration;

// How many messages of the host the reader posts at most before the writer finds no frame.
const AHEAD: u64 = 64;

// How many milliseconds the host actor, the operator and the clock rest, which have waits of their own or look at what no
// notice tells.
const SHORT_REST: u64 = 10;

// How many milliseconds a module rests while the host or the operator is active.
const ACTIVE_REST: u64 = 1;

// How many milliseconds writer, modules and a reader that is held rest.
const LONG_REST: u64 = 50;

/// A gate that holds who has nothing to do until another actor has passed a point that brings news, for some milliseconds at
/// most. It tells what it learns of the run to its `RunSigns`.
///
/// - `NoFrame` waits for a message of the host, a line of the operator, a signal or a look at the clock that was answered, and for
///   the end of a reader, a writer or the clock; 50 milliseconds at most.
/// - `NoCommand` waits for all of these but the first two, as long. Messages of the host and lines of the operator come often and are
///   seldom for a module: the first one behind a rest wakes the modules, and while more come each rests one millisecond at a time.
/// - `Idle` waits as `NoCommand` does, 10 milliseconds at most.
/// - `HostPosted` holds the reader while 64 messages were answered behind which the writer has not passed `NoFrame` yet, and the
///   session is not over. So the frames that wait for a writer whose peer reads nothing are few.
///
/// No notice that comes between an actor's post and its wait at `NoFrame` or `NoCommand` is lost.
#[derive(Drop)]
pub struct WakeGate<'a, R> {
    rt: &'a R,
    signs: &'a RunSigns,
    long_rest: u64,
    news: Bell,
    frames: Bell,
    room: Bell,
    said: AtomicU64,
    resting: AtomicU64,
    ahead: AtomicU64,
    heard_of_frames: AtomicU64,
    modules: Hearings,
}

impl<'a, R: Wait> WakeGate<'a, R> {
    /// A gate that tells what it learns to these signs.
    pub fn new(rt: &'a R, signs: &'a RunSigns) -> WakeGate<'a, R> {
        WakeGate::with_rest(rt, signs, LONG_REST)
    }

    /// A gate whose long rests are of so many milliseconds in place of 50, so that a test can tell them from none.
    pub fn with_rest(rt: &'a R, signs: &'a RunSigns, long_rest: u64) -> WakeGate<'a, R> {
        WakeGate {
            rt,
            signs,
            long_rest,
            news: Bell::new(),
            frames: Bell::new(),
            room: Bell::new(),
            said: AtomicU64::new(0),
            resting: AtomicU64::new(0),
            ahead: AtomicU64::new(0),
            heard_of_frames: AtomicU64::new(0),
            modules: Hearings::none(),
        }
    }

    // Waits until there is news, for so many milliseconds at most.
    fn rest(&self) {
        let heard = self.news.rings();
        self.news
            .wait(self.rt, heard, Duration::from_millis(SHORT_REST));
    }

    // A module waits for what it had not heard when it fetched. It is counted among those that rest before it looks whether the
    // host or the operator was active, so that either it sees what was said, or who said it sees it rest.
    fn await_command(&self, module: u8) {
        let heard = self.modules.news_heard(module);
        self.resting.fetch_add(1, Ordering::SeqCst);
        let said = self.said.load(Ordering::SeqCst);
        if self.modules.hears_said(module, said) {
            self.resting.fetch_sub(1, Ordering::SeqCst);
            self.news
                .wait(self.rt, heard, Duration::from_millis(ACTIVE_REST));
        } else {
            self.news
                .wait(self.rt, heard, Duration::from_millis(self.long_rest));
            self.resting.fetch_sub(1, Ordering::SeqCst);
        }
    }

    // The writer found no frame: the reader may go on, and the writer waits for what it had not heard when it last waited.
    fn await_frame(&self) {
        self.ahead.store(0, Ordering::SeqCst);
        self.room.ring();
        self.frames.wait(
            self.rt,
            self.heard_of_frames.load(Ordering::SeqCst),
            Duration::from_millis(self.long_rest),
        );
        self.heard_of_frames
            .store(self.frames.rings(), Ordering::SeqCst);
    }

    // A message of the host or a line of the operator was answered: the writer is woken, and so are the modules where they rest
    // long.
    fn tell_said(&self) {
        self.said.fetch_add(1, Ordering::SeqCst);
        self.frames.ring();
        if self.resting.load(Ordering::SeqCst) != 0 {
            self.news.ring();
        }
    }

    // Holds the reader until the writer found no frame, or the session is over.
    fn await_room(&self) {
        for _ in self.rt.forever() {
            let heard = self.room.rings();
            if self.signs.is_session_over() || self.ahead.load(Ordering::SeqCst) < AHEAD {
                return;
            }
            self.room
                .wait(self.rt, heard, Duration::from_millis(self.long_rest));
        }
    }

    // There is news for everybody.
    fn tell(&self) {
        self.frames.ring();
        self.news.ring();
    }

    // There is news for everybody, and who is held is let go.
    fn tell_end(&self) {
        self.tell();
        self.room.ring();
    }
}

impl<R: Wait> Gate for WakeGate<'_, R> {
    fn pass(&self, point: Point) {
        match point {
            Point::Idle => self.rest(),
            Point::Module(module) => self.modules.listen(module, self.news.rings()),
            Point::NoCommand(module) => self.await_command(module),
            Point::NoFrame => self.await_frame(),
            Point::HostPosted => {
                self.tell_said();
                self.ahead.fetch_add(1, Ordering::SeqCst);
                self.await_room();
            }
            Point::OperLine => self.tell_said(),
            Point::Posted => self.tell(),
            Point::Accept => {
                self.ahead.store(0, Ordering::SeqCst);
                self.signs.begin_session();
            }
            Point::SessionEnd => {
                self.signs.end_session();
                self.tell_end();
            }
            Point::Over => {
                self.signs.end_run();
                self.tell_end();
            }
            Point::HostRead | Point::Tick => {}
        }
    }
}
