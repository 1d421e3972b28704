ghost use Rattle.std.specs.Prelude.{◌≡◌, ℕ, ◌+◌, ◌^◌, ◌<◌, ◌≤◌, ◌↔◌, true, false, if◌then◌else◌, List, [], ◌∷◌, ◌++◌, length, drop, Contains, Some, None, IfOk, OnOk, OnErr, IsErr, is_err};
ghost use Rattle.outside.specs.Counts.{Rose, Counted, one_more};
ghost use Rattle.outside.specs.Doors.{link_of, link_given, gave_link, was_early, was_closed, behind_the_last, next_met};
ghost use Rattle.outside.specs.Told.{told, AtPort, Given, Grew};

use crate::door::Door;
use crate::link::{LinkIn, LinkOut};
use crate::meetings::Meetings;
use crate::mem_link::{MemIn, MemOut};
use crate::mem_sink::NoMemory;
use crate::met::Met;
use crate::source::Failed;
use std::alloc::Global;
use std::collections::VecDeque;
use std::marker::Model;

/// A door in memory, for tests and small programs. It gives its links, and then answers `NotYet`; what is handed back it
/// keeps in room that was made beforehand. Its links are of any kind; those in memory are `MemIn` and `MemOut`. Contracts
/// see it as the links that are left and those that were handed back, with its counts.
#[derive(Drop)]
pub struct MemDoor<I = MemIn, O = MemOut> {
    links: VecDeque<(I, O)>,
    is_closing: bool,
    port: Option<u16>,
    backs: Vec<(I, O)>,
    is_kept: bool,
    fails: Vec<u64>,
    calls: u64,
    counts: Meetings,
}

impl<I, O> Model for MemDoor<I, O> {
    ghost use Rattle.std.specs.Prelude.{vec_capacity};
    ghost use Rattle.outside.specs.Memory.{Meeting};

    ghost Value = { Meeting (I × O) };

    ghost view = { λ d. record {
      left = d.links.items;
      is_closing = d.is_closing;
      port = d.port;
      backs = d.backs.items;
      room = vec_capacity d.backs;
      is_kept = d.is_kept;
      fails = d.fails.items;
      calls = d.calls;
      faults = d.counts.faults;
      links = d.counts.links;
      waits = d.counts.waits;
      closings = d.counts.closings;
    } };
}

impl<I: Drop, O: Drop> MemDoor<I, O> {
    /// A door of these links. Its calls whose numbers are in `fails` fail, the first call being 1; `open` and `accept` are
    /// such calls. Takes memory for as many links that are handed back.
    pub fn new(
        alloc: Global,
        links: Vec<(I, O)>,
        fails: Vec<u64>,
    ) -> Result<MemDoor<I, O>, NoMemory>
        ensures { IfOk result (λ door. door ≡ record {
          left = links.items;
          is_closing = false;
          port = None;
          backs = [];
          room = length links.items;
          is_kept = true;
          fails = fails.items;
          calls = 0;
          faults = 0;
          links = 0;
          waits = 0;
          closings = 0;
        }) }
    {
        let backs = Vec::with_capacity(alloc, links.len())?;
        Ok(MemDoor {
            links: VecDeque::from_vec(links),
            is_closing: false,
            port: None,
            backs,
            is_kept: true,
            fails,
            calls: 0,
            counts: Meetings::none(),
        })
    }

    /// The same door, which answers `Closed` in place of `NotYet`.
    pub fn with_end(self) -> MemDoor<I, O>
        ensures { result ≡ record self { is_closing = true } }
    {
        let mut door = self;
        door.is_closing = true;
        door
    }

    /// How many links are left to be given.
    pub fn left(&self) -> usize
        ensures { result ≡ length self.now.left }
    {
        self.links.len()
    }

    /// The links that were handed back, the first of them first.
    pub fn backs(&self) -> &[(I, O)]
        ensures { result.now ≡ self.now.backs }
    {
        self.backs.as_slice()
    }

    /// The port at which it was asked to listen last. `None` where it was not asked.
    pub fn port(&self) -> Option<u16>
        ensures { result ≡ self.now.port }
    {
        self.port
    }

    /// How many calls failed.
    pub fn faults(&self) -> u64
        ensures { result ≡ self.now.faults }
    {
        self.counts.faults
    }

    /// How many links were given.
    pub fn links(&self) -> u64
        ensures { result ≡ self.now.links }
    {
        self.counts.links
    }

    /// How often the answer was `NotYet`.
    pub fn waits(&self) -> u64
        ensures { result ≡ self.now.waits }
    {
        self.counts.waits
    }

    /// How often the answer was `Closed`.
    pub fn closings(&self) -> u64
        ensures { result ≡ self.now.closings }
    {
        self.counts.closings
    }
}

impl<I: LinkIn + Send + Drop, O: LinkOut + Send + Drop> Door for MemDoor<I, O> {
    type In = I;

    type Out = O;

    ghost left = { λ d. Some d.left };

    ghost backs = { λ d. told d.is_kept d.backs };

    ghost opened_at = { λ d. d.port };

    ghost faults = { λ d. d.faults };

    ghost links = { λ d. d.links };

    ghost waits = { λ d. d.waits };

    ghost closings = { λ d. d.closings };

    /// Takes any port. Fails exactly where this call's number is in the list of those that are to fail.
    fn open(&mut self, port: u16) -> Result<(), Failed>
        ensures port { AtPort self.new.port port }
        ensures failed { OnErr result (Rose self.old.faults self.new.faults) }
        ensures unfailed { OnOk result (self.new.faults ≡ self.old.faults) }
        ensures faults_stay { self.old.faults ≤ self.new.faults }
        ensures left { Some self.new.left ≡ Some self.old.left }
        ensures backs { told self.new.is_kept self.new.backs ≡ told self.old.is_kept self.old.backs }
        ensures links { self.new.links ≡ self.old.links }
        ensures waits { self.new.waits ≡ self.old.waits }
        ensures closings { self.new.closings ≡ self.old.closings }

        // More than every door promises: when it fails, and what stays.
        ensures fails { IsErr result ↔ Contains self.old.fails (one_more self.old.calls) }
        ensures faults { self.new.faults ≡ (if is_err result then one_more self.old.faults else self.old.faults) }
        ensures same { self.new ≡ record self.old { calls = one_more self.old.calls; faults = self.new.faults; port = Some port } }
        ensures no_fails { self.old.fails ≡ [] → self.new.faults ≡ self.old.faults }
    {
        self.port = Some(port);
        self.calls = self.calls.saturating_add(1);
        if self.fails.contains(&self.calls) {
            self.counts.failed();
            return Err(Failed);
        }
        Ok(())
    }

    /// Fails exactly where this call's number is in the list of those that are to fail. Else gives the first link that is
    /// left, and behind the last one answers `NotYet`, or `Closed` where it is to.
    fn accept(&mut self) -> Result<Met<I, O>, Failed>
        ensures given { Given (link_given result) (Some self.old.left) (Some self.new.left) }
        ensures backs { told self.new.is_kept self.new.backs ≡ told self.old.is_kept self.old.backs }
        ensures port { self.new.port ≡ self.old.port }
        ensures links { Counted (gave_link result) self.old.links self.new.links }
        ensures waits { Counted (was_early result) self.old.waits self.new.waits }
        ensures closings { Counted (was_closed result) self.old.closings self.new.closings }
        ensures failed { OnErr result (Rose self.old.faults self.new.faults) }
        ensures unfailed { OnOk result (self.new.faults ≡ self.old.faults) }
        ensures faults_stay { self.old.faults ≤ self.new.faults }

        // More than every door promises: when it fails, what it answers, and what stays.
        ensures fails { IsErr result ↔ Contains self.old.fails (one_more self.old.calls) }
        ensures met { IfOk result (λ met. met ≡ next_met self.old.left self.old.is_closing) }
        ensures rest { OnOk result (self.new.left ≡ drop 1 self.old.left) }
        ensures faults { self.new.faults ≡ (if is_err result then one_more self.old.faults else self.old.faults) }
        ensures calls { self.new.calls ≡ one_more self.old.calls }
        ensures no_fails { self.old.fails ≡ [] → self.new.faults ≡ self.old.faults }
        ensures same_end { self.new.is_closing ≡ self.old.is_closing }
        ensures same_fails { self.new.fails ≡ self.old.fails }
        ensures same_backs { (self.new.backs ≡ self.old.backs) × (self.new.is_kept ≡ self.old.is_kept) × (self.new.room ≡ self.old.room) }
    {
        self.calls = self.calls.saturating_add(1);
        if self.fails.contains(&self.calls) {
            self.counts.failed();
            return Err(Failed);
        }
        let met = take_link(&mut self.links, self.is_closing);
        self.counts.met(&met);
        Ok(met)
    }

    /// Keeps the link where there is room for it: there is for as many as the door was made of. Where there is none, the
    /// link is let go, and the door no longer tells what was handed back.
    fn back(&mut self, link_in: I, link_out: O)
        ensures backs { Grew (told self.old.is_kept self.old.backs) (told self.new.is_kept self.new.backs) (link_in, link_out) }
        ensures left { Some self.new.left ≡ Some self.old.left }
        ensures port { self.new.port ≡ self.old.port }
        ensures faults { self.new.faults ≡ self.old.faults }
        ensures links { self.new.links ≡ self.old.links }
        ensures waits { self.new.waits ≡ self.old.waits }
        ensures closings { self.new.closings ≡ self.old.closings }

        // More than every door promises: when it keeps the link, and what stays.
        ensures kept { length self.old.backs < self.old.room → self.new ≡ record self.old { backs = self.old.backs ++ (link_in, link_out) ∷ [] } }
        ensures let_go { self.old.room ≤ length self.old.backs → self.new ≡ record self.old { is_kept = false } }
    {
        if self.backs.len() < self.backs.capacity() {
            self.backs.push_reserved((link_in, link_out));
        } else {
            drop(link_in);
            drop(link_out);
            self.is_kept = false;
        }
    }
}

// Takes the first link off the list, and answers it. Where there is none, the answer is `Closed` or `NotYet`.
fn take_link<I: Drop, O: Drop>(links: &mut VecDeque<(I, O)>, is_closing: bool) -> Met<I, O>
    ensures met { result ≡ next_met links.old.items is_closing }
    ensures rest { links.new.items ≡ drop 1 links.old.items }
    ensures given { Given (link_of result) (Some links.old.items) (Some links.new.items) }
{
    let Some((link_in, link_out)) = links.pop_front() else {
        return last_answer(is_closing);
    };
    Met::Link(link_in, link_out)
}

// The answer where no link is left.
fn last_answer<I, O>(is_closing: bool) -> Met<I, O>
    ensures met { result ≡ behind_the_last is_closing }
    ensures none { link_of result ≡ None }
{
    if is_closing { Met::Closed } else { Met::NotYet }
}
