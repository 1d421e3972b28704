//! What the plant sends.
ghost use Rattle.std.specs.Prelude.{◌≡◌, ◌≤◌, ◌+◌, ◌^◌, length, OnOk, Some, None, if◌then◌else◌, true, false};
ghost use Rattle.hsms_frame.specs.Spelling.{message_bytes};
ghost use Rattle.transactions.specs.Table.{is_full};
ghost use Rattle.transactions.specs.SystemBytes.{drawn, after_start};
ghost use Rattle.gem_model.specs.State.{t3, with_frame};
ghost use Rattle.gem_model.specs.Sending.{data_header, draws, replies, sends_stream9, asks};
ghost use Rattle.gem_model.specs.Due.{asks_linktest};
ghost use Rattle.hsms_link.specs.Links.{is_selected, is_open};

use crate::plant::Plant;
use gem_rows::ecids;
use hsms_frame::{Bytes, Header};
use plant_parts::{data_frame, data_header, header_frame, stream9_text};
use std::alloc::{AllocError, Global};
use transactions::What;

impl Plant {
    /// Draws the next system bytes.
    fn draw(&mut self) -> u32
        ensures drawn { result ≡ drawn self.old.transactions }
        ensures after { self.new ≡ draws self.old }
    {
        self.transactions.draw()
    }

    /// A data message of the tool of this header waits for the writer.
    fn put_data(&mut self, alloc: Global, header: Header, text: Bytes) -> Result<(), AllocError>
        requires { length text ≤ 2 ^ 31 }
        ensures { OnOk result (self.new ≡ with_frame (message_bytes header text) self.old) }
    {
        let frame = data_frame(alloc, header, text)?;
        self.put(frame)
    }

    /// The header of a data message of the tool, with the W-bit where a reply is wanted.
    fn data_header(&self, wants: bool, stream: u8, function: u8, system: u32) -> Header
        ensures { result ≡ data_header self.now.config.device wants stream function system }
    {
        data_header(self.config.device, wants, stream, function, system)
    }

    /// A reply waits for the writer, under the system bytes of its primary.
    pub fn reply(
        &mut self,
        alloc: Global,
        stream: u8,
        function: u8,
        system: u32,
        text: Bytes,
    ) -> Result<(), AllocError>
        requires { length text ≤ 2 ^ 31 }
        ensures { OnOk result (self.new ≡ replies stream function system text self.old) }
    {
        let header = self.data_header(false, stream, function, system);
        self.put_data(alloc, header, text)
    }

    /// A message of stream 9 of this function, about a header, waits for the writer (SEMI E5, stream 9).
    pub fn send_stream9(
        &mut self,
        alloc: Global,
        function: u8,
        about: Header,
    ) -> Result<(), AllocError>
        ensures { OnOk result (self.new ≡ sends_stream9 function about self.old) }
    {
        let text = stream9_text(alloc, about)?;
        let system = self.draw();
        let header = self.data_header(false, 9, function, system);
        self.put_data(alloc, header, text)
    }

    /// The transaction of a primary of the tool is open until T3, under the next system bytes. `None`: 16 are open, and nothing
    /// has changed.
    fn start(&mut self, stream: u8, function: u8, what: What) -> Option<u32>
        ensures system { result ≡ (if is_full self.old.transactions then None else Some (drawn self.old.transactions)) }
        ensures after { self.new ≡ record self.old { transactions = after_start stream function (self.old.moment + t3 self.old) what self.old.transactions } }
    {
        let deadline = self.moment.0 + u64::from(self.constants.number(ecids::T3));
        self.transactions
            .start(stream, function, deadline, what)
            .ok()
    }

    /// A primary of the tool waits for the writer, and its transaction is open until T3. Where 16 are open nothing is
    /// sent, and nothing has changed.
    pub fn ask(
        &mut self,
        alloc: Global,
        stream: u8,
        function: u8,
        what: What,
        text: Bytes,
    ) -> Result<(), AllocError>
        requires { length text ≤ 2 ^ 31 }
        ensures { OnOk result (self.new ≡ asks stream function what text self.old) }
    {
        // No reachable state has so many open that no more can be.
        match self.start(stream, function, what) {
            Some(system) => {
                let header = self.data_header(true, stream, function, system);
                self.put_data(alloc, header, text)
            }
            None => Ok(()),
        }
    }

    /// A linktest request of the tool waits for the writer, and the linktest is open. The link is selected, and no
    /// linktest of the tool is open.
    pub fn ask_linktest(&mut self, alloc: Global) -> Result<(), AllocError>
        requires selected { is_selected self.old.link.phase ≡ true }
        requires none_open { is_open self.old.link.ping ≡ false }
        ensures { OnOk result (self.new ≡ asks_linktest self.old) }
    {
        let system = self.draw();
        self.link.asked(system, self.moment);
        let frame = header_frame(
            alloc,
            Header {
                session: 0xFFFF,
                byte2: 0,
                byte3: 0,
                ptype: 0,
                stype: 5,
                system,
            },
        )?;
        self.put(frame)
    }
}
