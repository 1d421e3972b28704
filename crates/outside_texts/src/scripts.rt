//! A script that comes over a stream of the machine (`outside`), with a peer that writes it.
//!
//! `say abc` lets the peer write, and `leave` go away. `read` reads into eight bytes, and `counts` tells the faults and the ends of the
//! reads. `over` signs that the run is over.

use crate::words::told;
use anyhow::Result;
use outside::{Failed, RunSigns, ScriptSource, Source};
use std::alloc::Global;
use std::io::Write;
use std::net::{Ipv4Addr, Net, SocketAddr, TcpListener, TcpStream};
use test_lines::Subject;

/// A script over a stream, and its peer.
#[derive(Drop)]
pub struct Scripted<'a> {
    signs: &'a RunSigns,
    script: ScriptSource<'a, TcpStream>,
    peer: Option<TcpStream>,
}

impl<'a> Scripted<'a> {
    /// A script that comes while these signs tell that the run is not over. None where the machine gives no stream.
    pub fn new<R: Net<Listener = TcpListener, Stream = TcpStream>>(
        rt: &R,
        signs: &'a RunSigns,
    ) -> Option<Scripted<'a>> {
        let listener = TcpListener::bind(rt, SocketAddr::from((Ipv4Addr::LOCALHOST, 0))).ok()?;
        let peer = TcpStream::connect(rt, listener.local_addr().ok()?).ok()?;
        let (stream, _) = listener.accept().ok()?;
        Some(Scripted {
            signs,
            script: ScriptSource::new(stream, signs),
            peer: Some(peer),
        })
    }
}

impl Subject for Scripted<'_> {
    fn answer(&mut self, alloc: Global, said: &str) -> Result<String> {
        let mut answer = String::new(alloc);
        let said = say(
            self.signs,
            &mut self.script,
            &mut self.peer,
            said,
            &mut answer,
        );
        told(answer, said)
    }
}

fn say(
    signs: &RunSigns,
    script: &mut ScriptSource<'_, TcpStream>,
    peer: &mut Option<TcpStream>,
    said: &str,
    answer: &mut String,
) -> Option<()> {
    match said {
        "read" => {
            let (read, buf) = read(script);
            write!(answer, "{read:?} {buf:?}").ok()
        }
        "counts" => write!(answer, "{} {}", script.faults(), script.ends()).ok(),
        "over" => {
            signs.end_run();
            Some(())
        }
        "leave" => {
            *peer = None;
            Some(())
        }
        _ => {
            let said = said.strip_prefix("say ")?;
            peer.as_mut()?.write_all(said.as_bytes()).ok()
        }
    }
}

fn read(script: &mut ScriptSource<'_, TcpStream>) -> (Result<usize, Failed>, [u8; 8]) {
    let mut buf = [0; 8];
    let read = script.read(&mut buf);
    (read, buf)
}
