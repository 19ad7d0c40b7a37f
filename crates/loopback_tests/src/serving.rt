//! Serving over sockets, between peers that act.

ghost use Rattle.std.specs.Prelude.{◌≡◌, false};
ghost use Rattle.usb_base.specs.declared.side.Side.TheVariants.{Client, Host};

use crate::act::Act;
use crate::peer::Peer;
use crate::peers::Peers;
use crate::played::Played;
use bridge_run::ServeEnd;
use bridge_serve::{AfterLoss, RunTerms, ServeTerms, serve};
use gate_outside::{Doors, TextSink};
use gate_sockets::TcpDoors;
use session_tape::NoTape;
use std::alloc::Global;
use std::net::{Net, TcpListener, TcpStream};
use std::rt::Clock;
use usb_base::Memory;

/// How many rounds in a row may bring nothing, each of which lasts some 10 ms.
const IDLE: u64 = 100;

/// How many bytes may come.
const BUDGET: u64 = 1_000_000_000;

/// How many bytes the lines of refusals may have.
const ROOM: usize = 4_096;

/// How often the peers look at their links once serving has ended.
const LAST_LOOKS: u32 = 32;

/// Any port that is free.
const ANY: &str = "127.0.0.1:0";

/// How many acts were done, and how serving ended.
#[derive(Clone, Copy)]
pub struct Outcome {
    pub done: usize,
    pub end: ServeEnd,
}

/// Serves between peers that act so.
pub fn served<R: Eprint + Clock + AllocGlobal + Net<Stream = TcpStream, Listener = TcpListener>>(
    rt: &R,
    acts: &[Act],
    after_loss: AfterLoss,
) -> anyhow::Result<Outcome> {
    let hosts = TcpListener::bind(rt, ANY)?;
    let host = hosts.local_addr()?;
    let host = format!(in rt.alloc(); "{host}")?;
    let door = free_addr(rt)?;
    let peers = Peers {
        rt,
        hosts: &hosts,
        door: door.as_str(),
        acts,
        done: 0,
        host: Peer::new(),
        client: Peer::new(),
    };
    let doors = TcpDoors::new(rt, rt.alloc())?;
    Ok(between(rt.alloc(), host.as_str(), after_loss, doors, peers)?)
}

/// An address of this machine whose port is free.
fn free_addr<R: AllocGlobal + Net<Stream = TcpStream, Listener = TcpListener>>(
    rt: &R,
) -> anyhow::Result<String> {
    let probe = TcpListener::bind(rt, ANY)?;
    let addr = probe.local_addr()?;
    Ok(format!(in rt.alloc(); "{addr}")?)
}

/// Serves over these doors, between whose calls the peers act.
fn between<D: Doors + Drop, R: Net<Stream = TcpStream, Listener = TcpListener>>(
    alloc: Global,
    host: &str,
    after_loss: AfterLoss,
    doors: D,
    peers: Peers<'_, R>,
) -> Result<Outcome, Memory>
    requires client_down { (D.link doors Client).up ≡ false }
    requires host_down { (D.link doors Host).up ≡ false }
{
    let terms = ServeTerms {
        first_id: 1,
        after_loss,
        run: RunTerms {
            host,
            listen: peers.door,
            idle: IDLE,
            budget: BUDGET,
        },
    };
    let mut out = TextSink::make(alloc, ROOM, ROOM, &[])?;
    let mut played = Played { doors, peers };
    let end = serve(alloc, terms, &mut played, &mut out, &mut NoTape);
    for _ in 0..LAST_LOOKS {
        played.peers.play();
    }
    Ok(Outcome {
        done: played.peers.done,
        end,
    })
}
