//! Steps of the DHCPv4 client of eth0, interface 1, with salts of 0.

ghost use Rattle.std.specs.Prelude.{IfOk};
ghost use Rattle.net_types.specs.NameText.{FitsName};
ghost use Rattle.v4_message.specs.Requests.{AskFits, ask_content};

use crate::asking::{due_said, is_among};
use arp_acd::ArpSay;
use frame_link::ArpView;
use machine::Machine;
use net_types::{BadText, IfIndex, IfSpec, Ip4, Mac, NoMemory, append_text, read_name, u64_of};
use settings::{Flags, Times};
use std::alloc::Global;
use v4_client::{
    Carrier, Client4, News4, Out4, Say4, Set4, Tell, ask4, carrier4, client4_new, heard_arp4,
    heard4, held4, kept4, rebind4, release4, unsent4,
};
use v4_message::{Ask4, read4};

const MAC: Mac = Mac {
    bytes: [2, 0, 0, 0, 0, 1],
};

const SERVER_MAC: Mac = Mac {
    bytes: [2, 0, 0, 0, 0, 0xfe],
};

/// The address that another host says to have: 10.0.0.50.
const ADDRESS: Ip4 = Ip4 {
    number: 0x0a00_0032,
};

/// The interface of the client, or none where its name isn't one.
fn interface() -> Result<IfSpec, BadText>
    ensures { IfOk result (λ spec. FitsName spec.name) }
{
    Ok(IfSpec {
        index: IfIndex { number: 1 },
        name: read_name("eth0")?,
        mac: MAC,
    })
}

/// The settings of a client without the first delay, with these flags and the codes that it requires.
fn settings(alloc: Global, iface: IfSpec, flags: &[u8], required: &[u8]) -> Result<Set4, NoMemory>
    requires { FitsName iface.name }
    ensures name { IfOk result (λ set. FitsName set.iface.name) }
    ensures ask { IfOk result (λ set. AskFits (ask_content set.ask)) }
{
    Ok(Set4 {
        iface,
        flags: Flags {
            nodelay: true,
            noarp: is_among("noarp", flags),
            persistent: is_among("persistent", flags),
            ..Flags::none()
        },
        times: Times::usual(),
        ask: Ask4 {
            client_id: Vec::new(alloc),
            vendor: Vec::new(alloc),
            host: Vec::new(alloc),
            list: Vec::new(alloc),
        },
        required: required.to_vec(alloc)?,
        refused: Vec::new(alloc),
        blacklist: Vec::new(alloc),
    })
}

/// A client that lives step by step.
#[derive(Drop)]
pub(crate) struct Run4 {
    client: Client4,
}

/// A message, with where it goes.
fn message_said(alloc: Global, say: &Say4) -> Result<String, NoMemory> {
    let (kind, xid) = (say.said.kind, say.said.xid);
    let ends = say.sent().ends;
    Ok(format!(in alloc; "{kind:?} {xid} to {} at {}, ", ends.to, ends.to_mac)?)
}

/// What the client says, tells and wants next.
fn out_said(alloc: Global, out: &Out4, due: Option<u64>) -> Result<String, NoMemory> {
    let mut said = String::new(alloc);
    if let Some(say) = &out.say {
        said.push_str(message_said(alloc, say)?.as_str())?;
    }
    match out.arp {
        Some(ArpSay::Probe(address)) => {
            append_text(format_args!("probe of {address}, "), &mut said)?;
        }
        Some(ArpSay::Announce(address)) => {
            append_text(format_args!("announcement of {address}, "), &mut said)?;
        }
        None => {}
    }
    if out.news != News4::Nothing {
        append_text(format_args!("{:?}, ", out.news), &mut said)?;
    }
    if out.old.is_some() {
        said.push_str("of a lease, ")?;
    }
    said.push_str(due_said(alloc, due)?.as_str())?;
    Ok(said)
}

/// Nothing is said.
fn quiet() -> Out4 {
    Out4 {
        say: None,
        arp: None,
        news: News4::Nothing,
        old: None,
    }
}

impl Run4 {
    /// A client that hasn't begun.
    pub(crate) fn new(alloc: Global) -> Result<Run4, NoMemory> {
        Run4::made(alloc, b"", b"")
    }

    fn made(alloc: Global, flags: &[u8], required: &[u8]) -> Result<Run4, NoMemory> {
        let Ok(iface) = interface() else {
            return Err(NoMemory);
        };
        let set = settings(alloc, iface, flags, required)?;
        Ok(Run4 {
            client: client4_new(alloc, set, None),
        })
    }

    /// A client with the lease that the one before it has kept.
    fn made_again(&self, alloc: Global, flags: &[u8]) -> Result<Run4, NoMemory> {
        let Ok(iface) = interface() else {
            return Err(NoMemory);
        };
        let set = settings(alloc, iface, flags, b"")?;
        let client = match kept4(&self.client) {
            Some(lease) => client4_new(alloc, set, Some(lease.copied(alloc)?)),
            None => client4_new(alloc, set, None),
        };
        Ok(Run4 { client })
    }

    /// What the client holds and keeps.
    fn holds_said(&self, alloc: Global) -> Result<String, NoMemory> {
        let keeps = kept4(&self.client).is_some();
        let asks = ask4(&self.client).list.len();
        match held4(&self.client) {
            Some(lease) => {
                let (net, t1, t2) = (lease.net, lease.t1, lease.t2);
                let values = lease.values.len();
                Ok(format!(in alloc;
                    "holds {net} t1 {t1} t2 {t2} with {values} values, keeps {keeps}, asks for {asks}"
                )?)
            }
            None => Ok(format!(in alloc; "holds nothing, keeps {keeps}, asks for {asks}")?),
        }
    }

    /// What the client does at a moment.
    fn does(&mut self, word: &str, at: u64, data: &[u8]) -> Result<Option<Out4>, NoMemory> {
        let c = &mut self.client;
        let out = match word {
            "tick4" => c.tick(at, 0)?,
            "up4" => carrier4(c, Carrier::Up, at, 0)?,
            "down4" => carrier4(c, Carrier::Down, at, 0)?,
            "message4" => match read4(data) {
                Ok(message) => heard4(c, &message, SERVER_MAC, at, 0)?,
                Err(_) => return Ok(None),
            },
            "conflict4" => {
                let other = ArpView {
                    op: 2,
                    sender_mac: SERVER_MAC,
                    sender: ADDRESS,
                    target: Ip4 { number: 0 },
                };
                heard_arp4(c, &other, at, 0, &[MAC])?
            }
            "unsent4" => {
                unsent4(c, at, 0);
                quiet()
            }
            "release4" => release4(c, Tell::Server, at, 0)?,
            "rebind4" => rebind4(c, at, 0)?,
            _ => return Ok(None),
        };
        Ok(Some(out))
    }

    /// The answer to a step at a moment.
    fn step_said(
        &mut self,
        alloc: Global,
        word: &str,
        at: &[u8],
        data: &[u8],
    ) -> Result<Option<String>, NoMemory> {
        let Some(at) = u64_of(at) else {
            return Ok(None);
        };
        match self.does(word, at, data)? {
            Some(out) => Ok(Some(out_said(alloc, &out, self.client.due())?)),
            None => Ok(None),
        }
    }

    /// The answer to a vector of the client.
    pub(crate) fn answer(
        &mut self,
        alloc: Global,
        word: &str,
        arguments: &[Vec<u8>],
    ) -> Result<Option<String>, NoMemory> {
        match (word, arguments) {
            ("begin4", [flags, required]) => *self = Run4::made(alloc, flags, required)?,
            ("restart4", [flags]) => *self = self.made_again(alloc, flags)?,
            ("holds4", _) => {}
            (_, [at]) => return self.step_said(alloc, word, at, b""),
            (_, [at, data]) => return self.step_said(alloc, word, at, data),
            _ => return Ok(None),
        }
        Ok(Some(self.holds_said(alloc)?))
    }
}
