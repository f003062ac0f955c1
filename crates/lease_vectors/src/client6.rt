//! Steps of the DHCPv6 client of eth0, interface 1, with salts of 0. It asks for an address without the first delay.

ghost use Rattle.std.specs.Prelude.{option_map, IfSome};
ghost use Rattle.lease6_text.specs.Bounds.{FitsLease6};
ghost use Rattle.lease6_text.specs.Leases.{lease6_content};

use crate::asking::{due_said, is_among, text};
use lease6_text::{Lease6, read_lease6};
use machine::Machine;
use net_types::{IfIndex, IfSpec, Mac, NoMemory, append_text, read_ip6, read_name, u64_of};
use settings::Flags;
use std::alloc::Global;
use v6_client::{
    Carrier6, Client6, News6, Out6, Set6, carrier6, client6_new, duplicate6, heard6, held6, kept6,
};
use v6_items::IaAsk;
use v6_message::read6;
use v6_options::{Duid, IaKind};

/// The DUID of the client (RFC 8415, section 11.4).
const DUID: [u8; 10] = [0, 3, 0, 1, 2, 0, 0, 0, 0, 1];

/// A client with the lease that was kept before.
fn made(alloc: Global, persistent: bool, kept: Option<Lease6>) -> Result<Client6, NoMemory>
    requires { IfSome (option_map lease6_content kept) FitsLease6 }
{
    let (Some(duid), Ok(name)) = (Duid::new(alloc, &DUID)?, read_name("eth0")) else {
        return Err(NoMemory);
    };
    let ask = IaAsk {
        kind: IaKind::Na,
        iaid: 1,
        hint: 0,
    };
    let set = Set6 {
        iface: IfSpec {
            index: IfIndex { number: 1 },
            name,
            mac: Mac {
                bytes: [2, 0, 0, 0, 0, 1],
            },
        },
        flags: Flags {
            nodelay: true,
            persistent,
            ..Flags::none()
        },
        duid,
        ias: Vec::from_slice(alloc, &[ask])?,
        rapid: false,
    };
    Ok(client6_new(alloc, set, kept))
}

/// A client that lives step by step.
#[derive(Drop)]
pub(crate) struct Run6 {
    client: Client6,
}

/// What the client says, tells and wants next.
fn out_said(alloc: Global, out: &Out6, due: Option<u64>) -> Result<String, NoMemory> {
    let mut said = String::new(alloc);
    if let Some(say) = &out.say {
        let (kind, xid) = (say.kind, say.xid);
        append_text(format_args!("{kind:?} {xid}"), &mut said)?;
        for ia in &say.ias {
            append_text(format_args!(" of {} items", ia.items.len()), &mut said)?;
        }
        said.push_str(", ")?;
    }
    if out.news != News6::Nothing {
        append_text(format_args!("{:?}, ", out.news), &mut said)?;
    }
    said.push_str(due_said(alloc, due)?.as_str())?;
    Ok(said)
}

/// How many items each IA of a lease has.
fn items_said(alloc: Global, lease: Option<&Lease6>) -> Result<String, NoMemory> {
    let Some(lease) = lease else {
        return Ok("nothing".to_string(alloc)?);
    };
    let mut said = "items".to_string(alloc)?;
    for ia in &lease.ias {
        append_text(format_args!(" {}", ia.items.len()), &mut said)?;
    }
    Ok(said)
}

impl Run6 {
    /// A client that hasn't begun.
    pub(crate) fn new(alloc: Global) -> Result<Run6, NoMemory> {
        Ok(Run6 {
            client: made(alloc, false, None)?,
        })
    }

    /// What the client holds and keeps.
    fn holds_said(&self, alloc: Global) -> Result<String, NoMemory> {
        let held = items_said(alloc, held6(&self.client))?;
        let kept = items_said(alloc, kept6(&self.client))?;
        Ok(format!(in alloc; "holds {held}, keeps {kept}")?)
    }

    /// What the client does at a moment.
    fn does(&mut self, word: &str, at: u64, data: &[u8]) -> Result<Option<Out6>, NoMemory> {
        let c = &mut self.client;
        let out = match word {
            "tick6" => c.tick(at, 0)?,
            "up6" => carrier6(c, Carrier6::Up, at, 0)?,
            "down6" => carrier6(c, Carrier6::Down, at, 0)?,
            "message6" => match read6(data) {
                Ok(message) => heard6(c, &message, at, 0)?,
                Err(_) => return Ok(None),
            },
            "duplicate6" => match read_ip6(text(data)) {
                Ok(address) => duplicate6(c, address, at, 0)?,
                Err(_) => return Ok(None),
            },
            _ => return Ok(None),
        };
        Ok(Some(out))
    }

    /// The answer to a step at a moment.
    fn step_said(
        &mut self,
        alloc: Global,
        word: &str,
        at: &[u8],
        data: &[u8],
    ) -> Result<Option<String>, NoMemory> {
        let Some(at) = u64_of(at) else {
            return Ok(None);
        };
        match self.does(word, at, data)? {
            Some(out) => Ok(Some(out_said(alloc, &out, self.client.due())?)),
            None => Ok(None),
        }
    }

    /// The answer to a vector of the client.
    pub(crate) fn answer(
        &mut self,
        alloc: Global,
        word: &str,
        arguments: &[Vec<u8>],
    ) -> Result<Option<String>, NoMemory> {
        match (word, arguments) {
            ("begin6", _) => self.client = made(alloc, false, None)?,
            ("restart6", [flags, lease]) => {
                let Ok(lease) = read_lease6(alloc, lease) else {
                    return Ok(None);
                };
                self.client = made(alloc, is_among("persistent", flags), Some(lease))?;
            }
            ("holds6", _) => {}
            (_, [at]) => return self.step_said(alloc, word, at, b""),
            (_, [at, data]) => return self.step_said(alloc, word, at, data),
            _ => return Ok(None),
        }
        Ok(Some(self.holds_said(alloc)?))
    }
}
