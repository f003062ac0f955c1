//! What lines tell of the turn that goes on.
ghost use Rattle.std.specs.Prelude.{◌≡◌, ◌<◌, ◌^◌, ◌==◌, [], false, true, IfOk};
ghost use Rattle.std.specs.List.{list_any};
ghost use Rattle.world.specs.RowOrder.{without_row};
ghost use Rattle.audit_model.specs.Auditing.{offered};
ghost use Rattle.audit_words.specs.Shown.{entry_shown, offer_shown};
ghost use Rattle.transcript_lines.specs.Contents.{line_of};
ghost use Rattle.world.specs.declared.wakes.Event.TheVariants.{Quiet};
ghost use Rattle.audit_turns.specs.Goings.{Going, going_of, going_told, is_among, put_among};

use crate::going::Going;
use audit_words::{Entry, Offer};
use net_types::NoMemory;
use std::alloc::Global;
use std::collections::BTreeSet;
use transcript_lines::ToldLine;
use world::{Event, HostRow};

/// Whether an interface of this number is among them.
fn has_number(numbers: &[u32], index: u32) -> bool
    ensures { result ≡ list_any (λ number. number == index) numbers.now }
{
    numbers.iter().any(|number| *number == index)
}

/// Whether a row is an address of an interface of these numbers.
fn is_among(numbers: &[u32], row: HostRow) -> bool
    ensures { result ≡ is_among numbers.now row }
{
    match row {
        HostRow::Addr { iface, .. } => has_number(numbers, iface.number),
        HostRow::Route { .. } => false,
    }
}

impl Going {
    /// Before the first line of a life, with the numbers of its managed interfaces.
    pub fn new(alloc: Global, moment: u64, numbers: Vec<u32>) -> Going
        requires { moment < 10 ^ 15 }
        ensures { going_of result
            ≡ record {
              entry = record { moment = moment; event = Quiet; bytes = []; offers = [] };
              failed = false;
              numbers = numbers.items;
              rows = [];
            } }
    {
        Going {
            entry: Entry {
                moment,
                event: Event::Quiet,
                bytes: Vec::new(alloc),
                offers: Vec::new(alloc),
            },
            failed: false,
            numbers,
            rows: BTreeSet::new(alloc),
        }
    }

    /// At the beginning of the next turn.
    pub fn next(self, alloc: Global, moment: u64, event: Event, bytes: Vec<u8>) -> Going
        requires { moment < 10 ^ 15 }
        ensures { going_of result
            ≡ record (going_of self) {
              entry = record { moment = moment; event = event; bytes = bytes.items; offers = [] };
              failed = false;
            } }
    {
        let Going { numbers, rows, .. } = self;
        Going {
            entry: Entry {
                moment,
                event,
                bytes,
                offers: Vec::new(alloc),
            },
            failed: false,
            numbers,
            rows,
        }
    }

    /// With a frame that was offered.
    fn with_offer(self, offer: Offer) -> Result<Going, NoMemory>
        ensures { IfOk result
            (λ next. going_of next
            ≡ record (going_of self) { entry = offered (offer_shown offer) (entry_shown self.entry) }) }
    {
        let Going {
            entry: Entry {
                moment,
                event,
                bytes,
                mut offers,
            },
            failed,
            numbers,
            rows,
        } = self;
        offers.push(offer)?;
        Ok(Going {
            entry: Entry {
                moment,
                event,
                bytes,
                offers,
            },
            failed,
            numbers,
            rows,
        })
    }

    /// With a row that is shown.
    fn with_row(self, row: HostRow) -> Result<Going, NoMemory>
        ensures { IfOk result
            (λ next. going_of next
            ≡ record (going_of self) { rows = put_among self.numbers.items row self.rows.keys }) }
    {
        let Going {
            entry,
            failed,
            numbers,
            mut rows,
        } = self;
        if is_among(&numbers, row) {
            let _new = rows.insert(row)?;
        }
        Ok(Going {
            entry,
            failed,
            numbers,
            rows,
        })
    }

    /// Without a row.
    fn without_row(self, row: HostRow) -> Going
        ensures { going_of result ≡ record (going_of self) { rows = without_row row self.rows.keys } }
    {
        let Going {
            entry,
            failed,
            numbers,
            mut rows,
        } = self;
        let _had = rows.remove(&row);
        Going {
            entry,
            failed,
            numbers,
            rows,
        }
    }

    /// Without any row, before those of a listing.
    fn listed(self, alloc: Global) -> Going
        ensures { going_of result ≡ record (going_of self) { rows = [] } }
    {
        let Going {
            entry,
            failed,
            numbers,
            ..
        } = self;
        Going {
            entry,
            failed,
            numbers,
            rows: BTreeSet::new(alloc),
        }
    }

    /// With a call of the host that failed.
    fn failed(self) -> Going
        ensures { going_of result ≡ record (going_of self) { failed = true } }
    {
        let Going {
            entry,
            numbers,
            rows,
            ..
        } = self;
        Going {
            entry,
            failed: true,
            numbers,
            rows,
        }
    }

    /// After a line that doesn't begin or end a turn.
    pub fn told(self, alloc: Global, line: ToldLine<'_>) -> Result<Going, NoMemory>
        ensures { IfOk result (λ next. going_of next ≡ going_told (line_of line.entry) (going_of self)) }
    {
        match line {
            ToldLine::Send {
                iface,
                bytes,
                taken,
            } => self.with_offer(Offer {
                iface,
                bytes,
                taken,
            }),
            ToldLine::HostListed { .. } => Ok(self.listed(alloc)),
            ToldLine::Row(row) => self.with_row(row),
            ToldLine::HostAdd { row, done: true } => self.with_row(row),
            ToldLine::HostAdd { done: false, .. } => Ok(self.failed()),
            ToldLine::HostDel { row, done: true } => Ok(self.without_row(row)),
            ToldLine::HostDel { done: false, .. } => Ok(self.failed()),
            ToldLine::HostListFailed => Ok(self.failed()),
            _ => Ok(self),
        }
    }
}
