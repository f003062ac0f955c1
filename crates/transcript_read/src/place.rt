//! Where in a transcript a line stands, and which lines may come there.
ghost use Rattle.std.specs.Prelude.{◌≡◌};
ghost use Rattle.transcript_model.specs.LifeShapes.{comes_after};
ghost use Rattle.transcript_read.specs.Places.{ended, leaves_room, next_place, next_within, row_next, top_row};

use net_types::{IfIndex, Ip6, Net, Net6};
use transcript_lines::Role;
use world::{HostRow, Via};

/// The greatest number of an interface.
const LAST_INTERFACE: u32 = 64;
/// The length of an address.
const ADDRESS_BITS: u8 = 128;

/// Within a life, after its start.
#[derive(Clone, Copy)]
pub struct Within {
    /// The number of the life.
    pub number: u64,
    /// The last moment, in milliseconds since 1970.
    pub now: u64,
    /// So many rows of a listing are still to come.
    pub left: u64,
    /// The last row of that listing.
    pub last: Option<HostRow>,
}

/// After which lines of the body the next one stands.
#[derive(Clone, Copy)]
pub enum Place {
    /// None but interfaces.
    Interfaces,
    /// The number of a life, which has this one.
    Numbered(u64),
    Within(Within),
    /// The end of a life; so many there were.
    Between(u64),
}

/// Whether the row comes after the last one in row order.
fn comes_after(last: Option<HostRow>, row: HostRow) -> bool
    ensures { result ≡ comes_after last row }
{
    match last {
        Some(last) => last.cmp(&row).is_lt(),
        None => true,
    }
}

/// Of all rows that a host can hold the one with so many above it in row order.
#[tactic(auto, unfolding(crate::specs::Places::top_row))]
fn top_row(above: u64) -> HostRow
    ensures { result ≡ top_row above }
{
    let last = Ip6 { number: u128::MAX };
    let gate = Ip6 {
        number: u128::MAX - u128::from(above),
    };
    HostRow::Route {
        iface: IfIndex {
            number: LAST_INTERFACE,
        },
        dest: Net::V6(Net6 {
            ip: last,
            len: ADDRESS_BITS,
        }),
        via: Via::Gate6(gate),
        metric: u32::MAX,
    }
}

/// Whether so many rows can come after this one.
fn leaves_room(left: u64, row: HostRow) -> bool
    ensures { result ≡ leaves_room left row }
{
    left == 0 || row.cmp(&top_row(left - 1)).is_lt()
}

impl Within {
    /// With one more row of a listing.
    fn with_row(self, row: HostRow) -> Option<Within>
        ensures { result ≡ row_next self row }
    {
        if self.left > 0 && comes_after(self.last, row) && leaves_room(self.left - 1, row) {
            Some(Within {
                left: self.left - 1,
                last: Some(row),
                ..self
            })
        } else {
            None
        }
    }

    /// After a line with which the life goes on.
    fn next(self, role: Role) -> Option<Within>
        ensures { result ≡ next_within self role }
    {
        match role {
            Role::Row(row) => self.with_row(row),
            Role::Turn(at) => {
                if self.left == 0 && self.now <= at {
                    Some(Within { now: at, ..self })
                } else {
                    None
                }
            }
            Role::Listing(count) => {
                if self.left == 0 {
                    Some(Within {
                        left: count,
                        last: None,
                        ..self
                    })
                } else {
                    None
                }
            }
            Role::Other => { if self.left == 0 { Some(self) } else { None } }
            _ => None,
        }
    }

    /// After the end of the life.
    fn ended(self, role: Role) -> Option<Place>
        ensures { result ≡ ended self role }
    {
        match role {
            Role::End => {
                if self.left == 0 {
                    Some(Place::Between(self.number))
                } else {
                    None
                }
            }
            _ => None,
        }
    }
}

impl Place {
    /// After one line more.
    pub fn next(self, role: Role) -> Option<Place>
        ensures { result ≡ next_place self role }
    {
        match self {
            Place::Interfaces => match role {
                Role::Interface(_) => Some(self),
                Role::Life(1) => Some(Place::Numbered(1)),
                _ => None,
            },
            Place::Between(lives) => match role {
                Role::Life(number) => {
                    if number > 0 && number - 1 == lives {
                        Some(Place::Numbered(number))
                    } else {
                        None
                    }
                }
                _ => None,
            },
            Place::Numbered(number) => match role {
                Role::Start(now) => Some(Place::Within(Within {
                    number,
                    now,
                    left: 0,
                    last: None,
                })),
                _ => None,
            },
            Place::Within(within) => match within.next(role) {
                Some(next) => Some(Place::Within(next)),
                None => within.ended(role),
            },
        }
    }
}
