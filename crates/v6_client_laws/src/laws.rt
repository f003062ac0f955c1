//! What is true of every client: what it reads of a Reply, when it acts next, what it keeps and holds. These functions do
//! nothing: their contracts are the laws.

ghost use Rattle.v6_client.specs.Laws.{BeginsBringNothing, BringsNothing, HoldsNothingOver, IgnoresForeign, KeepsGranted, TicksBringNothing};
ghost use Rattle.v6_client.specs.Origins.{GrantsOrigin, OriginsStay};
ghost use Rattle.v6_client.specs.OwnLeases.{CarriersOwn, DuplicatesOwn, GrantsOwn, HeldOwn, MadeOwn, MessagesOwn, RebindsOwn, ReleasesOwn, TicksOwn};
ghost use Rattle.v6_client.specs.RunsStay.{GrantsFit, OwnIasStay, SoundStays};
ghost use Rattle.v6_client_laws.specs.DueRows.{RestsBefore, RestsElsewhere, WakesInTime};
ghost use Rattle.v6_client_laws.specs.GivenLaws.{BindingsAreKnown, ItemsAreGiven, ItemsAreTaken, LeasesAreGranted, MessagesServe, ServersAreNamed, TimesAreTold};

/// Law: the items that count of an IA are those that the message gives; whether its server knows the IA, whether the
/// message serves what is asked for, and which server it is of, is read as it is told (RFC 8415, section 18.2.10.1).
pub fn replies_give_items()
    ensures items { ItemsAreGiven }
    ensures bindings { BindingsAreKnown }
    ensures serves { MessagesServe }
    ensures servers { ServersAreNamed }
{}

/// Law: the shortest preferred lifetime is the least of those that were taken, T2 the least of all IAs, and T1 the
/// least of both (RFC 8415, sections 14.2 and 21.4); so of the lease that a Reply grants.
pub fn replies_tell_times()
    ensures taken { ItemsAreTaken }
    ensures times { TimesAreTold }
    ensures leases { LeasesAreGranted }
{}

/// Law: the client asks to be woken at the first moment at which a row of its table fits, and never where none does.
/// Before it the table changes nothing and says nothing (RFC 8415, section 18.2).
pub fn wakes_in_time6()
    ensures first { WakesInTime }
    ensures elsewhere { RestsElsewhere }
    ensures before { RestsBefore }
{}

/// Law: a message of another exchange, or to another DUID, changes nothing (RFC 8415, sections 16.3 and 16.10).
pub fn ignores_foreign6()
    ensures { IgnoresForeign }
{}

/// Law: the lease that is kept when a message was heard was kept before, or the message is a Reply of the client's own
/// exchange, to its DUID, that served it and granted this lease. Every other call keeps none that wasn't kept; items
/// only go.
pub fn keeps_granted6()
    ensures granted { KeepsGranted }
    ensures others { BringsNothing }
    ensures ticks { TicksBringNothing }
    ensures begins { BeginsBringNothing }
{}

/// Law: after a tick no item of an IA that is asked for is held whose valid lifetime is over (RFC 8415, section
/// 18.2.10.1).
pub fn holds_nothing_over6()
    ensures { HoldsNothingOver }
{}

/// Law: a lease that a Reply grants has IAs alone that are asked for, and so has each lease that is held.
pub fn holds_own_ias6()
    ensures made { MadeOwn }
    ensures grants { GrantsOwn }
    ensures held { HeldOwn }
    ensures ticks { TicksOwn }
    ensures messages { MessagesOwn }
    ensures duplicates { DuplicatesOwn }
    ensures carriers { CarriersOwn }
    ensures releases { ReleasesOwn }
    ensures rebinds { RebindsOwn }
    ensures runs { OwnIasStay }
{}

/// Law: the kept lease stays within the bounds of its text.
pub fn stays_sound6()
    ensures sound { SoundStays }
    ensures grants { GrantsFit }
{}

/// Law: a lease that a Reply grants tells the interface's hardware address and the moment at which the Reply was heard.
/// Every other lease that is kept tells what it told before, items that went or not.
pub fn keeps_origins6()
    ensures grants { GrantsOrigin }
    ensures stays { OriginsStay }
{}
