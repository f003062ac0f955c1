//! The laws that, each under its premises, link-local addresses are held in time and stay so, held addresses reach
//! the host, and what is kept reaches its files; and that the link-local premises can be met.

ghost use Rattle.std.specs.Prelude.{◌≡◌};
ghost use Rattle.progress.specs.AddressesReach.{AlwaysReachesHost, OpeningReachesHost, TurnsReachHost};
ghost use Rattle.progress.specs.FilesReach.{OpeningReachesFiles, TurnsReachFiles};
ghost use Rattle.progress.specs.InterfaceHeld.{InterfaceHoldsInTime};
ghost use Rattle.progress.specs.LocalHeld.{HeldInTime, StaysHeld, longest_probing};
ghost use Rattle.progress.specs.OneLife.{OneLifeGoesWell};

/// Law of a link-local machine, over every list of its events. Where each comes no later than was asked for, the link
/// takes the frames, the carrier stays and nobody contests the choice, an address is held seven seconds after the
/// moment for which it was armed, or sooner (RFC 3927, sections 2.2.1 and 9); and what is held stays so (section 2.5).
pub fn link_local_is_held()
    ensures held { HeldInTime }
    ensures stays { StaysHeld }
    ensures sum { longest_probing ≡ 7000 }
{}

/// Law of an interface's run, over every setting without DHCPv4 that lets it choose an address, every salt and list of
/// turns, from an opening with carrier on. Where turns come no later than asked for, the link takes the frames, the
/// carrier stays and nobody contests the choice, it holds an address seven seconds after its opening, or sooner, and
/// from then on.
pub fn interfaces_hold_link_local()
    ensures { InterfaceHoldsInTime }
{}

/// Law: the premises can be met. One life is written out for which they hold, up to a minute after the gain.
pub fn link_local_premises_are_met()
    ensures { OneLifeGoesWell }
{}

/// Law of a life over devices that tell what they hold and which of their calls fail, from any host: after the opening,
/// and after every turn, in which no host call failed, whatever failed before, the host has the address of each DHCPv4
/// lease that an interface holds, each address of a DHCPv6 lease, each link-local one, and the static ones that are in
/// force. Where no call of the host ever fails, it always has them.
pub fn what_is_held_reaches_the_host()
    ensures opening { OpeningReachesHost }
    ensures turns { TurnsReachHost }
    ensures always { AlwaysReachesHost }
{}

/// Law of such a life over any store whose files stand in order, where no two interfaces have one name or number: after
/// the opening, and after every turn, in which each call that was to change files was done, whatever failed before, the
/// file of each lease that an interface keeps is the lease's text, and the resolver's file what the interfaces tell it.
pub fn what_is_kept_reaches_its_file()
    ensures opening { OpeningReachesFiles }
    ensures turns { TurnsReachFiles }
{}
