//! Which addresses are promised a basis: each that the client wants, and each that a host which tells its rows holds
//! on managed interfaces where no host call failed; and what a basis needs, and when it ends.

ghost use Rattle.std.specs.Prelude.{◌≡◌, ◌∷◌, List, [], true};
ghost use Rattle.world.specs.RowOrder.{has_row};
ghost use Rattle.world.specs.declared.rows.HostRow.TheVariants.{Addr};
ghost use Rattle.client_model.specs.Clients.{rows_of};
ghost use Rattle.evidence_words.specs.TurnModel.Lives.{IsOpening, life_after};
ghost use Rattle.evidence_words.specs.Entries.{shown_of};
ghost use Rattle.evidence.specs.Endings.{EndsWithCarrier, EndsWithStop, StaticEndsWithStop, StaticIsConfigured, StaticNeedsCarrier, StaticWaitsForCarrier};
ghost use Rattle.evidence.specs.HeldAddresses.{ForetoldAreMet, OpeningRests, OpeningStarts, PlainOpeningStarts, TurnsRest};
ghost use Rattle.evidence.specs.KeptOwn.{KeptAreOwn};
ghost use Rattle.evidence.specs.Laws.{AddressesHaveBasis, AreMade, CountedAreNumbered, OthersHaveBasis, site_of};
ghost use Rattle.local_evidence.specs.LinkLocalBasis.{LinkLocalBasis};
ghost use Rattle.evidence.specs.SevenTurns.{chosen_net, interface, opens, seven_shown, seven_turns};
ghost use Rattle.evidence.specs.ShareNeeds.{NeedsAnotherInterface, NeedsDelegation, NeedsPrefix, NeedsReplyWithIt, NeedsSameIa, NeedsShare, SharesHaveTheirBits};

/// Law: over every list of turns and outcomes, each address that the client wants has its basis in what the life showed
/// of its interface: a static address, a choice that passed its probes (RFC 3927, sections 2.2.1 and 2.5), or a lease
/// that a server granted, of DHCPv4 (RFC 2131, section 4.4) or of DHCPv6 (RFC 8415, section 18.2.10), or, under
/// `persistent`, one that was kept with its origin and is asked for again; or in what it showed of another interface,
/// to which a server delegated, or which so keeps, the prefix of which the address is a share. Where neither protocol
/// runs on its interface it is one of the first two, unless an interface that runs DHCPv6 has a share for it.
pub fn addresses_have_a_basis()
    ensures each { AddressesHaveBasis }
    ensures without_dhcp { OthersHaveBasis }
{}

/// Law: over devices that tell what they hold and which of their calls fail, after an opening and after every turn in
/// which no host call failed, each address that the host holds on a managed interface has its basis in the same life.
/// The turns are those that the devices foretell.
pub fn held_addresses_have_a_basis()
    ensures opening { OpeningRests }
    ensures turns { TurnsRest }
    ensures foretold { ForetoldAreMet }
{}

/// Law: at the opening of a life, whatever leases were kept, the addresses that the client wants are static ones alone,
/// each of an interface that has carrier, where no interface has `persistent`; and else besides those of leases that
/// were kept for an interface with `persistent`, and are asked for again.
pub fn openings_want_static_addresses_alone()
    ensures plain { PlainOpeningStarts }
    ensures each { OpeningStarts }
{}

/// Law: a lease that was kept counts for an interface with its name and the hardware address to which it was granted
/// alone.
pub fn kept_leases_are_own()
    ensures { KeptAreOwn }
{}

/// Law: no address has a basis as a static one without carrier, nor after a stop, nor where it isn't configured.
pub fn static_addresses_need_carrier()
    ensures lost { StaticNeedsCarrier }
    ensures at_first { StaticWaitsForCarrier }
    ensures stop { StaticEndsWithStop }
    ensures configured { StaticIsConfigured }
{}

/// Law: no address of IPv4 has a basis of any kind once the carrier was lost or the daemon is to end, unless it was
/// granted or probed anew (RFC 2131, section 4.4, and RFC 3927, section 2.2.1).
pub fn addresses_end()
    ensures carrier { EndsWithCarrier }
    ensures stop { EndsWithStop }
{}

/// Law: interfaces that count from 1, as those of a script do, have unlike numbers.
pub fn counted_interfaces_are_numbered()
    ensures { CountedAreNumbered }
{}

/// Law: no address has a basis as a share without a prefix that another interface asks for and is given, and a share of
/// its IA that is configured for this interface (RFC 3633, section 12.1).
pub fn shares_need_a_prefix()
    ensures another { NeedsAnotherInterface }
    ensures delegation { NeedsDelegation }
    ensures prefix { NeedsPrefix }
    ensures reply { NeedsReplyWithIt }
    ensures configured { NeedsShare }
    ensures same { NeedsSameIa }
{}

/// Law: such an address is the one after the first of those that have the prefix's bits, and then the share's own.
pub fn shares_have_their_bits()
    ensures { SharesHaveTheirBits }
{}

/// Law: a run of seven turns in which the client wants a link-local address, with its basis written out.
pub fn seven_turns_give_a_basis()
    ensures opened { IsOpening (interface ∷ []) (interface.spec ∷ []) opens }
    ensures made { AreMade (interface ∷ []) opens.life seven_turns }
    ensures wanted { has_row (rows_of (life_after opens.life seven_turns).client) (Addr interface.spec.index chosen_net)
        ≡ true }
    ensures shown { shown_of opens seven_turns ≡ seven_shown }
    ensures basis { LinkLocalBasis
        (site_of (interface ∷ []) (interface.spec ∷ []) opens interface) chosen_net seven_shown }
{}
