//! What is true of the evidence for leases. These functions do nothing: their contracts are the laws.

ghost use Rattle.std.specs.Prelude.{◌≡◌, ◌∷◌, [], None, Some};
ghost use Rattle.net_types.specs.declared.address.Net.TheVariants.{V4};
ghost use Rattle.v4_client.specs.Clients.{held_of};
ghost use Rattle.v4_frames.specs.declared.speaker.TheConstants.{BROADCAST_FLAG};
ghost use Rattle.v4_message.specs.declared.writing.Kind4.TheVariants.{Decline, Discover, Release};
ghost use Rattle.evidence_words.specs.IfaceLives.{IsLived, iface_after, shown, site_of};
ghost use Rattle.lease_evidence.specs.AskedFirst.{LastsFromRequest, NeedsFrameHere, NeedsNewRequest, NeedsRequest};
ghost use Rattle.lease_evidence.specs.Endings.{EndsBy, EndsBySaying, IsGivenBack, IsRefused, IsToldToStop, LosesCarrier, NewestCounts};
ghost use Rattle.lease_evidence.specs.HeldLeases.{BeginsWithKept, BeginsWithStaticRows, BeginsWithoutLease, HeldLeasesHaveBasis, PlainLeasesAreAsGranted, PlainLeasesAreGranted};
ghost use Rattle.lease_evidence.specs.KeptNeeds.{EndsWithKept, KeptEndsBy, NamesServer, NeedsAsking, NeedsFlag, NeedsItsAddress, NeedsOneExchange, NeedsOrigin, SaysElse};
ghost use Rattle.lease_evidence.specs.LeaseBasis.{LeaseBasis};
ghost use Rattle.lease_evidence.specs.Laws.{EndsWithLease, ForeignGivesNothing, NeedsAck};
ghost use Rattle.lease_evidence.specs.OwnFrames.{EachMessageIsOwn, OwnFramesAlone, configured, discover_from, discover_with, first_discover, own_read, without_list};
ghost use Rattle.lease_evidence.specs.PlainIface.{client_mac};
ghost use Rattle.lease_evidence.specs.ProbedFirst.{ContestsPartProbes, NeedsThreeProbes, ProbesBeginAnew, ProbesTakeFourSeconds};
ghost use Rattle.lease_evidence.specs.SevenTurns.{beginning, lease, opening, server_mac, seven_turns};

/// Law: each lease that an interface holds after its opening and some turns, with any outcomes of its frames, has its
/// basis in what they showed: an ACK in its own exchange, unexpired, probed and not given up since (RFC 2131, section
/// 4.4); or, under `persistent`, it is the lease that was kept with its origin, unexpired, and a server is asked to
/// confirm it. Without the flag or an origin it is the former, and the lease has the terms of that ACK, and its time
/// counts from the first REQUEST of the exchange.
pub fn held_leases_have_a_basis()
    ensures each { HeldLeasesHaveBasis }
    ensures plain { PlainLeasesAreGranted }
    ensures as_granted { PlainLeasesAreAsGranted }
{}

/// Law: after the opening no interface holds a lease without `persistent`, nor one that was kept without its origin:
/// such a lease is held only after an exchange of this life (RFC 2131, section 3.2). Without `persistent` its static
/// addresses alone give it rows. What is held is the kept lease, which a server was asked to confirm.
pub fn a_kept_lease_is_not_held_at_first()
    ensures none { BeginsWithoutLease }
    ensures rows { BeginsWithStaticRows }
    ensures kept { BeginsWithKept }
{}

/// Law: no address has a basis by a kept lease without `persistent`, without a lease that was kept with its origin and
/// gives the address, or once that is over.
pub fn kept_leases_need_their_file()
    ensures flag { NeedsFlag }
    ensures origin { NeedsOrigin }
    ensures address { NeedsItsAddress }
    ensures lifetime { EndsWithKept }
{}

/// Law: nor once the carrier was lost, the leases are to be given back, or the daemon is to end, whatever came then.
pub fn disturbed_kept_leases_end()
    ensures carrier { KeptEndsBy LosesCarrier }
    ensures release { KeptEndsBy IsGivenBack }
    ensures stop { KeptEndsBy IsToldToStop }
{}

/// Law: nor before a REQUEST, nor once the client said another DHCPv4 message, named a server or began a second
/// exchange, nor once a NAK came in an exchange that had no ACK (RFC 2131, sections 3.2 and 4.3.2).
pub fn kept_leases_are_asked_for_alone()
    ensures asked { NeedsAsking }
    ensures others { KeptEndsBy SaysElse }
    ensures server { KeptEndsBy NamesServer }
    ensures exchange { NeedsOneExchange }
    ensures refused { KeptEndsBy IsRefused }
{}

/// Law: no address has a basis as a leased one without an acceptable ACK in an exchange that asked for it (RFC 2131,
/// section 3.1).
pub fn leases_are_granted()
    ensures { NeedsAck }
{}

/// Law: no address has one after the time of its leases, which counts from the first REQUEST of the exchange (RFC 2131,
/// section 4.4.1).
pub fn leases_end()
    ensures { EndsWithLease }
{}

/// Law: an ACK with another transaction id than that of the open exchange, or with another hardware address, gives none
/// (RFC 2131, section 4.4.1).
pub fn foreign_replies_give_nothing()
    ensures { ForeignGivesNothing }
{}

/// Law: no address has one once the carrier was lost, the leases are to be given back, or the daemon is to end, unless
/// an ACK granted it since (RFC 2131, sections 4.4.5 and 4.4.6).
pub fn disturbed_leases_end()
    ensures carrier { EndsBy LosesCarrier }
    ensures release { EndsBy IsGivenBack }
    ensures stop { EndsBy IsToldToStop }
{}

/// Law: nor once a NAK came in an exchange that had no ACK (RFC 2131, section 3.2).
pub fn refused_leases_end()
    ensures { EndsBy IsRefused }
{}

/// Law: nor once the client said DISCOVER, DECLINE or RELEASE (RFC 2131, sections 3.1 and 4.4).
pub fn leases_end_by_own_messages()
    ensures discover { EndsBySaying Discover }
    ensures decline { EndsBySaying Decline }
    ensures release { EndsBySaying Release }
{}

/// Law: of several ACKs the first one in the newest exchange that has one counts (RFC 2131, section 4.4.5).
pub fn the_newest_lease_counts()
    ensures { NewestCounts }
{}

/// Law: unless addresses aren't to be probed, no address has a basis as a leased one before the link took three probes
/// for it, anew after each turn that ends a lease, none of them apart from the others by a contest, and before four
/// seconds are over (RFC 5227, section 2.1.1).
pub fn leases_need_three_probes()
    ensures probes { NeedsThreeProbes }
    ensures anew { ProbesBeginAnew }
    ensures contested { ContestsPartProbes }
    ensures seconds { ProbesTakeFourSeconds }
{}

/// Law: nor has an address one for which no REQUEST asked, nor longer after the last REQUEST for it than its leases
/// last (RFC 2131, sections 3.1 and 4.4.1).
pub fn leases_are_asked_for()
    ensures asked { NeedsRequest }
    ensures lasts { LastsFromRequest }
{}

/// Law: nor one by an ACK to which no REQUEST belongs that was said after DISCOVER, DECLINE and RELEASE (RFC 2131,
/// section 3.1).
pub fn leases_need_a_new_request()
    ensures discover { NeedsNewRequest Discover }
    ensures decline { NeedsNewRequest Decline }
    ensures release { NeedsNewRequest Release }
{}

/// Law: nor by frames that came in on other interfaces.
pub fn other_interfaces_give_nothing()
    ensures { NeedsFrameHere }
{}

/// Law: a life of seven turns in which an interface comes to hold a lease, which has its basis.
pub fn seven_turns_grant_a_lease()
    ensures lived { IsLived (client_mac ∷ []) beginning opening seven_turns }
    ensures held { held_of (iface_after (client_mac ∷ []) beginning opening seven_turns).dhcp4 ≡ Some lease }
    ensures basis { LeaseBasis (site_of (client_mac ∷ []) beginning opening) (V4 lease.net) 6503
        (shown opening seven_turns) }
{}

/// Law: over every life of an interface each message of DHCPv4 that it says is read in its frame as it is, as the
/// client's own, and none is read in its other frames (RFC 2131, section 4.4.1 and table 5).
pub fn each_message_is_own()
    ensures { EachMessageIsOwn }
{}

/// Law: what is read as the client's own is a frame that it may say, byte for byte: with the hardware address of its
/// interface, the options and flags that are configured, its own address or none, and no seconds but in a DISCOVER and
/// the REQUEST for an offer. Of an example's DISCOVER, which is read, none is with another hardware address, with flags
/// that aren't configured, or without the list of options that it asks for.
pub fn own_messages_alone_are_read()
    ensures alone { OwnFramesAlone }
    ensures own { own_read configured first_discover ≡ Some first_discover }
    ensures other_mac { own_read configured (discover_from server_mac) ≡ None }
    ensures other_flags { own_read configured (discover_with BROADCAST_FLAG) ≡ None }
    ensures no_list { own_read without_list first_discover ≡ None }
{}
