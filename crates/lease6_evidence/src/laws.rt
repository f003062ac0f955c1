//! What is true of the evidence for items. These functions do nothing: their contracts are the laws.

ghost use Rattle.std.specs.Prelude.{◌≡◌, ◌∷◌, [], Some};
ghost use Rattle.net_types.specs.declared.address.Net.TheVariants.{V6};
ghost use Rattle.v6_client.specs.Clients.{held_of};
ghost use Rattle.lease_evidence.specs.EvidenceWords.IfaceLives.{IsLived, iface_after, shown, site_of};
ghost use Rattle.lease_evidence.specs.PlainIface.{client_mac};
ghost use Rattle.lease6_evidence.specs.Ends6.{EndsBy, IsReleased, IsStopped, IsUnknown, IsUsedTwice, IsWithdrawn, LosesCarrier};
ghost use Rattle.lease6_evidence.specs.FourMessages.{beginning, granted, lease, opening, prefix, prefixes, three_turns};
ghost use Rattle.lease6_evidence.specs.HeldItems.{BeginsWithKeptItems, BeginsWithoutItems, HasItemBasis, HeldItemsHaveBasis, PlainItemsAreGiven};
ghost use Rattle.lease6_evidence.specs.ItemBasis.{AddressBasis, ItemBasis};
ghost use Rattle.lease6_evidence.specs.KeptNeeds6.{EndsKeptBy, IsAnswered6, NeedsFlag6, NeedsItsTime, NeedsKeptItem, NeedsLiveItem, NeedsMessage6, NeedsOneExchange, NeedsOrigin6, NeedsRebind6};
ghost use Rattle.lease6_evidence.specs.Laws6.{EndsWithValid, ForeignGivesNothing6, NeedsReply};
ghost use Rattle.lease6_evidence.specs.OwnFrames6.{OwnFrames6Alone};
ghost use Rattle.lease6_evidence.specs.Wanting6.{AddressesAreAsked, FirstAloneGives, GivesNothing, HearsIdle6, HeldItemsAreAsked, IsSilent6, NeedsItsName};

/// Law: each item that an interface holds after its opening and some turns, with any outcomes of its frames, has its
/// basis in what they showed: a Reply in an exchange of its own gave it, its valid lifetime isn't over, and nothing
/// took it away since (RFC 8415, section 18.2.10); or, with `persistent`, it is one of the kept lease, which is asked
/// for again (section 18.2.12).
pub fn held_items_have_a_basis()
    ensures { HeldItemsHaveBasis }
{}

/// Law: where `persistent` isn't in force, or the kept lease doesn't tell its origin, a Reply gave each item that has
/// its basis.
pub fn plain_items_are_given()
    ensures { PlainItemsAreGiven }
{}

/// Law: so after the opening no such interface holds an item, whatever was kept for it: a kept lease is held only after
/// an exchange of this life (RFC 8415, section 18.2.12).
pub fn kept_items_are_not_held_at_first()
    ensures { BeginsWithoutItems }
{}

/// Law: each item that an interface holds after the opening is one of the kept lease, which is asked for again.
pub fn items_held_at_first_are_kept()
    ensures { BeginsWithKeptItems }
{}

/// Law: no item is held for the kept lease alone where `persistent` isn't in force.
pub fn kept_items_need_the_flag()
    ensures { NeedsFlag6 }
{}

/// Law: nor where no lease was kept, or one that doesn't tell its origin.
pub fn kept_items_need_an_origin()
    ensures { NeedsOrigin6 }
{}

/// Law: nor an item that the kept lease hasn't.
pub fn kept_items_are_of_the_lease()
    ensures { NeedsKeptItem }
{}

/// Law: nor one whose valid lifetime is over (RFC 8415, section 7.7).
pub fn kept_items_end()
    ensures { NeedsLiveItem }
{}

/// Law: nor any after the interface lost its carrier.
pub fn kept_items_end_with_the_carrier()
    ensures { EndsKeptBy LosesCarrier }
{}

/// Law: nor after a release.
pub fn kept_items_end_with_a_release()
    ensures { EndsKeptBy IsReleased }
{}

/// Law: nor after a stop.
pub fn kept_items_end_with_a_stop()
    ensures { EndsKeptBy IsStopped }
{}

/// Law: nor after a good Reply, whatever it says: what is held then it gave (RFC 8415, section 18.2.10.1).
pub fn kept_items_end_with_a_reply()
    ensures { EndsKeptBy IsAnswered6 }
{}

/// Law: nor where the interface said no DHCPv6 message.
pub fn kept_items_are_asked_for()
    ensures { NeedsMessage6 }
{}

/// Law: nor where it said another one than a REBIND (RFC 8415, section 18.2.12).
pub fn kept_items_are_rebound()
    ensures { NeedsRebind6 }
{}

/// Law: nor where it said two of unlike transaction ids.
pub fn kept_items_have_one_exchange()
    ensures { NeedsOneExchange }
{}

/// Law: nor ten seconds after the first one, or later.
pub fn kept_items_have_ten_seconds()
    ensures { NeedsItsTime }
{}

/// Law: no item has a basis without a good Reply that names it (RFC 8415, section 18.2.10).
pub fn items_are_given()
    ensures { NeedsReply }
{}

/// Law: no item has one after its valid lifetimes, which count from their Replies (RFC 8415, section 7.7).
pub fn items_end()
    ensures { EndsWithValid }
{}

/// Law: a Reply with another transaction id than that of the open exchange, or to another client, gives none
/// (RFC 8415, sections 16.1 and 16.10).
pub fn foreign_replies_give_no_items()
    ensures { ForeignGivesNothing6 }
{}

/// Law: none has one after the interface lost its carrier, until a good Reply names it again (RFC 8415, section
/// 18.2.12).
pub fn items_end_with_the_carrier()
    ensures { EndsBy LosesCarrier }
{}

/// Law: nor after a release (RFC 8415, section 18.2.7).
pub fn items_end_with_a_release()
    ensures { EndsBy IsReleased }
{}

/// Law: nor after a stop.
pub fn items_end_with_a_stop()
    ensures { EndsBy IsStopped }
{}

/// Law: nor an address of an IA_NA after it was found to be used by another host (RFC 8415, section 18.2.8).
pub fn items_end_with_a_duplicate()
    ensures { EndsBy IsUsedTwice }
{}

/// Law: nor after the first good Reply of an exchange named it with a valid lifetime of 0 (RFC 8415, section
/// 18.2.10.1).
pub fn items_end_when_withdrawn()
    ensures { EndsBy IsWithdrawn }
{}

/// Law: nor after such a Reply said that the server knows no binding of its IA (RFC 8415, section 18.2.10.1).
pub fn items_end_when_unknown()
    ensures { EndsBy IsUnknown }
{}

/// Law: no item has one where no frame of the interface asked for a Reply (RFC 8415, section 18.2.10).
pub fn unasked_replies_give_no_items()
    ensures { GivesNothing IsSilent6 }
{}

/// Law: an Advertise gives none, nor does a message of no server or of another one than was asked, a Reply to a SOLICIT
/// that doesn't say that it answers one, or one that serves nothing that is asked for (RFC 8415, sections 16.10, 18.2.1
/// and 18.2.10).
pub fn idle_messages_give_no_items()
    ensures { GivesNothing HearsIdle6 }
{}

/// Law: of the good Replies in an exchange only the first gives any (RFC 8415, section 18.2.10).
pub fn first_replies_alone_give_items()
    ensures { FirstAloneGives }
{}

/// Law: no item has a basis where no message that came in has it among what counts of its IA (RFC 8415, section
/// 18.2.10.1).
pub fn items_are_named()
    ensures { NeedsItsName }
{}

/// Law: no address has one as that of an IA_NA where no good Reply named it for one that the interface asks for (RFC
/// 8415, section 21.4).
pub fn addresses_are_asked_for()
    ensures { AddressesAreAsked }
{}

/// Law: so no item of an IA has one for an IA of its kind and IAID (RFC 8415, sections 21.4 and 21.21).
pub fn held_items_are_asked_for()
    ensures { HeldItemsAreAsked }
{}

/// Law: a life in which SOLICIT, an Advertise, REQUEST and a Reply give an interface an address and a prefix, which
/// have their basis.
pub fn four_messages_give_a_lease()
    ensures lived { IsLived (client_mac ∷ []) beginning opening three_turns }
    ensures held { held_of (iface_after (client_mac ∷ []) beginning opening three_turns).dhcp6 ≡ Some lease }
    ensures address { AddressBasis (site_of (client_mac ∷ []) beginning opening) (V6 granted) 2000
        (shown opening three_turns) }
    ensures prefix { HasItemBasis ItemBasis (site_of (client_mac ∷ []) beginning opening) prefixes prefix
        (shown opening three_turns) }
{}

/// Law: what is read as the client's own message is a frame that it may say, byte for byte: with the hardware address
/// of its interface, the DUID of its host, the option for a Reply at once where that is configured, and, but where
/// items are given back or declined, the configured IAs in their order, those of a SOLICIT with the prefix that is
/// wished for (RFC 8415, sections 18.2 and 21.14).
pub fn own_dhcp6_messages_alone_are_read()
    ensures { OwnFrames6Alone }
{}
