//! What is true of labs. These functions do nothing: their contracts are the laws.

ghost use Rattle.lab_laws.specs.Binding.{NoTwoAreGranted, StaysBoundInLab};
ghost use Rattle.lab_laws.specs.HeldInLabs.{LeasesEndWithBindings, NoAddressTwice, UnlikeIsRead};
ghost use Rattle.lab_laws.specs.HeardReplies.{AcksAreReplies, AcksComeInFrames, FramesAreOctets};
ghost use Rattle.lab_laws.specs.Lives.{ClientsLiveApart};
ghost use Rattle.lab_laws.specs.Messages.{MessagesFollow};
ghost use Rattle.lab_laws.specs.Numbers.{RequestsAreFirst};
ghost use Rattle.lab_laws.specs.Reading.{EachMessageIsRead, NumbersAreUnlike};

/// Law: with the number of its last message a client says a DISCOVER after DISCOVERs alone, and a REQUEST after a
/// DISCOVER or a REQUEST (RFC 2131, section 4.4).
pub fn messages_follow()
    ensures { MessagesFollow }
{}

/// Law: where no transaction number comes again, a REQUEST that goes on with no other is the first one with its number.
pub fn requests_are_first()
    ensures { RequestsAreFirst }
{}

/// Law: what the peer has bound to a client stays so, whatever lines come, until it is over on the lab's clock.
pub fn what_is_bound_lasts()
    ensures { StaysBoundInLab }
{}

/// Law: of two leases of one address that the peer granted and that aren't over, both are of one client.
pub fn no_two_are_granted()
    ensures { NoTwoAreGranted }
{}

/// Law: after any lines each client of a lab stands where its own opening and the turns of those lines bring it:
/// clients know of each other by frames alone.
pub fn clients_live_apart()
    ensures { ClientsLiveApart }
{}

/// Law: the peer reads each message of DHCPv4 that a client says, and no other frame of it.
pub fn each_message_is_read()
    ensures { EachMessageIsRead }
{}

/// Law: where no transaction number comes again in the frames of a lab, those of each client are unlike.
pub fn numbers_are_unlike()
    ensures { NumbersAreUnlike }
{}

/// Law: an ACK that a client takes comes in a frame on its own interface, and is the reply of which the peer made
/// that frame: to its hardware address, with the number of its exchange, and with that reply's address and time.
pub fn acks_are_heard()
    ensures acks { AcksAreReplies }
    ensures frames { AcksComeInFrames }
    ensures octets { FramesAreOctets }
{}

/// Law: where the text of a lab ends with `xids unlike`, no two clients hold one leased address at one moment: the
/// `lease` lines below each `at` line have unlike addresses (RFC 2131, section 2.2).
pub fn no_address_is_held_twice()
    ensures { NoAddressTwice }
{}

/// Law: and whenever the clients had a turn, or began, no lease that one of them holds outlasts the peer's binding of
/// its address to that client (RFC 2131, section 4.3.1).
pub fn leases_end_with_their_bindings()
    ensures { LeasesEndWithBindings }
{}

/// Law: where the bytes of the text of a lab end with the line `xids unlike`, that is its last line.
pub fn last_line_is_read()
    ensures { UnlikeIsRead }
{}
