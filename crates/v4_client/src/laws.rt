//! What is true of every client. These functions do nothing: their contracts are the laws.

ghost use Rattle.v4_client.specs.Laws.{EndsAtExpiry, HoldsGranted, IgnoresForeign, StandsAlone, StaysSound};
ghost use Rattle.v4_client.specs.InTime.{WakesInTime};
ghost use Rattle.v4_client.specs.Origins.{KeepsOrigins};
ghost use Rattle.v4_client.specs.Probes.{ProbesFirst};

/// Law: a message of another exchange, to another hardware address, or of another server than the chosen one changes
/// nothing (RFC 2131, section 4.4.1).
pub fn ignores_foreign()
    ensures { IgnoresForeign }
{}

/// Law: a lease that is held when its expiry has come isn't held after the next tick, and its end is told (RFC 2131,
/// section 4.4.5).
pub fn ends_at_expiry()
    ensures { EndsAtExpiry }
{}

/// Law: where a client that was off is bound to a lease, an ACK that was acceptable in its own exchange has granted it
/// (RFC 2131, section 4.4).
pub fn holds_granted()
    ensures { HoldsGranted }
{}

/// Law: where a client that was off holds a lease to which it isn't bound, that is the one with which it was made: an
/// ACK of its interface has confirmed it, it is to stay in force, and since then it was neither released nor did the
/// carrier go.
pub fn stands_alone()
    ensures { StandsAlone }
{}

/// Law: where addresses are probed, a client is bound to a lease only after three probes for its address, said since
/// the ACK that granted it and since the last send that failed (RFC 2131, section 4.4.1; RFC 5227, section 2.1.1).
pub fn probes_first()
    ensures { ProbesFirst }
{}

/// Law: the leases of a client stay within the bounds of their texts, and the lease that it holds is the kept one.
pub fn stays_sound()
    ensures { StaysSound }
{}

/// Law: a client asks to be woken at the first moment at which a timed row of its table fits: a message for the first
/// time or again, T1, T2, the end of a lease, a probe or an announcement. From that moment on a tick does something,
/// and before it nothing (RFC 2131, section 4.4).
pub fn wakes_in_time()
    ensures { WakesInTime }
{}

/// Law: a kept lease that was granted since the client was made has the hardware address of its interface and the
/// moment at which that ACK was heard as its origin, and one that was read keeps the origin that it had.
pub fn keeps_origins()
    ensures { KeepsOrigins }
{}
