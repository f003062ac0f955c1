//! What is true of the frames that are read as a client's, and of what is bound. These functions do nothing: their
//! contracts are the laws.

ghost use Rattle.lab_peer.specs.Granting.{AcksBind, AnswersItsClient, KeepsItsPool, StaysBound};
ghost use Rattle.lab_peer.specs.Laws.{ClientsAloneAreRead, EachClientIsRead};

/// Law: each frame that some client may say is read as its message.
pub fn client_frames_are_read()
    ensures { EachClientIsRead }
{}

/// Law: and no other frame is.
pub fn client_frames_alone()
    ensures { ClientsAloneAreRead }
{}

/// Law: what is bound to a client stays so, whatever the server hears, until it is over.
pub fn bindings_last()
    ensures lasts { StaysBound }
    ensures pool { KeepsItsPool }
{}

/// Law: an answer goes to the client that was heard, with its transaction number; and an ACK answers a REQUEST, and
/// binds its address to the client for the time of the lease at least.
pub fn acks_bind()
    ensures answers { AnswersItsClient }
    ensures binds { AcksBind }
{}
