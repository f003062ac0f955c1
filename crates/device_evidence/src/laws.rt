//! What devices that tell what they hold, hold in a life. These functions do nothing: their contracts are the laws.

ghost use Rattle.device_evidence.specs.HostHeld.{HostsHold};
ghost use Rattle.device_evidence.specs.FilesHeld.{StoresHold};

/// Law of a life over any host that tells its rows, whatever its calls are answered, and whether or not it is told
/// which of them fail: after the opening, and after each turn, in which no call of the host failed, the host has exactly
/// the wanted rows on managed interfaces, and each address among these has its basis in the turns up to then, where
/// frames are bytes. On all other interfaces it has the rows of the life's beginning, whatever failed.
pub fn a_host_holds_what_is_wanted()
    ensures { HostsHold }
{}

/// Law of a life over any store that tells its files, whatever its calls are answered, and whether or not it is told
/// which of them fail, or what a failed one leaves: after the opening, and after each turn, what is known of a file is
/// so. Where no call that was to change files failed in it, each file is the text of what is kept in it.
pub fn a_store_holds_what_is_kept()
    ensures { StoresHold }
{}
