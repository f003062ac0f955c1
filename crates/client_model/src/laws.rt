//! Laws: interfaces run apart, on their own inputs alone; what a client asks fits its messages; wanted rows are in
//! order, and of like routes one is kept; kept texts tell their leases; rows change only where something is new.

ghost use Rattle.std.specs.Prelude.{ℕ, List, map};
ghost use Rattle.net_types.specs.declared.address.Mac.{Mac};
ghost use Rattle.v4_client.specs.LeaseText.Leases.{LeaseContent};
ghost use Rattle.v6_client.specs.Lease6Text.Leases.{Lease6Content};
ghost use Rattle.world.specs.declared.rows.HostRow.{HostRow};
ghost use Rattle.world.specs.RowOrder.{in_row_order};
ghost use Rattle.settings.specs.ManagedRows.{SharesAreManaged};
ghost use Rattle.host_model.specs.HostTable.{InRowOrder, Wantable};
ghost use Rattle.client_model.specs.declared.interfaces.Iface.{Iface};
ghost use Rattle.client_model.specs.IfaceTurns.{Turn};
ghost use Rattle.client_model.specs.Clients.{Client};
ghost use Rattle.client_model.specs.AskedOptions.{AsksRightly};
ghost use Rattle.client_model.specs.Fitting.{AsksFit, HostDuidFits};
ghost use Rattle.client_model.specs.KeptLeases.{IsReading};
ghost use Rattle.client_model.specs.KeptLeases6.{IsReading6};
ghost use Rattle.client_model.specs.WantedRows.{wanted_rows};
ghost use Rattle.client_model.specs.Runs.{RunsApart, IsQuietElsewhere, KeepsInQuiet};
ghost use Rattle.client_model.specs.OwnInputs.{OwnInputsCount};
ghost use Rattle.client_model.specs.KeptRows.{KeptUnlike, DroppedHaveKeeper, AddressesStay};

/// Law: over every list of turns each interface runs as it would alone, and the client's frames are theirs, one
/// interface after another.
pub fn interfaces_run_apart()
    ensures { (client : Client) (turn : Turn) (before : List Turn) → RunsApart client turn before }
{}

/// Law: an input that names one interface changes nothing in another's run.
pub fn other_inputs_are_quiet()
    ensures { IsQuietElsewhere }
{}

/// Law: over every list of turns, an interface and its frames come of what is its own alone: the moments and salts, the
/// inputs that are for it, and which frames of its own failed.
pub fn own_inputs_alone_count()
    ensures { OwnInputsCount }
{}

/// Law: what the client of a managed interface says of itself fits the options of its messages, however much is
/// configured.
pub fn what_is_asked_fits()
    ensures { AsksFit }
{}

/// Law: the DUID of a host with managed interfaces is one (RFC 8415, section 11.1), whatever was read of its file.
pub fn the_hosts_duid_fits()
    ensures { HostDuidFits }
{}

/// Law of the options that a client asks for (RFC 2132, section 9.8): every client's and those configured, each once,
/// none that is refused; and all of these, where they are fewer than 64.
pub fn options_are_asked_for_rightly()
    ensures { (asked refused : List ℕ) → AsksRightly asked refused }
{}

/// Law of the rows that these laws speak of: those that the interfaces want are on them, in row order, each once, where
/// the shares of their prefixes are theirs; and so is every table that was put in row order.
pub fn wanted_rows_can_be_wanted()
    ensures wantable { (ifaces : List Iface) → SharesAreManaged (map (λ iface. iface.managed) ifaces)
        → Wantable (map (λ iface. iface.managed) ifaces) (wanted_rows ifaces) }
    ensures in_order { (rows : List HostRow) → InRowOrder (in_row_order rows) }
{}

/// Law of routes that several interfaces give: of those with one destination, length and metric one is kept, each that
/// isn't has one that is in its place, and no address is dropped.
pub fn kept_rows_are_unlike()
    ensures unlike { KeptUnlike }
    ensures keepers { DroppedHaveKeeper }
    ensures addresses { AddressesStay }
{}

/// Law of the lease that a text spells, by which a kept lease is read: it is the one whose text this is.
pub fn kept_texts_are_leases()
    ensures { (text : List ℕ) (lease : LeaseContent) → IsReading text lease }
{}

/// Law: the DHCPv6 lease of `text` is the one whose text this is.
pub fn kept_texts_are_leases6()
    ensures { (text : List ℕ) (lease : Lease6Content) → IsReading6 text lease }
{}

/// Law: an interface's rows, what it tells the resolver, and the DHCPv6 lease that it keeps change only in turns of
/// which something is new, and the DHCPv4 lease that it keeps only in those or where it says something, and then none
/// is kept any more.
pub fn rows_and_leases_stay_in_quiet_turns()
    ensures { (own : List Mac) (turn : Turn) (iface : Iface) → KeepsInQuiet own turn iface }
{}
