//! The law that a client reads what a DHCPv6 server said.

ghost use Rattle.std.specs.Prelude.{◌≡◌, ◌∷◌, List, map, Some};
ghost use Rattle.net_types.specs.declared.address.Ip6.{Ip6};
ghost use Rattle.v6_options.specs.Ias.{ias_in};
ghost use Rattle.v6_options.specs.Readers.{dns6_in};
ghost use Rattle.v6_message.specs.Replies.{message6_in, options_area};
ghost use Rattle.server_data6.specs.Spoken.{Reply6};
ghost use Rattle.server_data6.specs.ReplyTexts.{servers_text, reply6_text};
ghost use Rattle.server_data6.specs.ReadBack.{FitsReply6, FitServers, reply6_content, ia_given};

/// The bytes of an Advertise or a Reply are read as that message: its fields, the IAs that it gives with T1, T2 and the
/// lifetimes of each item, and its DNS servers.
pub fn replies6_are_read_back()
    ensures message { (reply : Reply6) → FitsReply6 reply
        → message6_in (reply6_text reply) ≡ Some (reply6_content reply) }
    ensures ias { (reply : Reply6) → FitsReply6 reply
        → ias_in (options_area (reply6_text reply)) ≡ map ia_given reply.ias }
    ensures servers { (first : Ip6) (others : List Ip6) → FitServers (first ∷ others)
        → dns6_in (servers_text (first ∷ others)) ≡ Some (first ∷ others) }
{}
