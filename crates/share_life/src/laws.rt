//! The law that in one written life a delegated prefix gives another interface its address:
//! it is wanted, the host holds it, and it has its basis.

ghost use Rattle.std.specs.Prelude.{◌≡◌, true};
ghost use Rattle.world.specs.RowOrder.{has_row};
ghost use Rattle.world.specs.declared.rows.HostRow.TheVariants.{Addr};
ghost use Rattle.client_model.specs.Clients.{rows_of};
ghost use Rattle.turn_model.specs.HostInLife.{life_run};
ghost use Rattle.turn_model.specs.Lives.{IsOpening, life_after};
ghost use Rattle.evidence_words.specs.Entries.{shown_of};
ghost use Rattle.evidence_words.specs.IfaceLives.{shown};
ghost use Rattle.evidence.specs.Lease6Evidence.FourMessages.{downstream, opening, three_turns};
ghost use Rattle.evidence.specs.Laws.{AreMade, HasShareBasis};
ghost use Rattle.share_life.specs.ShareLife.{coming, devices, managed, opens, shared, specs, turns};

/// Law: a life of two interfaces, in which SOLICIT, an Advertise, REQUEST and a Reply delegate a prefix to the first.
/// Then the client wants on the second the address that its share of the prefix gives, the host has it, and it has its
/// basis (RFC 8415, section 18.2.10.1).
pub fn four_messages_give_a_share()
    ensures opened { IsOpening managed specs opens }
    ensures made { AreMade managed opens.life turns }
    ensures shown { shown_of opens turns ≡ shown opening three_turns }
    ensures wanted { has_row (rows_of (life_after opens.life turns).client) (Addr downstream shared) ≡ true }
    ensures held { has_row (life_run managed specs devices coming).world.host.told.rows (Addr downstream shared)
        ≡ true }
    ensures basis { HasShareBasis managed specs opens turns downstream shared }
{}
