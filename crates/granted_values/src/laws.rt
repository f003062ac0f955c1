//! The law that a client reads the values that a DHCPv4 server grants.

ghost use Rattle.std.specs.Prelude.{◌≡◌, ◌∷◌, ◌++◌, [], ℕ};
ghost use Rattle.v4_options.specs.declared.code.TheConstants.{END};
ghost use Rattle.v4_options.specs.OptionArea.{instances_in};
ghost use Rattle.v4_message.specs.Requests.{options_text};
ghost use Rattle.v4_client.specs.Granting.{mask_taken, times_of, times_taken};
ghost use Rattle.granted_values.specs.AckValues.{AckValues};
ghost use Rattle.granted_values.specs.ValueTexts.{ack_options};
ghost use Rattle.granted_values.specs.ReadBack.{AreRead, FitsAck};

/// The options of an ACK are found in its area, each value is read as what was granted, and the client takes its mask,
/// T1 and T2 from the options that say them.
pub fn granted_values_are_read_back()
    ensures options { (values : AckValues) → FitsAck values
        → instances_in (options_text (ack_options values) ++ END ∷ []) ≡ ack_options values }
    ensures values { (values : AckValues) → FitsAck values → AreRead (ack_options values) values }
    ensures mask { (values : AckValues) → FitsAck values → mask_taken [] (ack_options values) ≡ values.mask }
    ensures times { (values : AckValues) → FitsAck values → (lease : ℕ)
        → times_taken [] (ack_options values) lease ≡ times_of lease values.t1 values.t2 }
{}
