//! What holds of all labs.
ghost use Rattle.text_works.specs.LabsHeld.{LabsHoldApart};

/// Law: no two clients of a lab whose text ends with `xids unlike` hold one leased address at one moment, and no lease
/// outlasts the server's binding (RFC 2131, section 2.2).
pub fn labs_hold_apart()
    ensures { LabsHoldApart }
{}
