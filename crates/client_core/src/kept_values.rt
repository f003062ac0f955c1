//! The values that came with a lease.

ghost use Rattle.std.specs.Prelude.{◌≡◌, ◌==◌, find, option_map};
ghost use Rattle.std.specs.Option.{option_copied};
ghost use Rattle.lease_text.specs.Leases.{values_content};
ghost use Rattle.client_model.specs.WantedRows.{value_in};

use lease_text::Value;

/// The value of a code as it is kept.
fn kept_value(values: &[Value], code: u16) -> Option<&Value>
    ensures { option_copied result ≡ find (λ value. value.code == code) values.now }
{
    values.iter().find(|value| value.code == code)
}

/// The bytes of the value of a code.
#[tactic(auto, using(crate::proofs::LeaseValues::value_found))]
pub fn value_in(values: &[Value], code: u16) -> Option<&[u8]>
    ensures { option_map (λ bytes. bytes.now) result ≡ value_in code (values_content values.now) }
{
    let value = kept_value(values, code)?;
    Some(&value.bytes)
}
