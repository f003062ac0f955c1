//! The form that the value of an option must have.

ghost use Rattle.std.specs.Prelude.{◌≡◌};
ghost use Rattle.v4_options.specs.ValueForms.{has_form, is_well_formed};

use crate::numbers::{addr_of, u16_of, u32_of};
use crate::routes::are_routes;
use crate::table::form_of;
use domain_names::{is_search, is_text};

/// The form of an option's value.
#[derive(Clone, Copy, PartialEq, Eq)]
pub enum ValueForm {
    /// One address.
    Address,
    /// One address or more.
    Addresses,
    /// A number of two bytes.
    Number16,
    /// A number of four bytes.
    Number32,
    /// A domain name as a text.
    DomainName,
    /// Domain names, compressed (RFC 3397).
    DomainNames,
    /// Classless routes (RFC 3442).
    Routes,
    /// Any bytes.
    Opaque,
}

/// Whether a value has the form.
fn has_form(form: ValueForm, value: &[u8]) -> bool
    ensures { result ≡ has_form form value.now }
{
    match form {
        ValueForm::Address => addr_of(value).is_some(),
        ValueForm::Addresses => !value.is_empty() && value.len() % 4 == 0,
        ValueForm::Number16 => u16_of(value).is_some(),
        ValueForm::Number32 => u32_of(value).is_some(),
        ValueForm::DomainName => is_text(value),
        ValueForm::DomainNames => is_search(value),
        ValueForm::Routes => are_routes(value),
        ValueForm::Opaque => true,
    }
}

/// Whether a value has the form of its code. It takes no memory.
pub fn is_well_formed(code: u8, value: &[u8]) -> bool
    ensures { result ≡ is_well_formed code value.now }
{
    has_form(form_of(code), value)
}
