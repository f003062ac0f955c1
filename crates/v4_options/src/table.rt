//! The options that are known by name: their table, and what it says of a code and of a name.

ghost use Rattle.std.specs.Prelude.{◌≡◌, bytes_eq};
ghost use Rattle.v4_options.specs.OptionTable.{code_named, form_of, is_kept, option_name};

use crate::code;
use crate::form::ValueForm;

/// An option: its code, the form of its value, and whether a lease keeps the value, which hooks are then told.
#[derive(Clone, Copy)]
pub struct OptionRow {
    pub code: u8,
    pub form: ValueForm,
    pub kept: bool,
}

/// The options that have a name, first those that a lease keeps, in the order in which hooks are told them.
pub const OPTIONS: [OptionRow; 14] = [
    OptionRow {
        code: code::BROADCAST_ADDRESS,
        form: ValueForm::Address,
        kept: true,
    },
    OptionRow {
        code: code::ROUTERS,
        form: ValueForm::Addresses,
        kept: true,
    },
    OptionRow {
        code: code::DOMAIN_NAME_SERVERS,
        form: ValueForm::Addresses,
        kept: true,
    },
    OptionRow {
        code: code::DOMAIN_NAME,
        form: ValueForm::DomainName,
        kept: true,
    },
    OptionRow {
        code: code::DOMAIN_SEARCH,
        form: ValueForm::DomainNames,
        kept: true,
    },
    OptionRow {
        code: code::HOST_NAME,
        form: ValueForm::DomainName,
        kept: true,
    },
    OptionRow {
        code: code::INTERFACE_MTU,
        form: ValueForm::Number16,
        kept: true,
    },
    OptionRow {
        code: code::NTP_SERVERS,
        form: ValueForm::Addresses,
        kept: true,
    },
    OptionRow {
        code: code::CLASSLESS_ROUTES,
        form: ValueForm::Routes,
        kept: true,
    },
    OptionRow {
        code: code::SUBNET_MASK,
        form: ValueForm::Address,
        kept: false,
    },
    OptionRow {
        code: code::LEASE_TIME,
        form: ValueForm::Number32,
        kept: false,
    },
    OptionRow {
        code: code::SERVER_IDENTIFIER,
        form: ValueForm::Address,
        kept: false,
    },
    OptionRow {
        code: code::RENEWAL_TIME,
        form: ValueForm::Number32,
        kept: false,
    },
    OptionRow {
        code: code::REBINDING_TIME,
        form: ValueForm::Number32,
        kept: false,
    },
];

/// The codes of the values that a lease keeps, rising, as it has them.
pub const KEPT_CODES: [u8; 9] = [
    code::ROUTERS,
    code::DOMAIN_NAME_SERVERS,
    code::HOST_NAME,
    code::DOMAIN_NAME,
    code::INTERFACE_MTU,
    code::BROADCAST_ADDRESS,
    code::NTP_SERVERS,
    code::DOMAIN_SEARCH,
    code::CLASSLESS_ROUTES,
];

/// The form of a code's value (RFC 2132, RFC 3397, RFC 3442).
pub fn form_of(code: u8) -> ValueForm
    ensures { result ≡ form_of code }
{
    match OPTIONS.iter().find(|row| row.code == code) {
        Some(row) => row.form,
        None => ValueForm::Opaque,
    }
}

/// Whether a lease keeps the values of a code.
pub fn is_kept(code: u8) -> bool
    ensures { result ≡ is_kept code }
{
    OPTIONS.iter().any(|row| row.code == code && row.kept)
}

/// The name of a code, as in dhcpcd.conf(5) and dhcpcd-run-hooks(8); empty where it has none.
pub fn option_name(code: u8) -> &'static str
    ensures { result.now ≡ option_name code }
{
    match code {
        code::SUBNET_MASK => "subnet_mask",
        code::ROUTERS => "routers",
        code::DOMAIN_NAME_SERVERS => "domain_name_servers",
        code::HOST_NAME => "host_name",
        code::DOMAIN_NAME => "domain_name",
        code::INTERFACE_MTU => "interface_mtu",
        code::BROADCAST_ADDRESS => "broadcast_address",
        code::NTP_SERVERS => "ntp_servers",
        code::LEASE_TIME => "dhcp_lease_time",
        code::SERVER_IDENTIFIER => "dhcp_server_identifier",
        code::RENEWAL_TIME => "dhcp_renewal_time",
        code::REBINDING_TIME => "dhcp_rebinding_time",
        code::DOMAIN_SEARCH => "domain_search",
        code::CLASSLESS_ROUTES => "classless_static_routes",
        _ => "",
    }
}

fn has_name(code: u8, word: &[u8]) -> bool
    ensures { result ≡ bytes_eq (option_name code) word.now }
{
    option_name(code).as_bytes() == word
}

/// The code that a name is for.
#[tactic(auto, unfolding(crate::specs::OptionTable::code_named))]
pub fn code_named(word: &[u8]) -> Option<u8>
    ensures { result ≡ code_named word.now }
{
    match OPTIONS.iter().find(|row| has_name(row.code, word)) {
        Some(row) => Some(row.code),
        None => None,
    }
}
