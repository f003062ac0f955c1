//! The texts of interface names.
ghost use Rattle.std.specs.Prelude.{◌≡◌, ◌≢◌, ◌≤◌, ◌-◌, ◌++◌, IsTrue, length, replicate, take, IfOk, IfErr};
ghost use Rattle.std.specs.List.{list_all};
ghost use Rattle.net_types.specs.declared.interface.Name.{Name};
ghost use Rattle.net_types.specs.NameText.{is_name, is_name_byte, name_text, name_at, FitsName};

use crate::cutting::FromText;
use crate::fault::BadText;
use crate::interface::Name;

/// The most bytes of a name.
const NAME_LIMIT: usize = 15;

impl Name {
    /// The bytes of the name.
    pub fn as_bytes(&self) -> &[u8]
        ensures { result.now ≡ take self.now.len self.now.bytes }
    {
        let len = usize::from(self.len).min(NAME_LIMIT);
        &self.bytes[..len]
    }
}

fn are_name_bytes(bytes: &[u8]) -> bool
    ensures { result ≡ list_all is_name_byte bytes.now }
{
    bytes.iter().all(|b| b.is_ascii_alphanumeric() || *b == b'.' || *b == b'_' || *b == b'-')
}

#[tactic(auto, unfolding(crate::specs::NameText::is_name))]
fn is_name(bytes: &[u8]) -> bool
    ensures value { result ≡ is_name bytes.now }
    ensures short { IsTrue result → length bytes.now ≤ 15 }
{
    if bytes.is_empty() {
        false
    } else if bytes[0].is_ascii_alphanumeric() {
        bytes.len() <= NAME_LIMIT && are_name_bytes(bytes)
    } else {
        false
    }
}

/// The bytes, and then zeros.
fn padded(bytes: &[u8]) -> [u8; 15]
    requires { length bytes.now ≤ 15 }
    ensures { result ≡ bytes.now ++ replicate (15 - length bytes.now) 0 }
{
    let mut padded = [0; NAME_LIMIT];
    let (front, _) = padded.split_at_mut(bytes.len());
    front.copy_from_slice(bytes);
    padded
}

/// The name that the text spells.
#[tactic(auto, unfolding(crate::specs::NameText::name_at))]
pub fn name_of(bytes: &[u8]) -> Option<Name>
    ensures { result ≡ name_at bytes.now }
{
    if !is_name(bytes) {
        return None;
    }
    Some(Name {
        bytes: padded(bytes),
        len: bytes.len() as u8,
    })
}

/// The interface name that the text spells.
pub fn read_name(text: &str) -> Result<Name, BadText>
    ensures found { IfOk result (λ name. (text.now ≡ name_text name) × FitsName name) }
    ensures bad { IfErr result (λ _. (name : Name) → FitsName name → text.now ≢ name_text name) }
{
    match name_of(text.as_bytes()) {
        Some(name) => Ok(name),
        None => Err(BadText),
    }
}

impl FromText for Name {
    ghost found = { name_at };

    fn from_text(text: &[u8]) -> Option<Name> {
        name_of(text)
    }
}
