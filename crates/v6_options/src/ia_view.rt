//! The walk over the IAs of a message and over the addresses or prefixes of one, which copies nothing.

ghost use Rattle.std.specs.Prelude.{◌≡◌, ◌+◌, ◌≤◌, ◌∷◌, [], length, true, IfOk, MatchOption};
ghost use Rattle.std.specs.Option.{option_map};
ghost use Rattle.std.specs.Iterator.{YieldsFirst, YieldsFirstBy, item_count};
ghost use Rattle.v6_options.specs.OptionArea.{has_form};
ghost use Rattle.v6_options.specs.OptionWalk.{instance_of};
ghost use Rattle.v6_options.specs.declared.ia.IaKind.TheVariants.{Na, Pd};
ghost use Rattle.v6_options.specs.Statuses.{status_in};
ghost use Rattle.v6_options.specs.Ias.{address_in, ia_by, ia_in, ias_in, ip6_in, item_by, items_in, number_in, prefix_in};
ghost use Rattle.v6_options.specs.IaViews.{ia_content, ia_shown, ias_left, items_left};

use crate::area::PREFIX_LEN;
use crate::code;
use crate::ia::{IaKind, IaSaid, ItemSaid};
use crate::layout::{ADDRESS_BITS, ADDRESS_FIELDS_LEN, IA_FIELDS_LEN, PREFIX_FIELDS_LEN};
use crate::options::{OptionView, split_option};
use crate::status::{Status, status_of};
use byteorder::{BigEndian, ByteOrder};
use net_types::{Ip6, Net6, NoMemory};
use std::alloc::{AllocError, Global};

/// An IA and the options that it holds.
#[derive(Clone, Copy)]
pub struct IaView<'a> {
    pub kind: IaKind,
    pub iaid: u32,
    pub t1: u32,
    pub t2: u32,
    pub options: &'a [u8],
}

/// The IAs that are left of a walk over options.
#[derive(Clone, Copy)]
pub struct IaViews<'a> {
    rest: &'a [u8],
}

/// The addresses or prefixes that are left of a walk over an IA.
#[derive(Clone, Copy)]
pub struct Items<'a> {
    kind: IaKind,
    rest: &'a [u8],
}

/// The four bytes at `at` as a number.
pub(crate) fn number_at(bytes: &[u8], at: usize) -> u32
    requires { at + 4 ≤ length bytes.now }
    ensures { result ≡ number_in at bytes.now }
{
    BigEndian::read_u32(&bytes[at..])
}

/// The sixteen bytes at `at` as an address.
pub(crate) fn ip6_at(bytes: &[u8], at: usize) -> Ip6
    requires { at + 16 ≤ length bytes.now }
    ensures { result ≡ ip6_in at bytes.now }
{
    Ip6 {
        number: BigEndian::read_u128(&bytes[at..]),
    }
}

fn address_at(value: &[u8]) -> ItemSaid
    requires { 24 ≤ length value.now }
    ensures { result ≡ address_in value.now }
{
    ItemSaid {
        net: Net6 {
            ip: ip6_at(value, 0),
            len: ADDRESS_BITS,
        },
        preferred: number_at(value, 16),
        valid: number_at(value, 20),
    }
}

fn prefix_at(value: &[u8]) -> ItemSaid
    requires { 25 ≤ length value.now }
    ensures { result ≡ prefix_in value.now }
{
    ItemSaid {
        net: Net6 {
            ip: ip6_at(value, 9),
            len: value[PREFIX_LEN],
        },
        preferred: number_at(value, 0),
        valid: number_at(value, 4),
    }
}

/// The address of an IA_NA that an option is, unless it has a status of its own other than success.
fn address_of(option: OptionView<'_>) -> Option<ItemSaid>
    requires { has_form option.code option.value.now ≡ true }
    ensures { result ≡ item_by Na (instance_of option.entry) }
{
    if option.code != code::IA_ADDRESS {
        return None;
    }
    let (_, options) = option.value.split_at(ADDRESS_FIELDS_LEN);
    if status_of(options).is_success() {
        return Some(address_at(option.value));
    }
    None
}

/// The prefix of an IA_PD that an option is, unless it has a status of its own other than success.
fn prefix_of(option: OptionView<'_>) -> Option<ItemSaid>
    requires { has_form option.code option.value.now ≡ true }
    ensures { result ≡ item_by Pd (instance_of option.entry) }
{
    if option.code != code::IA_PREFIX {
        return None;
    }
    let (_, options) = option.value.split_at(PREFIX_FIELDS_LEN);
    if status_of(options).is_success() {
        return Some(prefix_at(option.value));
    }
    None
}

fn item_of(kind: IaKind, option: OptionView<'_>) -> Option<ItemSaid>
    requires { has_form option.code option.value.now ≡ true }
    ensures { result ≡ item_by kind (instance_of option.entry) }
{
    match kind {
        IaKind::Na => address_of(option),
        IaKind::Pd => prefix_of(option),
    }
}

/// The first address or prefix among the options of an IA, and the options after it.
fn split_item(kind: IaKind, options: &[u8]) -> Option<(ItemSaid, &[u8])>
    ensures { MatchOption result (items_in kind options.now ≡ [])
        (λ x. items_in kind options.now ≡ x.0 ∷ items_in kind x.1.now) }
{
    let mut rest = options;
    'options: while let Some((option, others)) = split_option(rest) {
        if let Some(item) = item_of(kind, option) {
            return Some((item, others));
        }
        rest = others;
    }
    None
}

/// The IA of this kind whose option has this value.
fn ia_at(kind: IaKind, value: &[u8]) -> IaView<'_>
    requires { 12 ≤ length value.now }
    ensures { ia_shown result ≡ ia_in kind value.now }
{
    let (_, options) = value.split_at(IA_FIELDS_LEN);
    IaView {
        kind,
        iaid: number_at(value, 0),
        t1: number_at(value, 4),
        t2: number_at(value, 8),
        options,
    }
}

/// The IA that an option is.
fn ia_of(option: OptionView<'_>) -> Option<IaView<'_>>
    requires { has_form option.code option.value.now ≡ true }
    ensures { option_map ia_shown result ≡ ia_by (instance_of option.entry) }
{
    match option.code {
        code::IA_NA => Some(ia_at(IaKind::Na, option.value)),
        code::IA_PD => Some(ia_at(IaKind::Pd, option.value)),
        _ => None,
    }
}

/// The first IA among options, and the options after it.
fn split_ia(options: &[u8]) -> Option<(IaView<'_>, &[u8])>
    ensures { MatchOption result (ias_in options.now ≡ []) (λ x. ias_in options.now ≡ ia_shown x.0 ∷ ias_in x.1.now) }
{
    let mut rest = options;
    'options: while let Some((option, others)) = split_option(rest) {
        if let Some(ia) = ia_of(option) {
            return Some((ia, others));
        }
        rest = others;
    }
    None
}

/// The IAs among the options of a message, in their order. The walk copies nothing.
pub fn ia_views(options: &[u8]) -> IaViews<'_>
    ensures { ias_left result ≡ ias_in options.now }
{
    IaViews { rest: options }
}

impl<'a> Iterator for IaViews<'a> {
    type Item = IaView<'a>;

    ghost next_gives = { YieldsFirstBy ia_shown ias_left };

    ghost remaining = { item_count ias_left };

    fn next(&mut self) -> Option<IaView<'a>> {
        let (ia, rest) = split_ia(self.rest)?;
        self.rest = rest;
        Some(ia)
    }
}

impl<'a> Iterator for Items<'a> {
    type Item = ItemSaid;

    ghost next_gives = { YieldsFirst items_left };

    ghost remaining = { item_count items_left };

    fn next(&mut self) -> Option<ItemSaid> {
        let (item, rest) = split_item(self.kind, self.rest)?;
        self.rest = rest;
        Some(item)
    }
}

impl<'a> IaView<'a> {
    /// The IA's own status.
    pub fn status(&self) -> Status
        ensures { result.number ≡ status_in self.now.options.now }
    {
        status_of(self.options)
    }

    /// The addresses or prefixes of the IA, in their order, without those whose own status isn't success.
    pub fn items(&self) -> Items<'a>
        ensures { items_left result ≡ items_in self.now.kind self.now.options.now }
    {
        Items {
            kind: self.kind,
            rest: self.options,
        }
    }

    /// The IA with its addresses or prefixes, to be kept.
    pub fn to_said(&self, alloc: Global) -> Result<IaSaid, NoMemory>
        ensures { IfOk result (λ ia. ia_content ia ≡ ia_shown self.now) }
    {
        match collected(alloc, self.items()) {
            Ok(items) => Ok(IaSaid {
                kind: self.kind,
                iaid: self.iaid,
                t1: self.t1,
                t2: self.t2,
                status: self.status(),
                items,
            }),
            Err(_) => Err(NoMemory),
        }
    }
}

fn collected(alloc: Global, items: Items<'_>) -> Result<Vec<ItemSaid>, AllocError>
    ensures { IfOk result (λ all. all.items ≡ items_left items.entry) }
{
    items.collect(alloc)
}
