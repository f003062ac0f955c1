//! Identity associations, and shares of the prefixes that they delegate (RFC 8415, section 6.3).
ghost use Rattle.std.specs.Prelude.{◌≡◌, ◌++◌, [], ◌∷◌, Some, option_map, map, flat_map, filter_map, IfOk, OnOk};
ghost use Rattle.std.specs.List.Sorted.{IsNonDecreasingBy};
ghost use Rattle.prefix_share.specs.Rules.{is_plan};
ghost use Rattle.conf_directives.specs.Contents.{ia_content, said_content};
ghost use Rattle.conf_directives.specs.Shares.{addresses, are_planned, asked_by, fourth_part, hint_at, ia, id_at, left_over, len_at, planned, prefix_by, prefixes, share, share_by, share_of, share_with};
ghost use Rattle.conf_values.specs.Words.{slash_parts};

use crate::values::{Directive, IaLine, LineSaid, ShareLine};
use conf_values::{Word, all_of, slash_parts};
use net_types::{NoMemory, ip6_of, name_of, number_of, split_at_byte, u8_of};
use prefix_share::{Share, plan};
use std::alloc::{AllocError, Global};
use v6_options::IaKind;

/// The length of a subnet's prefix where none is written.
pub const USUAL_LEN: u8 = 64;
/// One more than the longest prefix that is asked for, or given.
pub const LEN_LIMIT: u64 = 128;
/// The shortest prefix that is asked for.
pub const LEAST_HINT: u8 = 8;

/// One more than the largest number of 32 bits.
const ID_LIMIT: u64 = 1 << 32;

/// What a line of prefixes asks for.
#[derive(Clone, Copy)]
pub(crate) struct Asked {
    iaid: u32,
    /// The length of the prefix in bits, or 0.
    hint: u8,
}

fn id_at(text: &[u8]) -> Option<u32>
    ensures { result ≡ id_at text.now }
{
    match number_of(text, ID_LIMIT) {
        Some(id) => Some(id as u32),
        None => None,
    }
}

fn len_at(text: &[u8]) -> Option<u8>
    ensures { result ≡ len_at text.now }
{
    let len = u8_of(text, LEN_LIMIT)?;
    if 1 <= len { Some(len) } else { None }
}

fn share_of(name: &[u8], sla: Option<u32>, len: u8) -> Option<ShareLine>
    ensures { result ≡ share_of name.now sla len }
{
    let name = name_of(name)?;
    Some(ShareLine { name, sla, len })
}

fn share_with(name: &[u8], sla: &[u8], len: &[u8]) -> Option<ShareLine>
    ensures { result ≡ share_with name.now sla.now len.now }
{
    let sla = id_at(sla)?;
    let len = len_at(len)?;
    share_of(name, Some(sla), len)
}

fn share_by(parts: &[&[u8]]) -> Option<ShareLine>
    ensures { result ≡ share_by (map (λ part. part.now) parts.now) }
{
    match parts {
        [name] => share_of(name, None, USUAL_LEN),
        [name, sla] => share_of(name, Some(id_at(sla)?), USUAL_LEN),
        [name, sla, len] => share_with(name, sla, len),
        [name, sla, len, _] => share_with(name, sla, len),
        _ => None,
    }
}

impl Word for ShareLine {
    ghost use Rattle.conf_directives.specs.Shares.{share};

    ghost spelled = { share };

    fn of_word(alloc: Global, word: &[u8]) -> Result<Option<ShareLine>, NoMemory> {
        let parts = slash_parts(alloc, word)?;
        Ok(share_by(&parts))
    }
}

/// What stands after the third slash.
fn fourth_part(word: &[u8]) -> Option<&[u8]>
    ensures { option_map (λ part. part.now) result ≡ fourth_part word.now }
{
    let (_name, rest) = split_at_byte(word, b'/')?;
    let (_sla, rest) = split_at_byte(rest, b'/')?;
    let (_len, rest) = split_at_byte(rest, b'/')?;
    Some(rest)
}

fn add_left_over<'a>(parts: &mut Vec<&'a [u8]>, word: &'a [u8]) -> Result<(), AllocError>
    ensures { OnOk result
        (map (λ part. part.now) parts.new.items ≡ map (λ part. part.now) parts.old.items ++ left_over word.now) }
{
    if let Some(part) = fourth_part(word) {
        parts.push(part)?;
    }
    Ok(())
}

/// The parts of shares that aren't taken.
fn left_over<'a>(alloc: Global, words: &[&'a [u8]]) -> Result<Vec<&'a [u8]>, AllocError>
    ensures { IfOk result
        (λ parts. map (λ part. part.now) parts.items ≡ flat_map left_over (map (λ word. word.now) words.now)) }
{
    let mut parts = Vec::new(alloc);
    for word in words {
        add_left_over(&mut parts, word)?;
    }
    Ok(parts)
}

fn hint_at(prefix: &[u8], len: &[u8]) -> Option<u8>
    ensures { result ≡ hint_at prefix.now len.now }
{
    let _prefix = ip6_of(prefix)?;
    let hint = u8_of(len, LEN_LIMIT)?;
    if LEAST_HINT <= hint { Some(hint) } else { None }
}

fn asked_by(parts: &[&[u8]]) -> Option<Asked>
    ensures { result ≡ asked_by (map (λ part. part.now) parts.now) }
{
    match parts {
        [iaid] => {
            let iaid = id_at(iaid)?;
            Some(Asked { iaid, hint: 0 })
        }
        [iaid, prefix, len] => {
            let iaid = id_at(iaid)?;
            let hint = hint_at(prefix, len)?;
            Some(Asked { iaid, hint })
        }
        _ => None,
    }
}

fn asked_of(alloc: Global, text: &[u8]) -> Result<Option<Asked>, NoMemory>
    ensures { IfOk result (λ asked. asked ≡ asked_by (slash_parts text.now)) }
{
    let parts = slash_parts(alloc, text)?;
    Ok(asked_by(&parts))
}

/// The share as the rules judge it, where its SLA id is written.
fn planned(hint: u8, line: ShareLine) -> Option<Share>
    ensures { result ≡ planned hint line }
{
    let sla = line.sla?;
    Some(Share {
        name: line.name,
        sla,
        len: line.len,
        hint,
    })
}

fn is_plan(shares: &[Share]) -> bool
    ensures { result ≡ is_plan shares.now }
{
    plan(shares).is_ok()
}

fn fit(one: Share, other: Share) -> bool
    ensures { result ≡ is_plan (one ∷ other ∷ []) }
{
    is_plan(&[one, other])
}

/// Whether shares that stand in the order of their SLA ids obey the rules: of these only neighbours can have the same
/// one.
fn neighbours_fit(shares: &[Share]) -> bool
    requires { IsNonDecreasingBy (λ share. share.sla) shares.now }
    ensures { result ≡ is_plan shares.now }
{
    if shares.len() < 2 {
        return is_plan(shares);
    }
    for place in 1..shares.len() {
        if !fit(shares[place - 1], shares[place]) {
            return false;
        }
    }
    true
}

/// The shares in the order of their SLA ids.
fn in_order(mut shares: Vec<Share>) -> Vec<Share>
    ensures same { is_plan shares.items ≡ is_plan result.items }
    ensures rising { IsNonDecreasingBy (λ share. share.sla) result.items }
{
    shares.sort_unstable_by_key(|share| share.sla);
    shares
}

fn all_planned(alloc: Global, hint: u8, shares: &[ShareLine]) -> Result<Vec<Share>, AllocError>
    ensures { IfOk result (λ all. all.items ≡ filter_map (planned hint) shares.now) }
{
    shares
        .iter()
        .filter_map(|share| planned(hint, *share))
        .collect(alloc)
}

fn are_planned(alloc: Global, hint: u8, shares: &[ShareLine]) -> Result<bool, AllocError>
    ensures { IfOk result (λ are. are ≡ are_planned hint shares.now) }
{
    let planned = in_order(all_planned(alloc, hint, shares)?);
    Ok(neighbours_fit(&planned))
}

fn without_shares(alloc: Global, kind: IaKind, iaid: Option<u32>) -> IaLine
    ensures { ia_content result ≡ ia kind iaid 0 [] }
{
    IaLine {
        kind,
        iaid,
        hint: 0,
        shares: Vec::new(alloc),
    }
}

/// The association that a line of addresses asks for.
pub(crate) fn addresses(alloc: Global, arguments: &[&[u8]]) -> Option<IaLine>
    ensures { option_map ia_content result ≡ addresses (map (λ text. text.now) arguments.now) }
{
    match arguments {
        [] => Some(without_shares(alloc, IaKind::Na, None)),
        [iaid] => Some(without_shares(alloc, IaKind::Na, Some(id_at(iaid)?))),
        _ => None,
    }
}

fn usual_prefix<'a>(alloc: Global) -> LineSaid<'a>
    ensures { Some (said_content result) ≡ prefixes [] }
{
    LineSaid::taken(
        alloc,
        Directive::Ia(without_shares(alloc, IaKind::Pd, None)),
    )
}

fn prefix_by<'a>(
    alloc: Global,
    words: &[&'a [u8]],
    asked: Asked,
    shares: Vec<ShareLine>,
) -> Result<Option<LineSaid<'a>>, NoMemory>
    ensures { IfOk result
        (λ said. option_map said_content said ≡ prefix_by (map (λ word. word.now) words.now) asked shares.items) }
{
    if !are_planned(alloc, asked.hint, &shares)? {
        return Ok(None);
    }
    Ok(Some(LineSaid {
        directive: Some(Directive::Ia(IaLine {
            kind: IaKind::Pd,
            iaid: Some(asked.iaid),
            hint: asked.hint,
            shares,
        })),
        notices: left_over(alloc, words)?,
    }))
}

/// What a line of prefixes says.
pub(crate) fn prefixes<'a>(
    alloc: Global,
    arguments: &[&'a [u8]],
) -> Result<Option<LineSaid<'a>>, NoMemory>
    ensures { IfOk result (λ said. option_map said_content said ≡ prefixes (map (λ text. text.now) arguments.now)) }
{
    let Some((text, words)) = arguments.split_first() else {
        return Ok(Some(usual_prefix(alloc)));
    };
    let Some(asked) = asked_of(alloc, text)? else {
        return Ok(None);
    };
    let Some(shares) = all_of(alloc, words)? else {
        return Ok(None);
    };
    prefix_by(alloc, words, asked, shares)
}
