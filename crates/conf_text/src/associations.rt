//! Which identity associations are asked for on an interface, and what it shares of the prefixes that they bring.
ghost use Rattle.std.specs.Prelude.{◌≡◌, IfOk, OnOk, map};
ghost use Rattle.std.specs.List.{list_any};
ghost use Rattle.conf_directives.specs.Contents.{ia_content};
ghost use Rattle.conf_text.specs.Associations.{associations, ia_with, is_kept, is_same_ia};
ghost use Rattle.conf_text.specs.AssociationSteps.{contents, found_content, found_of, keeps_in, line_in, lines_in, lines_of, shared_in, with_association};

use crate::sharing::shared_by;
use crate::subject::Subject;
use conf_directives::{IaLine, ShareLine};
use conf_scopes::{has_ia, is_same_kind};
use net_types::NoMemory;
use settings::{IaConf, ShareConf};
use std::alloc::Global;

/// What lines of an interface come to.
#[derive(Drop)]
pub struct Found {
    pub ias: Vec<IaConf>,
    pub shares: Vec<ShareConf>,
}

fn ia_with(index: u32, line: &IaLine) -> IaConf
    ensures { result ≡ ia_with index (ia_content line.now) }
{
    IaConf {
        kind: line.kind,
        iaid: line.iaid.unwrap_or(index),
        hint: line.hint,
    }
}

/// Whether a line among the global ones and those of a block is kept: its IAID is written, or the index isn't as that
/// of its kind.
#[tactic(auto, using(conf_scopes::proofs::AnyLaws::any_of_both))]
fn is_kept(index: u32, lines: (&[IaLine], &[IaLine]), line: &IaLine) -> bool
    ensures { result ≡ is_kept index (contents (lines.entry.0.now, lines.entry.1.now)) (ia_content line.now) }
{
    line.iaid.is_some() || !(has_ia(line.kind, index, lines.0) || has_ia(line.kind, index, lines.1))
}

fn is_kept_in(subject: &Subject<'_>, line: &IaLine) -> bool
    ensures { result ≡ keeps_in subject.now (ia_content line.now) }
{
    let lines = (
        subject.conf.global.ias.as_slice(),
        subject.block.ias.as_slice(),
    );
    is_kept(subject.spec.index.number, lines, line)
}

fn is_same_ia(one: &IaConf, other: &IaConf) -> bool
    ensures { result ≡ is_same_ia one.now other.now }
{
    is_same_kind(one.kind, other.kind) && one.iaid == other.iaid
}

fn is_among(ias: &[IaConf], ia: &IaConf) -> bool
    ensures { result ≡ list_any (λ one. is_same_ia one ia.now) ias.now }
{
    ias.iter().any(|one| is_same_ia(one, ia))
}

/// Takes an association with the shares of its line.
fn add_association(
    alloc: Global,
    subject: &Subject<'_>,
    found: &mut Found,
    ia: IaConf,
    shares: &[ShareLine],
) -> Result<(), NoMemory>
    ensures { OnOk result
        (found_content found.new
        ≡ with_association (shared_in subject.now) (record { ia = ia; shares = shares.now })
        (found_content found.old)) }
{
    let shares = shared_by(alloc, subject, ia, shares)?;
    found.ias.push(ia)?;
    found.shares.extend_from_slice(&shares)?;
    Ok(())
}

/// Takes a line, where it is kept and none that is the same was taken.
fn add_line(
    alloc: Global,
    subject: &Subject<'_>,
    found: &mut Found,
    line: &IaLine,
) -> Result<(), NoMemory>
    ensures { OnOk result
        (found_content found.new ≡ line_in subject.now (found_content found.old) (ia_content line.now)) }
{
    let ia = ia_with(subject.spec.index.number, line);
    if !is_kept_in(subject, line) || is_among(&found.ias, &ia) {
        Ok(())
    } else {
        add_association(alloc, subject, found, ia, &line.shares)
    }
}

fn add_lines(
    alloc: Global,
    subject: &Subject<'_>,
    found: &mut Found,
    lines: &[IaLine],
) -> Result<(), NoMemory>
    ensures { OnOk result
        (found_content found.new ≡ lines_in subject.now (found_content found.old) (map ia_content lines.now)) }
{
    for line in lines {
        add_line(alloc, subject, found, line)?;
    }
    Ok(())
}

/// What the global lines and those of its block come to on an interface.
pub fn associations_of(alloc: Global, subject: &Subject<'_>) -> Result<Found, NoMemory>
    ensures { IfOk result
        (λ found. found_content found
        ≡ found_of (shared_in subject.now)
        (associations subject.now.spec.now.index.number (lines_of subject.now))) }
{
    let mut found = Found {
        ias: Vec::new(alloc),
        shares: Vec::new(alloc),
    };
    add_lines(alloc, subject, &mut found, &subject.conf.global.ias)?;
    add_lines(alloc, subject, &mut found, &subject.block.ias)?;
    Ok(found)
}
