//! What lines say, by their first words.
ghost use Rattle.std.specs.Prelude.{◌≡◌, Some, option_map, map, IfOk};
ghost use Rattle.conf_directives.specs.Contents.{said_content, taken};
ghost use Rattle.conf_directives.specs.Says.{ByArguments, IsOfInterface, IsStatic, Says, SaysNamed, host_said, ia_said, value_said};
ghost use Rattle.conf_directives.specs.Codes.{codes_said};
ghost use Rattle.conf_directives.specs.Contents as contents;
ghost use Rattle.conf_values.specs.Texts.{domain_name};

use crate::names::{CodeList, DirectiveName, ValueName, directive_named};
use crate::option_words::codes_said;
use crate::shares::{addresses, prefixes};
use crate::statics::static_said;
use crate::valued::value_said;
use crate::values::{Directive, Identifier, LineSaid};
use conf_values::{argument_texts, domain_name, only};
use conf_words::{Line, whole_argument};
use net_types::{Name, NoMemory, name_of};
use std::alloc::Global;
use v6_options::IaKind;

/// The interface that a block is of, by what follows `interface`. None where that isn't one name.
pub fn interface_said(alloc: Global, about: &[u8]) -> Result<Option<Name>, NoMemory>
    ensures { IfOk result (λ name. IsOfInterface about.now name) }
{
    let arguments = argument_texts(alloc, about)?;
    let Some(name) = only(&arguments) else {
        return Ok(None);
    };
    Ok(name_of(name))
}

fn host_said<'a>(
    alloc: Global,
    word: &'a [u8],
    arguments: &[&[u8]],
) -> Result<Option<LineSaid<'a>>, NoMemory>
    ensures { IfOk result
        (λ said. option_map said_content said ≡ host_said word.now (map (λ text. text.now) arguments.now)) }
{
    match arguments {
        [] => Ok(Some(LineSaid::noticed(alloc, word)?)),
        [name] => host_named(alloc, name),
        _ => Ok(None),
    }
}

fn host_named<'a>(alloc: Global, name: &[u8]) -> Result<Option<LineSaid<'a>>, NoMemory>
    ensures { IfOk result
        (λ said. option_map said_content said
        ≡ option_map (λ name. taken (contents.HostName name)) (domain_name name.now)) }
{
    match domain_name(name) {
        Some(name) => {
            let directive = Directive::HostName(name.to_vec(alloc)?);
            Ok(Some(LineSaid::taken(alloc, directive)))
        }
        None => Ok(None),
    }
}

fn ia_said<'a>(
    alloc: Global,
    kind: IaKind,
    arguments: &[&'a [u8]],
) -> Result<Option<LineSaid<'a>>, NoMemory>
    ensures { IfOk result (λ said. option_map said_content said ≡ ia_said kind (map (λ text. text.now) arguments.now)) }
{
    match kind {
        IaKind::Na => match addresses(alloc, arguments) {
            Some(ia) => Ok(Some(LineSaid::taken(alloc, Directive::Ia(ia)))),
            None => Ok(None),
        },
        IaKind::Pd => prefixes(alloc, arguments),
    }
}

fn plainly_said<'a>(
    alloc: Global,
    name: ValueName,
    arguments: &[&[u8]],
) -> Result<Option<LineSaid<'a>>, NoMemory>
    ensures { IfOk result
        (λ said. option_map said_content said
        ≡ option_map taken (value_said name (map (λ text. text.now) arguments.now))) }
{
    match value_said(alloc, name, arguments)? {
        Some(directive) => Ok(Some(LineSaid::taken(alloc, directive))),
        None => Ok(None),
    }
}

fn host_line<'a>(alloc: Global, line: Line<'a>) -> Result<Option<LineSaid<'a>>, NoMemory>
    ensures { IfOk result
        (λ said. ByArguments (host_said line.entry.directive.now) line.entry.about.now (option_map said_content said)) }
{
    let arguments = argument_texts(alloc, line.about)?;
    host_said(alloc, line.directive, &arguments)
}

fn codes_line<'a>(
    alloc: Global,
    list: CodeList,
    about: &'a [u8],
) -> Result<Option<LineSaid<'a>>, NoMemory>
    ensures { IfOk result (λ said. ByArguments (codes_said list) about.now (option_map said_content said)) }
{
    let arguments = argument_texts(alloc, about)?;
    codes_said(alloc, list, &arguments)
}

fn ia_line<'a>(
    alloc: Global,
    kind: IaKind,
    about: &'a [u8],
) -> Result<Option<LineSaid<'a>>, NoMemory>
    ensures { IfOk result (λ said. ByArguments (ia_said kind) about.now (option_map said_content said)) }
{
    let arguments = argument_texts(alloc, about)?;
    ia_said(alloc, kind, &arguments)
}

fn value_line<'a>(
    alloc: Global,
    name: ValueName,
    about: &'a [u8],
) -> Result<Option<LineSaid<'a>>, NoMemory>
    ensures { IfOk result
        (λ said. ByArguments (λ arguments. option_map taken (value_said name arguments)) about.now
        (option_map said_content said)) }
{
    let arguments = argument_texts(alloc, about)?;
    plainly_said(alloc, name, &arguments)
}

fn static_line<'a>(alloc: Global, about: &'a [u8]) -> Result<Option<LineSaid<'a>>, NoMemory>
    ensures { IfOk result (λ said. IsStatic about.now (option_map said_content said)) }
{
    match whole_argument(about) {
        Some(argument) => static_said(alloc, argument.text),
        None => Ok(None),
    }
}

fn named_line<'a>(
    alloc: Global,
    name: DirectiveName,
    line: Line<'a>,
) -> Result<Option<LineSaid<'a>>, NoMemory>
    ensures { IfOk result
        (λ said. SaysNamed (Some name) line.entry.directive.now line.entry.about.now (option_map said_content said)) }
{
    match name {
        DirectiveName::Flag(name) => Ok(Some(LineSaid::taken(alloc, Directive::Flag(name)))),
        DirectiveName::Duid => {
            let directive = Directive::Identifier(Identifier::Duid);
            Ok(Some(LineSaid::taken(alloc, directive)))
        }
        DirectiveName::Static => static_line(alloc, line.about),
        DirectiveName::HostName => host_line(alloc, line),
        DirectiveName::Codes(list) => codes_line(alloc, list, line.about),
        DirectiveName::Ia(kind) => ia_line(alloc, kind, line.about),
        DirectiveName::Value(name) => value_line(alloc, name, line.about),
    }
}

/// What a line says that isn't a heading: a directive with its arguments, and the words that are only noticed. None
/// where an argument is missing or out of its form. A line with an unknown directive is a notice of it.
pub fn directive_said<'a>(alloc: Global, line: Line<'a>) -> Result<Option<LineSaid<'a>>, NoMemory>
    ensures { IfOk result (λ said. Says line.entry.directive.now line.entry.about.now (option_map said_content said)) }
{
    match directive_named(line.directive) {
        Some(name) => named_line(alloc, name, line),
        None => Ok(Some(LineSaid::noticed(alloc, line.directive)?)),
    }
}
