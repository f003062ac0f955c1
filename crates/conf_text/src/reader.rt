//! A configuration that is read line by line.
ghost use Rattle.std.specs.Prelude.{◌≡◌, option_map, IfErr, None, OnOk, Ok, Some};
ghost use Rattle.std.specs.Option.{option_copied};
ghost use Rattle.conf_directives.specs.Contents.{directive_content};
ghost use Rattle.conf_directives.specs.Names.{heading_at};
ghost use Rattle.conf_words.specs.Directives.{shown_line};
ghost use Rattle.conf_scopes.specs.ScopeContents.{scope_content};
ghost use Rattle.conf_text.specs.Contents.{configuration};
ghost use Rattle.conf_text.specs.Places.{is_named};
ghost use Rattle.conf_text.specs.Standings.{is_global_alone};
ghost use Rattle.conf_text.specs.Steps.{AnswersWith, FitsNow, TakesLine, TakesSaid, begin_reading, block_now, cause_between};
ghost use Rattle.conf_text.specs.Steps.{cause_now, directive_step, enter, first_place, read_so_far, say_now, skip, take_step, with_block};

use crate::answers::{ConfAnswer, ConfCause, fault_at};
use crate::blocks::{begin, place_of, said_at, say_at};
use crate::conf::Conf;
use conf_directives::{
    Directive, DirectiveName, HeadingName, IaLine, LineSaid, ValueName, directive_named,
    directive_said, heading_named, interface_said,
};
use conf_scopes::{Counts, MOST_BLOCKS, Scope, is_repeated, is_too_much};
use conf_words::Line;
use net_types::{Name, NoMemory};
use std::alloc::Global;

/// Where lines stand.
#[derive(Clone, Copy)]
pub enum Spot {
    /// In front of all blocks.
    Global,
    /// In the block of this place among the blocks.
    Block(usize),
    /// In a block that is skipped.
    Skipped,
}

/// What was read so far, and where the next line stands.
#[derive(Drop)]
pub struct Reader {
    pub conf: Conf,
    pub spot: Spot,
}

/// Whether a directive may stand in front of all blocks alone.
fn is_global_alone(name: Option<DirectiveName>) -> bool
    ensures { result ≡ is_global_alone name }
{
    match name {
        Some(DirectiveName::Value(ValueName::Interfaces(_) | ValueName::Script)) => true,
        _ => false,
    }
}

/// What is wrong with what a line says, after what the global lines and those of its block do.
fn cause_of(
    ias: (&[IaLine], &[IaLine]),
    counts: (&Counts, &Counts),
    directive: &Directive,
) -> Option<ConfCause>
    ensures { result
        ≡ cause_between (ias.entry.0.now, ias.entry.1.now) (counts.entry.0.now, counts.entry.1.now) directive.now }
{
    if is_repeated(ias.0, ias.1, directive) {
        Some(ConfCause::Repeated)
    } else if is_too_much(counts.0, counts.1, directive) {
        Some(ConfCause::TooMany)
    } else {
        None
    }
}

impl Reader {
    /// No line was read.
    pub fn new(alloc: Global) -> Reader
        ensures { read_so_far result ≡ begin_reading }
    {
        Reader {
            conf: Conf::empty(alloc),
            spot: Spot::Global,
        }
    }

    /// Begins the first block of an interface.
    fn add_block(&mut self, alloc: Global, name: Name) -> Result<(), NoMemory>
        requires { first_place (λ block. is_named name block.name) (configuration self.old.conf).blocks ≡ None }
        ensures { OnOk result (read_so_far self.new ≡ with_block name (read_so_far self.old)) }
    {
        let place = self.conf.blocks.len();
        begin(alloc, &mut self.conf.blocks, name)?;
        self.spot = Spot::Block(place);
        Ok(())
    }

    /// Lets the block of an interface begin or go on.
    fn enter(&mut self, alloc: Global, number: usize, name: Name) -> Result<(), ConfAnswer>
        ensures ok { OnOk result (enter (read_so_far self.old) name ≡ Ok (read_so_far self.new)) }
        ensures bad { IfErr result
            (λ answer. AnswersWith (λ outcome. enter (read_so_far self.old) name ≡ outcome) number answer) }
    {
        if let Some(place) = place_of(&self.conf.blocks, &name) {
            self.spot = Spot::Block(place);
            return Ok(());
        }
        if self.conf.blocks.len() >= MOST_BLOCKS {
            return Err(ConfAnswer::Bad(fault_at(number, ConfCause::TooMany)));
        }
        self.add_block(alloc, name)?;
        Ok(())
    }

    /// What the block says where lines stand.
    fn block(&self) -> Option<&Scope>
        ensures { option_map scope_content (option_copied result)
            ≡ option_map (λ block. block.scope) (block_now (read_so_far self.now)) }
    {
        match self.spot {
            Spot::Block(place) => said_at(&self.conf.blocks, place),
            Spot::Global | Spot::Skipped => None,
        }
    }

    fn say(&mut self, directive: Directive) -> Result<(), NoMemory>
        requires { FitsNow (read_so_far self.old) (directive_content directive) }
        ensures { OnOk result
            (read_so_far self.new
            ≡ record
            (read_so_far self.old) {
              conf = say_now self.old.spot (directive_content directive)
                  (configuration self.old.conf);
            }) }
    {
        match self.spot {
            Spot::Global => self.conf.say(directive),
            Spot::Block(place) => say_at(&mut self.conf.blocks, place, directive),
            Spot::Skipped => Ok(()),
        }
    }

    /// What is wrong with what a line says after those that were read.
    fn cause_of(&self, directive: &Directive) -> Option<ConfCause>
        ensures { result ≡ cause_now (read_so_far self.now) (directive_content directive.now) }
    {
        let global = self.conf.counts();
        match self.block() {
            Some(block) => {
                let ias = (self.conf.global.ias.as_slice(), block.ias.as_slice());
                cause_of(ias, (&global, &block.counts()), directive)
            }
            None => {
                let none: &[IaLine] = &[];
                let ias = (self.conf.global.ias.as_slice(), none);
                cause_of(ias, (&global, &Counts::none()), directive)
            }
        }
    }

    /// Takes what a line says.
    #[tactic(auto, unfolding(crate::specs::Steps::take_step))]
    fn take(&mut self, number: usize, directive: Directive) -> Result<(), ConfAnswer>
        ensures ok { OnOk result
            (take_step (read_so_far self.old) (directive_content directive) ≡ Ok (read_so_far self.new)) }
        ensures bad { IfErr result
            (λ answer. AnswersWith
            (λ outcome. take_step (read_so_far self.old) (directive_content directive) ≡ outcome) number
            answer) }
    {
        if let Some(cause) = self.cause_of(&directive) {
            return Err(ConfAnswer::Bad(fault_at(number, cause)));
        }
        self.say(directive)?;
        Ok(())
    }

    fn take_any(&mut self, number: usize, directive: Option<Directive>) -> Result<(), ConfAnswer>
        ensures ok { OnOk result
            (directive_step (read_so_far self.old) (option_map directive_content directive)
            ≡ Ok (read_so_far self.new)) }
        ensures bad { IfErr result
            (λ answer. AnswersWith
            (λ outcome. directive_step (read_so_far self.old) (option_map directive_content directive)
            ≡ outcome)
            number answer) }
    {
        match directive {
            Some(directive) => self.take(number, directive),
            None => Ok(()),
        }
    }

    /// Takes a line that isn't skipped, with its notices.
    fn read_said(&mut self, alloc: Global, line: &Line<'_>) -> Result<(), ConfAnswer>
        ensures ok { OnOk result (TakesSaid (read_so_far self.old) (shown_line line.now) (Ok (read_so_far self.new))) }
        ensures bad { IfErr result
            (λ answer. AnswersWith
            (TakesSaid (read_so_far self.old) (shown_line line.now)) line.now.number answer) }
    {
        let Some(said) = directive_said(alloc, *line)? else {
            return Err(ConfAnswer::Bad(fault_at(line.number, ConfCause::BadArgument)));
        };
        let LineSaid { directive, notices } = said;
        self.take_any(line.number, directive)?;
        self.conf.notice(alloc, line.number, &notices)?;
        Ok(())
    }

    /// Takes a line that is no heading.
    fn read_directive(&mut self, alloc: Global, line: &Line<'_>) -> Result<(), ConfAnswer>
        requires { heading_at line.now.directive.now ≡ None }
        ensures ok { OnOk result (TakesLine (read_so_far self.old) (shown_line line.now) (Ok (read_so_far self.new))) }
        ensures bad { IfErr result
            (λ answer. AnswersWith
            (TakesLine (read_so_far self.old) (shown_line line.now)) line.now.number answer) }
    {
        match self.spot {
            Spot::Global => self.read_said(alloc, line),
            Spot::Block(_) => {
                if is_global_alone(directive_named(line.directive)) {
                    self.conf.notice(alloc, line.number, &[line.directive])?;
                    Ok(())
                } else {
                    self.read_said(alloc, line)
                }
            }
            Spot::Skipped => Ok(()),
        }
    }

    /// Lets a block that is skipped begin.
    fn skip(&mut self, alloc: Global, line: &Line<'_>) -> Result<(), NoMemory>
        ensures { OnOk result (read_so_far self.new ≡ skip (read_so_far self.old) (shown_line line.now)) }
    {
        self.conf.notice(alloc, line.number, &[line.directive])?;
        self.spot = Spot::Skipped;
        Ok(())
    }

    fn read_interface(&mut self, alloc: Global, line: &Line<'_>) -> Result<(), ConfAnswer>
        requires { heading_at line.now.directive.now ≡ Some HeadingName.Interface }
        ensures ok { OnOk result (TakesLine (read_so_far self.old) (shown_line line.now) (Ok (read_so_far self.new))) }
        ensures bad { IfErr result
            (λ answer. AnswersWith
            (TakesLine (read_so_far self.old) (shown_line line.now)) line.now.number answer) }
    {
        match interface_said(alloc, line.about)? {
            Some(name) => self.enter(alloc, line.number, name),
            None => Err(ConfAnswer::Bad(fault_at(line.number, ConfCause::BadArgument))),
        }
    }

    /// Takes one line more.
    pub fn read_line(&mut self, alloc: Global, line: &Line<'_>) -> Result<(), ConfAnswer>
        ensures ok { OnOk result (TakesLine (read_so_far self.old) (shown_line line.now) (Ok (read_so_far self.new))) }
        ensures bad { IfErr result
            (λ answer. AnswersWith
            (TakesLine (read_so_far self.old) (shown_line line.now)) line.now.number answer) }
    {
        match heading_named(line.directive) {
            Some(HeadingName::Interface) => self.read_interface(alloc, line),
            Some(HeadingName::Profile) => Ok(self.skip(alloc, line)?),
            Some(HeadingName::Ssid) => Ok(self.skip(alloc, line)?),
            None => self.read_directive(alloc, line),
        }
    }
}
