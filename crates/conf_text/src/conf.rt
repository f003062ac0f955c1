//! A configuration.
ghost use Rattle.std.specs.Prelude.{◌≡◌, ◌∷◌, ◌++◌, [], map, OnOk};
ghost use Rattle.conf_directives.specs.Contents.{directive_content};
ghost use Rattle.conf_text.specs.Configurations.{configured, notice_of};
ghost use Rattle.conf_scopes.specs.ScopeContents.{scope_content};
ghost use Rattle.conf_text.specs.Contents.{configuration, notice_content};
ghost use Rattle.conf_text.specs.Settings.{turns_hooks_off};
ghost use Rattle.conf_scopes.specs.ScopeSteps.{FitsWords};
ghost use Rattle.conf_text.specs.Steps.{conf_counts, global_with, notices_with};

use crate::answers::line_number;
use crate::blocks::Blocks;
use conf_directives::{Directive, InterfaceList};
use conf_scopes::{Counts, Scope};
use conf_values::Pattern;
use indexmap::IndexMap;
use net_types::NoMemory;
use std::alloc::Global;

/// The path that turns hooks off.
pub(crate) const NO_HOOKS: &str = "/dev/null";

/// A word of a configuration that does nothing.
#[derive(Drop)]
pub struct Notice {
    /// Its line, from 1.
    pub line: u32,
    pub word: String,
}

/// A configuration without a fault.
#[derive(Drop)]
pub struct Conf {
    /// What stands in front of all blocks.
    pub(crate) global: Scope,
    /// One for each interface that has blocks.
    pub(crate) blocks: Blocks,
    /// Words of `allowinterfaces` and `denyinterfaces`.
    pub(crate) allowed: Vec<Pattern>,
    pub(crate) denied: Vec<Pattern>,
    /// The path of the last `script` line.
    pub(crate) script: Option<String>,
    pub(crate) notices: Vec<Notice>,
}

/// The words that do nothing, in the order of their places.
pub fn notices(conf: &Conf) -> &[Notice]
    ensures { map notice_content result.now ≡ (configuration conf.now).notices }
{
    &conf.notices
}

fn add_notice(
    alloc: Global,
    notices: &mut Vec<Notice>,
    line: u32,
    word: &[u8],
) -> Result<(), NoMemory>
    ensures { OnOk result
        (map notice_content notices.new.items ≡ map notice_content notices.old.items ++ notice_of line word.now ∷ []) }
{
    let word = String::from_utf8_lossy(alloc, word)?;
    notices.push(Notice { line, word })?;
    Ok(())
}

fn add_notices(
    alloc: Global,
    notices: &mut Vec<Notice>,
    line: u32,
    words: &[&[u8]],
) -> Result<(), NoMemory>
    ensures { OnOk result
        (map notice_content notices.new.items
        ≡ map notice_content notices.old.items ++ map (notice_of line) (map (λ word. word.now) words.now)) }
{
    for word in words {
        add_notice(alloc, notices, line, word)?;
    }
    Ok(())
}

impl Conf {
    /// The configuration of no lines.
    #[tactic(auto, unfolding(crate::specs::Configurations::configured))]
    pub(crate) fn empty(alloc: Global) -> Conf
        ensures { configuration result ≡ configured [] }
    {
        Conf {
            global: Scope::empty(alloc),
            blocks: IndexMap::new(alloc),
            allowed: Vec::new(alloc),
            denied: Vec::new(alloc),
            script: None,
            notices: Vec::new(alloc),
        }
    }

    /// Whether the last `script` line is `script /dev/null`.
    pub fn turns_hooks_off(&self) -> bool
        ensures { result ≡ turns_hooks_off (configuration self.now) }
    {
        match &self.script {
            Some(path) => path.as_str() == NO_HOOKS,
            None => false,
        }
    }

    /// How much is said in front of all blocks.
    pub(crate) fn counts(&self) -> Counts
        ensures { result ≡ conf_counts (configuration self.now) }
    {
        Counts {
            allowed: self.allowed.len(),
            denied: self.denied.len(),
            ..self.global.counts()
        }
    }

    /// Notices words of a line.
    pub(crate) fn notice(
        &mut self,
        alloc: Global,
        number: usize,
        words: &[&[u8]],
    ) -> Result<(), NoMemory>
        ensures { OnOk result
            (configuration self.new ≡ notices_with number (map (λ word. word.now) words.now) (configuration self.old)) }
    {
        add_notices(alloc, &mut self.notices, line_number(number), words)
    }

    /// Takes what one global line more says.
    #[tactic(auto, unfolding(conf_scopes::specs::ScopeSteps::scope_with))]
    pub(crate) fn say(&mut self, directive: Directive) -> Result<(), NoMemory>
        requires { FitsWords (scope_content self.old.global) (directive_content directive) }
        ensures { OnOk result
            (configuration self.new ≡ global_with (directive_content directive) (configuration self.old)) }
    {
        match directive {
            Directive::Interfaces(InterfaceList::Allowed, patterns) => {
                self.allowed.extend_from_slice(&patterns)?;
            }
            Directive::Interfaces(InterfaceList::Denied, patterns) => {
                self.denied.extend_from_slice(&patterns)?;
            }
            Directive::Script(path) => self.script = Some(path),
            said => self.global.say(said)?,
        }
        Ok(())
    }
}
