//! What the lines of a scope say together.
ghost use Rattle.std.specs.Prelude.{◌≡◌, ◌+◌, ◌<◌, ◌^◌, [], OnOk};
ghost use Rattle.conf_directives.specs.Contents.{Codes, codes_content, directive_content};
ghost use Rattle.conf_scopes.specs.ScopeContents.{scope_content};
ghost use Rattle.conf_scopes.specs.Scopes.{codes_together, scope_of};
ghost use Rattle.conf_scopes.specs.ScopeSteps.{FitsWords, both_codes, scope_counts, scope_with};

use crate::counting::Counts;
use crate::flags::turn_on;
use crate::statics::Statics;
use crate::times::TimesSaid;
use conf_directives::{CodeList, CodesSaid, Directive, IaLine, Identifier};
use conf_values::Env;
use net_types::{Net4, NoMemory};
use settings::Flags;
use std::alloc::Global;

/// What the lines in front of all blocks say, or those in the blocks of one interface: of single values what the last
/// line says, of lists all of it.
#[derive(Drop)]
pub struct Scope {
    pub flags: Flags,
    pub times: TimesSaid,
    pub metric: Option<u32>,
    pub host: Option<Vec<u8>>,
    pub vendor: Option<Vec<u8>>,
    pub identifier: Option<Identifier>,
    /// `option`, `nooption` and `require`.
    pub asked: CodesSaid,
    pub refused: CodesSaid,
    pub required: CodesSaid,
    pub statics: Statics,
    pub ias: Vec<IaLine>,
    pub env: Vec<Env>,
    pub blacklist: Vec<Net4>,
}

fn no_codes(alloc: Global) -> CodesSaid
    ensures { codes_content result ≡ codes_together [] }
{
    CodesSaid {
        codes: Vec::new(alloc),
        rapid: false,
        words: 0,
    }
}

fn add_codes(codes: &mut CodesSaid, said: &CodesSaid) -> Result<(), NoMemory>
    requires { codes.old.words + said.now.words < 2 ^ 64 }
    ensures { OnOk result (codes_content codes.new ≡ both_codes (codes_content codes.old) (codes_content said.now)) }
{
    codes.codes.extend_from_slice(&said.codes)?;
    codes.rapid |= said.rapid;
    codes.words += said.words;
    Ok(())
}

impl Scope {
    /// Nothing is said.
    pub fn empty(alloc: Global) -> Scope
        ensures { scope_content result ≡ scope_of [] }
    {
        Scope {
            flags: Flags::none(),
            times: TimesSaid::none(),
            metric: None,
            host: None,
            vendor: None,
            identifier: None,
            asked: no_codes(alloc),
            refused: no_codes(alloc),
            required: no_codes(alloc),
            statics: Statics::none(),
            ias: Vec::new(alloc),
            env: Vec::new(alloc),
            blacklist: Vec::new(alloc),
        }
    }

    #[tactic(auto, unfolding(crate::specs::ScopeSteps::scope_with))]
    fn say_codes(&mut self, list: CodeList, said: CodesSaid) -> Result<(), NoMemory>
        requires { FitsWords (scope_content self.old) (Codes list (codes_content said)) }
        ensures { OnOk result
            (scope_content self.new ≡ scope_with (scope_content self.old) (Codes list (codes_content said))) }
    {
        match list {
            CodeList::Asked => add_codes(&mut self.asked, &said),
            CodeList::Refused => add_codes(&mut self.refused, &said),
            CodeList::Required => add_codes(&mut self.required, &said),
        }
    }

    /// Takes what one line more says.
    #[tactic(auto, unfolding(crate::specs::ScopeSteps::scope_with))]
    pub fn say(&mut self, directive: Directive) -> Result<(), NoMemory>
        requires { FitsWords (scope_content self.old) (directive_content directive) }
        ensures { OnOk result
            (scope_content self.new ≡ scope_with (scope_content self.old) (directive_content directive)) }
    {
        match directive {
            Directive::Flag(name) => turn_on(&mut self.flags, name),
            Directive::Seconds(name, seconds) => self.times.say(name, seconds),
            Directive::Metric(metric) => self.metric = Some(metric),
            Directive::HostName(name) => self.host = Some(name),
            Directive::VendorClass(class) => self.vendor = Some(class),
            Directive::Identifier(identifier) => self.identifier = Some(identifier),
            Directive::Codes(list, said) => self.say_codes(list, said)?,
            Directive::Static(value) => self.statics.say(value),
            Directive::Ia(ia) => self.ias.push(ia)?,
            Directive::Env(env) => self.env.push(env)?,
            Directive::Blacklist(nets) => self.blacklist.extend_from_slice(&nets)?,
            Directive::Interfaces(_list, _patterns) => {}
            Directive::Script(_path) => {}
        }
        Ok(())
    }

    /// How much is said.
    pub fn counts(&self) -> Counts
        ensures { result ≡ scope_counts (scope_content self.now) }
    {
        Counts {
            asked: self.asked.words,
            refused: self.refused.words,
            required: self.required.words,
            ias: self.ias.len(),
            env: self.env.len(),
            blacklist: self.blacklist.len(),
            allowed: 0,
            denied: 0,
        }
    }
}
