//! What goes through the lines of a transcript.
ghost use Rattle.iface_judge.specs.AuditModel.Auditing as model;
ghost use Rattle.iface_judge.specs.AuditModel.Auditing.{Auditing};
ghost use Rattle.iface_judge.specs.AuditSeats.Tests.{judged_by};
ghost use Rattle.audit_follower.specs.Holding.{Audits};
ghost use Rattle.transcript_audit.specs.Saying.{Says};

use crate::verdict::Verdict;
use audit_follower::{Auditor, Unjust};
use conf_text::Conf;
use iface_judge::Judge;
use net_types::NoMemory;
use std::alloc::Global;
use transcript_lines::ToldLine;
use transcript_read::Follower;

/// An auditor, which goes through the lines of a transcript.
#[derive(Drop)]
pub struct Judging<J> {
    pub auditor: Auditor<J>,
}

impl<J: Judge + Drop> Follower for Judging<J> {
    ghost State = { Auditing };

    ghost Tells = { λ judging kept. Audits J.Tells judging.auditor kept };

    ghost first = { model.first };

    ghost after = { model.after (judged_by J.is_own J.is_shared) };

    fn begin(alloc: Global, conf: Conf) -> Result<Judging<J>, NoMemory> {
        let auditor = Auditor::begin(alloc, conf)?;
        Ok(Judging { auditor })
    }

    fn follow(self, alloc: Global, line: ToldLine<'_>) -> Result<Judging<J>, NoMemory> {
        let auditor = self.auditor.follow(alloc, line)?;
        Ok(Judging { auditor })
    }
}

impl<J: Judge + Drop> Judging<J> {
    /// What is said of the lines that went through.
    #[tactic(auto, using(crate::proofs::SayingLaws::says_yes, crate::proofs::SayingLaws::says_no))]
    pub fn verdict(&self) -> Verdict
        ensures { (kept : Auditing) → Audits J.Tells self.now.auditor kept → Says result kept }
    {
        match self.auditor.found() {
            None => Verdict::Yes {
                lives: self.auditor.lives,
                turns: self.auditor.turns,
            },
            Some(Unjust { life, turn, row }) => Verdict::No { life, turn, row },
        }
    }
}
