//! The link, the store, the host and the hooks put together as all that a life runs over.

ghost use Rattle.std.specs.Prelude.{◌≡◌, [], ◌∷◌, true, false, IfOk, IfErr, IfSome};
ghost use Rattle.std.specs.List.{AllByRecursion};
ghost use Rattle.std.specs.String.{string_bytes};
ghost use Rattle.world.specs.FileNames.{IsFileName};
ghost use Rattle.world.specs.LinkCalls.{Offered};
ghost use Rattle.world.specs.HostCalls.{Listed};
ghost use Rattle.world.specs.StoreCalls.{ListedAsides, ReadFile, WroteAside, SyncedAside, RenamedAside, RemovedFile, SettledFiles};
ghost use Rattle.world.specs.HookCalls.{job_of, Started, Polled, Abandoned};
ghost use Rattle.host_model.specs.HostTurn.{change_call};
ghost use Rattle.file_choices.specs.StoreWalks.{Answered};
ghost use Rattle.device_calls.specs.HostWalks.{HostAnswered};
ghost use Rattle.device_calls.specs.Telling.{Adds};
ghost use Rattle.device_calls.specs.Faults.{failed_send, failed_host_call, failed_store_call, failed_hook_call, CountsFailed};
ghost use Rattle.lease_file.specs.FileReads.{got_reading};
ghost use Rattle.life_devices.specs.Answered.{rows_listed, names_of, FitsChange, OfferedBy, ListedBy, ChangedBy};
ghost use Rattle.life_devices.specs.Answered.{AsidesBy, ReadBy, WrittenBy, SyncedBy, RenamedBy, RemovedBy, SettledBy};
ghost use Rattle.life_devices.specs.Answered.{StartedBy, PolledBy, AbandonedBy, runs_on};

use crate::outside::Outside;
use host_model::HostChange;
use lease_file::Got;
use net_types::{Failed, IfIndex};
use std::alloc::Global;
use world::{
    Begin, DeviceAnswer, HookJob, Hooks, Host, HostRow, Link, NoMemory, Poll, Store, Wake, done,
};

/// The devices that a life runs over.
#[derive(Drop)]
pub struct Devices<L, S, H, K> {
    pub link: L,
    pub store: S,
    pub host: H,
    pub hooks: K,
}

#[tactic(auto, using(crate::proofs::Answers::offer_answers))]
fn offer_to<L: Link>(link: &mut L, iface: IfIndex, frame: &[u8]) -> Result<bool, NoMemory>
    ensures offered { IfOk result
        (λ taken. OfferedBy iface.number frame.now taken (L.failing_sends link.old) (L.told link.old)
        (L.told link.new)) }
    ensures added { IfOk result
        (λ taken. Adds (L.calls link.old) (L.calls link.new) (Offered iface.number frame.now taken ∷ [])) }
    ensures counted { IfOk result
        (λ taken. CountsFailed failed_send (Offered iface.number frame.now taken ∷ []) (L.send_faults link.old)
        (L.send_faults link.new)) }
    ensures failing { (L.failing_waits link.new ≡ L.failing_waits link.old)
        × (L.failing_sends link.new ≡ L.failing_sends link.old) }
    ensures waits { L.faults link.new ≡ L.faults link.old }
    ensures begins { L.begins link.new ≡ L.begins link.old }
    ensures memory { IfErr result
        (λ _. (L.told link.new ≡ L.told link.old)
        × ((L.calls link.new ≡ L.calls link.old) × (L.send_faults link.new ≡ L.send_faults link.old))) }
{
    done(link.send(iface, frame))
}

#[tactic(auto, using(crate::proofs::Answers::list_answers))]
fn list_of<H: Host>(alloc: Global, host: &mut H) -> Result<Option<Vec<HostRow>>, NoMemory>
    ensures listed { IfOk result
        (λ rows. ListedBy (rows_listed rows) (H.failing host.old) (H.told host.old) (H.told host.new)) }
    ensures answered { IfOk result
        (λ rows. HostAnswered (Listed (rows_listed rows) ∷ []) (H.told host.old) (H.told host.new)) }
    ensures counted { IfOk result
        (λ rows. CountsFailed failed_host_call (Listed (rows_listed rows) ∷ []) (H.faults host.old)
        (H.faults host.new)) }
    ensures failing { H.failing host.new ≡ H.failing host.old }
    ensures memory { IfErr result (λ _. (H.told host.new ≡ H.told host.old) × (H.faults host.new ≡ H.faults host.old)) }
{
    let mut rows = Vec::new(alloc);
    match host.list(&mut rows) {
        Ok(()) => Ok(Some(rows)),
        Err(DeviceAnswer::Failed) => Ok(None),
        Err(DeviceAnswer::NoMemory) => Err(NoMemory),
    }
}

#[tactic(auto, using(crate::proofs::Answers::changed_by, crate::proofs::Answers::unchanged, crate::proofs::Answers::row_answered))]
fn change_of<H: Host>(host: &mut H, change: HostChange) -> Result<bool, NoMemory>
    requires { FitsChange change }
    ensures changed { IfOk result
        (λ done. ChangedBy change done (H.failing host.old) (H.told host.old) (H.told host.new)) }
    ensures answered { IfOk result
        (λ done. HostAnswered (change_call change done ∷ []) (H.told host.old) (H.told host.new)) }
    ensures counted { IfOk result
        (λ done. CountsFailed failed_host_call (change_call change done ∷ []) (H.faults host.old)
        (H.faults host.new)) }
    ensures failing { H.failing host.new ≡ H.failing host.old }
    ensures memory { IfErr result (λ _. (H.told host.new ≡ H.told host.old) × (H.faults host.new ≡ H.faults host.old)) }
{
    done(match change {
        HostChange::Remove(row) => host.remove(&row),
        HostChange::Add(row) => host.add(&row),
    })
}

#[tactic(auto, using(crate::proofs::Answers::aside_answers))]
fn asides_of<S: Store>(alloc: Global, store: &mut S) -> Result<Option<Vec<String>>, NoMemory>
    ensures listed { IfOk result
        (λ names. AsidesBy (names_of names) (S.failing store.old) (S.told store.old) (S.told store.new)) }
    ensures answered { IfOk result
        (λ names. Answered (S.failing store.old) (ListedAsides (names_of names) ∷ []) (S.told store.old)
        (S.told store.new)) }
    ensures counted { IfOk result
        (λ names. CountsFailed failed_store_call (ListedAsides (names_of names) ∷ []) (S.faults store.old)
        (S.faults store.new)) }
    ensures fit { IfOk result
        (λ names. IfSome names (λ v. AllByRecursion (λ name. IsFileName (string_bytes name)) v.items)) }
    ensures failing { S.failing store.new ≡ S.failing store.old }
    ensures memory { IfErr result
        (λ _. (S.told store.new ≡ S.told store.old) × (S.faults store.new ≡ S.faults store.old)) }
{
    let mut names = Vec::new(alloc);
    match store.list_asides(&mut names) {
        Ok(()) => Ok(Some(names)),
        Err(DeviceAnswer::Failed) => Ok(None),
        Err(DeviceAnswer::NoMemory) => Err(NoMemory),
    }
}

#[tactic(auto, using(crate::proofs::Answers::read_answers))]
fn read_from<S: Store>(alloc: Global, store: &mut S, name: &str) -> Result<Got, NoMemory>
    requires { IsFileName name.now }
    ensures read { IfOk result
        (λ got. ReadBy name.now (got_reading got) (S.failing store.old) (S.told store.old) (S.told store.new)) }
    ensures answered { IfOk result
        (λ got. Answered (S.failing store.old) (ReadFile name.now (got_reading got) ∷ []) (S.told store.old)
        (S.told store.new)) }
    ensures counted { IfOk result
        (λ got. CountsFailed failed_store_call (ReadFile name.now (got_reading got) ∷ []) (S.faults store.old)
        (S.faults store.new)) }
    ensures failing { S.failing store.new ≡ S.failing store.old }
    ensures memory { IfErr result
        (λ _. (S.told store.new ≡ S.told store.old) × (S.faults store.new ≡ S.faults store.old)) }
{
    let mut bytes = Vec::new(alloc);
    match store.read_file(name, &mut bytes) {
        Ok(true) => Ok(Got::Text(bytes)),
        Ok(false) => Ok(Got::Missing),
        Err(DeviceAnswer::Failed) => Ok(Got::Unread),
        Err(DeviceAnswer::NoMemory) => Err(NoMemory),
    }
}

#[tactic(auto, using(crate::proofs::Answers::store_changed_by, crate::proofs::Answers::unwritten, lease_file::proofs::OneChange::change_answered))]
fn write_to<S: Store>(store: &mut S, name: &str, bytes: &[u8]) -> Result<bool, NoMemory>
    requires { IsFileName name.now }
    ensures written { IfOk result
        (λ done. WrittenBy name.now bytes.now done (S.failing store.old) (S.told store.old) (S.told store.new)) }
    ensures answered { IfOk result
        (λ done. Answered (S.failing store.old) (WroteAside name.now bytes.now done ∷ []) (S.told store.old)
        (S.told store.new)) }
    ensures counted { IfOk result
        (λ done. CountsFailed failed_store_call (WroteAside name.now bytes.now done ∷ []) (S.faults store.old)
        (S.faults store.new)) }
    ensures failing { S.failing store.new ≡ S.failing store.old }
    ensures memory { IfErr result
        (λ _. (S.told store.new ≡ S.told store.old) × (S.faults store.new ≡ S.faults store.old)) }
{
    done(store.write_aside(name, bytes))
}

#[tactic(auto, using(crate::proofs::Answers::store_changed_by, crate::proofs::Answers::unwritten, lease_file::proofs::OneChange::change_answered))]
fn sync_in<S: Store>(store: &mut S, name: &str) -> Result<bool, NoMemory>
    requires { IsFileName name.now }
    ensures synced { IfOk result
        (λ done. SyncedBy name.now done (S.failing store.old) (S.told store.old) (S.told store.new)) }
    ensures answered { IfOk result
        (λ done. Answered (S.failing store.old) (SyncedAside name.now done ∷ []) (S.told store.old)
        (S.told store.new)) }
    ensures counted { IfOk result
        (λ done. CountsFailed failed_store_call (SyncedAside name.now done ∷ []) (S.faults store.old)
        (S.faults store.new)) }
    ensures failing { S.failing store.new ≡ S.failing store.old }
    ensures memory { IfErr result
        (λ _. (S.told store.new ≡ S.told store.old) × (S.faults store.new ≡ S.faults store.old)) }
{
    done(store.sync_aside(name))
}

#[tactic(auto, using(crate::proofs::Answers::renamed_by, crate::proofs::Answers::unwritten, lease_file::proofs::OneChange::renaming_answered))]
fn rename_in<S: Store>(store: &mut S, name: &str) -> Result<bool, NoMemory>
    requires { IsFileName name.now }
    ensures renamed { IfOk result
        (λ done. RenamedBy name.now done (S.failing store.old) (S.told store.old) (S.told store.new)) }
    ensures answered { IfOk result
        (λ done. Answered (S.failing store.old) (RenamedAside name.now done ∷ []) (S.told store.old)
        (S.told store.new)) }
    ensures counted { IfOk result
        (λ done. CountsFailed failed_store_call (RenamedAside name.now done ∷ []) (S.faults store.old)
        (S.faults store.new)) }
    ensures failing { S.failing store.new ≡ S.failing store.old }
    ensures memory { IfErr result
        (λ _. (S.told store.new ≡ S.told store.old) × (S.faults store.new ≡ S.faults store.old)) }
{
    done(store.rename_aside(name))
}

#[tactic(auto, using(crate::proofs::Answers::store_changed_by, crate::proofs::Answers::unwritten, lease_file::proofs::OneChange::change_answered))]
fn remove_from<S: Store>(store: &mut S, name: &str) -> Result<bool, NoMemory>
    requires { IsFileName name.now }
    ensures removed { IfOk result
        (λ done. RemovedBy name.now done (S.failing store.old) (S.told store.old) (S.told store.new)) }
    ensures answered { IfOk result
        (λ done. Answered (S.failing store.old) (RemovedFile name.now done ∷ []) (S.told store.old)
        (S.told store.new)) }
    ensures counted { IfOk result
        (λ done. CountsFailed failed_store_call (RemovedFile name.now done ∷ []) (S.faults store.old)
        (S.faults store.new)) }
    ensures failing { S.failing store.new ≡ S.failing store.old }
    ensures memory { IfErr result
        (λ _. (S.told store.new ≡ S.told store.old) × (S.faults store.new ≡ S.faults store.old)) }
{
    done(store.remove(name))
}

#[tactic(auto, using(crate::proofs::Answers::store_changed_by, crate::proofs::Answers::unwritten, lease_file::proofs::OneChange::change_answered))]
fn settle_in<S: Store>(store: &mut S) -> Result<bool, NoMemory>
    ensures settled { IfOk result (λ done. SettledBy done (S.failing store.old) (S.told store.old) (S.told store.new)) }
    ensures answered { IfOk result
        (λ done. Answered (S.failing store.old) (SettledFiles done ∷ []) (S.told store.old) (S.told store.new)) }
    ensures counted { IfOk result
        (λ done. CountsFailed failed_store_call (SettledFiles done ∷ []) (S.faults store.old)
        (S.faults store.new)) }
    ensures failing { S.failing store.new ≡ S.failing store.old }
    ensures memory { IfErr result
        (λ _. (S.told store.new ≡ S.told store.old) × (S.faults store.new ≡ S.faults store.old)) }
{
    done(store.settle())
}

#[tactic(auto, using(crate::proofs::Answers::started_by, crate::proofs::Answers::unasked_start))]
fn start_of<K: Hooks>(hooks: &mut K, job: &HookJob) -> Result<bool, NoMemory>
    requires { K.running hooks.old ≡ false }
    ensures started { IfOk result
        (λ done. StartedBy (job_of job.now) done (K.failing hooks.old) (K.told hooks.old) (K.told hooks.new)) }
    ensures counted { IfOk result
        (λ done. CountsFailed failed_hook_call (Started (job_of job.now) done ∷ []) (K.faults hooks.old)
        (K.faults hooks.new)) }
    ensures runs { IfOk result (λ done. K.running hooks.new ≡ done) }
    ensures failing { K.failing hooks.new ≡ K.failing hooks.old }
    ensures memory { IfErr result
        (λ _. (K.told hooks.new ≡ K.told hooks.old)
        × ((K.faults hooks.new ≡ K.faults hooks.old) × (K.running hooks.new ≡ K.running hooks.old))) }
{
    done(hooks.start(job))
}

#[tactic(auto, using(crate::proofs::Answers::polled_by))]
fn poll_of<K: Hooks>(hooks: &mut K) -> Option<Poll>
    requires { K.running hooks.old ≡ true }
    ensures polled { PolledBy result (K.failing hooks.old) (K.told hooks.old) (K.told hooks.new) }
    ensures counted { CountsFailed failed_hook_call (Polled result ∷ []) (K.faults hooks.old) (K.faults hooks.new) }
    ensures runs { K.running hooks.new ≡ runs_on result }
    ensures failing { K.failing hooks.new ≡ K.failing hooks.old }
{
    match hooks.poll() {
        Ok(poll) => Some(poll),
        Err(Failed) => None,
    }
}

#[tactic(auto, using(crate::proofs::Answers::abandoned_by))]
fn abandon_of<K: Hooks>(hooks: &mut K)
    requires { K.running hooks.old ≡ true }
    ensures abandoned { AbandonedBy (K.failing hooks.old) (K.told hooks.old) (K.told hooks.new) }
    ensures counted { CountsFailed failed_hook_call (Abandoned ∷ []) (K.faults hooks.old) (K.faults hooks.new) }
    ensures runs { K.running hooks.new ≡ false }
    ensures failing { K.failing hooks.new ≡ K.failing hooks.old }
{
    hooks.abandon();
}

impl<L: Link, S: Store, H: Host, K: Hooks> Outside for Devices<L, S, H, K> {
    ghost seen = { λ d. record {
      link = record { told = L.told d.link; failing = L.failing_sends d.link; faults = L.send_faults d.link };
      link_calls = L.calls d.link;
      host = record { told = H.told d.host; failing = H.failing d.host; faults = H.faults d.host };
      store = record { told = S.told d.store; failing = S.failing d.store; faults = S.faults d.store };
      hooks = record { told = K.told d.hooks; failing = K.failing d.hooks; faults = K.faults d.hooks };
      waiting = record {
        begins = L.begins d.link;
        faults = L.faults d.link;
        failing = L.failing_waits d.link;
        child = K.running d.hooks;
      };
    } };

    fn begin(&mut self) -> Result<Begin, Failed> {
        self.link.begin()
    }

    fn wait(&mut self, until: Option<u64>, buf: &mut [u8]) -> Result<Wake, DeviceAnswer> {
        self.link.wait(until, buf)
    }

    #[tactic(auto, using(crate::proofs::Ones::one_offer, crate::proofs::Ones::link_stays))]
    fn offer(&mut self, iface: IfIndex, frame: &[u8]) -> Result<bool, NoMemory> {
        offer_to(&mut self.link, iface, frame)
    }

    #[tactic(auto, using(crate::proofs::Ones::one_list, crate::proofs::Ones::host_stays))]
    fn list(&mut self, alloc: Global) -> Result<Option<Vec<HostRow>>, NoMemory> {
        list_of(alloc, &mut self.host)
    }

    #[tactic(auto, using(crate::proofs::Ones::one_change, crate::proofs::Ones::host_stays))]
    fn change(&mut self, change: HostChange) -> Result<bool, NoMemory> {
        change_of(&mut self.host, change)
    }

    #[tactic(auto, using(crate::proofs::Ones::one_asides, crate::proofs::Ones::store_stays))]
    fn list_asides(&mut self, alloc: Global) -> Result<Option<Vec<String>>, NoMemory> {
        asides_of(alloc, &mut self.store)
    }

    #[tactic(auto, using(crate::proofs::Ones::one_read, crate::proofs::Ones::store_stays))]
    fn read(&mut self, alloc: Global, name: &str) -> Result<Got, NoMemory> {
        read_from(alloc, &mut self.store, name)
    }

    #[tactic(auto, using(crate::proofs::Ones::one_write, crate::proofs::Ones::store_stays))]
    fn write_aside(&mut self, name: &str, bytes: &[u8]) -> Result<bool, NoMemory> {
        write_to(&mut self.store, name, bytes)
    }

    #[tactic(auto, using(crate::proofs::Ones::one_sync, crate::proofs::Ones::store_stays))]
    fn sync_aside(&mut self, name: &str) -> Result<bool, NoMemory> {
        sync_in(&mut self.store, name)
    }

    #[tactic(auto, using(crate::proofs::Ones::one_rename, crate::proofs::Ones::store_stays))]
    fn rename_aside(&mut self, name: &str) -> Result<bool, NoMemory> {
        rename_in(&mut self.store, name)
    }

    #[tactic(auto, using(crate::proofs::Ones::one_remove, crate::proofs::Ones::store_stays))]
    fn remove(&mut self, name: &str) -> Result<bool, NoMemory> {
        remove_from(&mut self.store, name)
    }

    #[tactic(auto, using(crate::proofs::Ones::one_settle, crate::proofs::Ones::store_stays))]
    fn settle(&mut self) -> Result<bool, NoMemory> {
        settle_in(&mut self.store)
    }

    #[tactic(auto, using(crate::proofs::Ones::one_start, crate::proofs::Ones::hooks_stay))]
    fn start(&mut self, job: &HookJob) -> Result<bool, NoMemory> {
        start_of(&mut self.hooks, job)
    }

    #[tactic(auto, using(crate::proofs::Ones::one_poll))]
    fn poll(&mut self, _number: u64) -> Option<Poll> {
        poll_of(&mut self.hooks)
    }

    #[tactic(auto, using(crate::proofs::Ones::one_abandon))]
    fn abandon(&mut self, _number: u64) {
        abandon_of(&mut self.hooks);
    }
}
