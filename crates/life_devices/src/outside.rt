//! What a life may ask of its devices, seen as one: how it begins and waits, and the calls of the link, the host, the
//! store and the hooks.

ghost use Rattle.std.specs.Prelude.{◌≡◌, ◌≤◌, true, false, IfOk, IfErr, IfSome, IsOk, length};
ghost use Rattle.std.specs.List.{AllByRecursion};
ghost use Rattle.std.specs.String.{string_bytes};
ghost use Rattle.world.specs.Causes.{HasCause, HasDeviceCause, Foretold};
ghost use Rattle.world.specs.FileNames.{IsFileName};
ghost use Rattle.world.specs.LinkCalls.{frame_len, wait_number};
ghost use Rattle.world.specs.HookCalls.{job_of};
ghost use Rattle.lease_file.specs.FileReads.{got_reading};
ghost use Rattle.device_calls.specs.Calls.{Offer, ListRows, Change, ListAsides, Read, WriteAside, SyncAside, RenameAside, RemoveFile, Settle, Start, Abandon};
ghost use Rattle.device_calls.specs.Calls as asks;
ghost use Rattle.device_calls.specs.Worlds.{Seen};
ghost use Rattle.device_calls.specs.Does.{One};
ghost use Rattle.life_devices.specs.Answered.{rows_listed, names_of, FitsChange, runs_on};
ghost use Rattle.life_devices.specs.Waits.{WaitsThere, BeginsThere};

use host_model::HostChange;
use lease_file::Got;
use net_types::{Failed, IfIndex};
use std::alloc::Global;
use world::{Begin, DeviceAnswer, HookJob, HostRow, NoMemory, Poll, Wake};

/// All that a life runs over: each call asks one device once. For want of memory alone nothing changes, nor do the
/// counts of faults.
pub trait Outside {
    /// What the devices tell, which of their calls fail, where that is told, and how many failed.
    ghost seen: { Self → Seen };

    /// Begins a life.
    fn begin(&mut self) -> Result<Begin, Failed>
        ensures cause { HasCause (seen self.old).waiting.faults (seen self.new).waiting.faults result }
        ensures begins { BeginsThere (seen self.old) (seen self.new) result }
        ensures begun { IfSome (seen self.old).waiting.failing (λ _. IsOk result) };

    /// Waits until the moment `until` at the latest, in milliseconds since 1970; `None` waits as long as it takes.
    /// A frame is in the first bytes of `buf`.
    fn wait(&mut self, until: Option<u64>, buf: &mut [u8]) -> Result<Wake, DeviceAnswer>
        ensures cause { HasDeviceCause (seen self.old).waiting.faults (seen self.new).waiting.faults result }
        ensures room { IfOk result (λ wake. frame_len wake.event ≤ length buf.new) }
        ensures waits { WaitsThere until (seen self.old) (seen self.new) buf.new result }
        ensures foretold { Foretold (seen self.old).waiting.failing (wait_number (seen self.old).link.told) result };

    /// Offers a frame, and says whether it was taken.
    fn offer(&mut self, iface: IfIndex, frame: &[u8]) -> Result<bool, NoMemory>
        ensures one { IfOk result (λ taken. One (Offer iface.number frame.now) taken (seen self.old) (seen self.new)) }
        ensures waiting { (seen self.new).waiting ≡ (seen self.old).waiting }
        ensures memory { IfErr result (λ _. seen self.new ≡ seen self.old) };

    /// The host's rows, in any order, each once; `None` where listing failed.
    fn list(&mut self, alloc: Global) -> Result<Option<Vec<HostRow>>, NoMemory>
        ensures one { IfOk result (λ rows. One ListRows (rows_listed rows) (seen self.old) (seen self.new)) }
        ensures waiting { (seen self.new).waiting ≡ (seen self.old).waiting }
        ensures memory { IfErr result (λ _. seen self.new ≡ seen self.old) };

    /// Asks for a change of the host's rows, and says whether it was done.
    fn change(&mut self, change: HostChange) -> Result<bool, NoMemory>
        requires { FitsChange change }
        ensures one { IfOk result (λ done. One (Change change) done (seen self.old) (seen self.new)) }
        ensures waiting { (seen self.new).waiting ≡ (seen self.old).waiting }
        ensures memory { IfErr result (λ _. seen self.new ≡ seen self.old) };

    /// The names of the asides, in byte order; `None` where listing failed.
    fn list_asides(&mut self, alloc: Global) -> Result<Option<Vec<String>>, NoMemory>
        ensures one { IfOk result (λ names. One ListAsides (names_of names) (seen self.old) (seen self.new)) }
        ensures fit { IfOk result
            (λ names. IfSome names (λ v. AllByRecursion (λ name. IsFileName (string_bytes name)) v.items)) }
        ensures waiting { (seen self.new).waiting ≡ (seen self.old).waiting }
        ensures memory { IfErr result (λ _. seen self.new ≡ seen self.old) };

    /// Reads a file.
    fn read(&mut self, alloc: Global, name: &str) -> Result<Got, NoMemory>
        requires { IsFileName name.now }
        ensures one { IfOk result (λ got. One (Read name.now) (got_reading got) (seen self.old) (seen self.new)) }
        ensures waiting { (seen self.new).waiting ≡ (seen self.old).waiting }
        ensures memory { IfErr result (λ _. seen self.new ≡ seen self.old) };

    /// Writes the aside of a file, with all these bytes, and says whether that was done.
    fn write_aside(&mut self, name: &str, bytes: &[u8]) -> Result<bool, NoMemory>
        requires { IsFileName name.now }
        ensures one { IfOk result (λ done. One (WriteAside name.now bytes.now) done (seen self.old) (seen self.new)) }
        ensures waiting { (seen self.new).waiting ≡ (seen self.old).waiting }
        ensures memory { IfErr result (λ _. seen self.new ≡ seen self.old) };

    /// Makes what was written to the aside of a file outlive a crash, and says whether that was done.
    fn sync_aside(&mut self, name: &str) -> Result<bool, NoMemory>
        requires { IsFileName name.now }
        ensures one { IfOk result (λ done. One (SyncAside name.now) done (seen self.old) (seen self.new)) }
        ensures waiting { (seen self.new).waiting ≡ (seen self.old).waiting }
        ensures memory { IfErr result (λ _. seen self.new ≡ seen self.old) };

    /// Puts the aside of a file in its place, and says whether that was done.
    fn rename_aside(&mut self, name: &str) -> Result<bool, NoMemory>
        requires { IsFileName name.now }
        ensures one { IfOk result (λ done. One (RenameAside name.now) done (seen self.old) (seen self.new)) }
        ensures waiting { (seen self.new).waiting ≡ (seen self.old).waiting }
        ensures memory { IfErr result (λ _. seen self.new ≡ seen self.old) };

    /// Removes a file, and says whether that was done.
    fn remove(&mut self, name: &str) -> Result<bool, NoMemory>
        requires { IsFileName name.now }
        ensures one { IfOk result (λ done. One (RemoveFile name.now) done (seen self.old) (seen self.new)) }
        ensures waiting { (seen self.new).waiting ≡ (seen self.old).waiting }
        ensures memory { IfErr result (λ _. seen self.new ≡ seen self.old) };

    /// Makes what was put in place or removed outlive a crash, and says whether that was done.
    fn settle(&mut self) -> Result<bool, NoMemory>
        ensures one { IfOk result (λ done. One Settle done (seen self.old) (seen self.new)) }
        ensures waiting { (seen self.new).waiting ≡ (seen self.old).waiting }
        ensures memory { IfErr result (λ _. seen self.new ≡ seen self.old) };

    /// Starts a hook's job where no child runs, and says whether that was done. Then its child runs.
    fn start(&mut self, job: &HookJob) -> Result<bool, NoMemory>
        requires { (seen self.old).waiting.child ≡ false }
        ensures one { IfOk result (λ done. One (Start (job_of job.now)) done (seen self.old) (seen self.new)) }
        ensures child { IfOk result
            (λ done. (seen self.new).waiting ≡ record (seen self.old).waiting { child = done }) }
        ensures memory { IfErr result (λ _. seen self.new ≡ seen self.old) };

    /// Asks whether the child still runs, which is that of the job of a number; `None` where that failed.
    fn poll(&mut self, number: u64) -> Option<Poll>
        requires { (seen self.old).waiting.child ≡ true }
        ensures one { One (asks.Poll number) result (seen self.old) (seen self.new) }
        ensures child { (seen self.new).waiting ≡ record (seen self.old).waiting { child = runs_on result } };

    /// Forgets the child, which is that of the job of a number.
    fn abandon(&mut self, number: u64)
        requires { (seen self.old).waiting.child ≡ true }
        ensures one { One (Abandon number) tt (seen self.old) (seen self.new) }
        ensures child { (seen self.new).waiting ≡ record (seen self.old).waiting { child = false } };
}
