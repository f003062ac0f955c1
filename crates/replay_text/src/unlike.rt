//! Lines of a kind that must be unlike: interfaces, rows and files, in the order in which they came.
ghost use Rattle.std.specs.Prelude.{◌≡◌, [], ◌∷◌, ◌++◌, ◌+◌, ◌<◌, ◌≤◌, IfOk, IsTrue, Some, None, length, map, if◌then◌else◌, ◌==◌};
ghost use Rattle.script_lines.specs.KindTests.{counts_from, interfaces_fit};
ghost use Rattle.script_lines.specs.ScriptContent.{file_of};
ghost use Rattle.replay_text.specs.NextWords.{none_of};
ghost use Rattle.replay_text.specs.NextLines.{fits_next, is_new_row, is_new_file};

use iface_lists::all_unlike;
use net_types::{IfSpec, NoMemory};
use script_lines::FileLine;
use std::alloc::Global;
use std::collections::BTreeSet;
use std::marker::Model;
use world::HostRow;

/// The most interfaces.
pub const MOST_INTERFACES: u32 = 64;

/// Whether interfaces are numbered from this one on.
fn counts_from(index: u32, specs: &[IfSpec]) -> bool
    requires { index + length specs.now < 1000 }
    ensures { result ≡ counts_from index specs.now }
{
    match specs.split_first() {
        None => true,
        Some((spec, others)) => {
            if spec.index.number == index {
                counts_from(index + 1, others)
            } else {
                false
            }
        }
    }
}

#[tactic(auto, unfolding(script_lines::specs::KindTests::interfaces_fit))]
fn interfaces_fit(specs: &[IfSpec]) -> bool
    ensures value { result ≡ interfaces_fit specs.now }
    ensures few { IsTrue result → length specs.now ≤ 64 }
{
    if specs.len() <= MOST_INTERFACES as usize {
        counts_from(1, specs) && all_unlike(specs)
    } else {
        false
    }
}

/// Interfaces numbered from 1, with unlike names and hardware addresses.
#[derive(Drop)]
pub struct Interfaces {
    specs: Vec<IfSpec>,
}

impl Model for Interfaces {
    ghost use Rattle.std.specs.Prelude.{List, ◌≤◌, length};
    ghost use Rattle.net_types.specs.declared.interface.IfSpec.{IfSpec};

    ghost Value = { List IfSpec };

    ghost view = { λ all. all.specs.items };

    ghost invariant = { λ all. length all.specs.items ≤ 64 };
}

impl Interfaces {
    /// No interfaces.
    pub fn new(alloc: Global) -> Interfaces
        ensures { result ≡ [] }
    {
        Interfaces {
            specs: Vec::new(alloc),
        }
    }

    /// Whether there are none.
    pub fn is_empty(&self) -> bool
        ensures { result ≡ none_of self.now }
    {
        self.specs.is_empty()
    }

    /// How many there are, at most 64.
    pub fn len(&self) -> u32
        ensures value { result ≡ length self.now }
        ensures few { result ≤ 64 }
    {
        self.specs.len() as u32
    }

    /// With one more, where it is the next one and unlike the others.
    pub fn with_next(self, spec: IfSpec) -> Result<Option<Interfaces>, NoMemory>
        ensures { IfOk result (λ next. next ≡ (if fits_next self spec then Some (self ++ spec ∷ []) else None)) }
    {
        let Interfaces { mut specs } = self;
        specs.push(spec)?;
        if interfaces_fit(&specs) {
            Ok(Some(Interfaces { specs }))
        } else {
            Ok(None)
        }
    }

    /// The interfaces as a vector.
    pub fn into_vec(self) -> Vec<IfSpec>
        ensures { result.items ≡ self }
    {
        let Interfaces { specs } = self;
        specs
    }
}

/// Rows, each once.
#[derive(Drop)]
pub struct UnlikeRows {
    rows: Vec<HostRow>,
    seen: BTreeSet<HostRow>,
}

impl Model for UnlikeRows {
    ghost use Rattle.std.specs.Prelude.{List, ◌≡◌};
    ghost use Rattle.world.specs.declared.rows.HostRow.{HostRow};
    ghost use Rattle.world.specs.RowOrder.{in_row_order};

    ghost Value = { List HostRow };

    ghost view = { λ all. all.rows.items };

    ghost invariant = { λ all. all.seen.keys ≡ in_row_order all.rows.items };
}

impl UnlikeRows {
    /// No row.
    pub fn new(alloc: Global) -> UnlikeRows
        ensures { result ≡ [] }
    {
        UnlikeRows {
            rows: Vec::new(alloc),
            seen: BTreeSet::new(alloc),
        }
    }

    /// Whether there is none.
    pub fn is_empty(&self) -> bool
        ensures { result ≡ none_of self.now }
    {
        self.rows.is_empty()
    }

    /// With one more, where it isn't there yet.
    #[tactic(auto, using(world::proofs::RowLists::in_order_has, world::proofs::RowLists::put_in_order_more))]
    pub fn with_new(self, row: HostRow) -> Result<Option<UnlikeRows>, NoMemory>
        ensures { IfOk result (λ next. next ≡ (if is_new_row self row then Some (self ++ row ∷ []) else None)) }
    {
        let UnlikeRows { mut rows, mut seen } = self;
        let is_new = seen.insert(row)?;
        if !is_new {
            return Ok(None);
        }
        rows.push(row)?;
        Ok(Some(UnlikeRows { rows, seen }))
    }

    /// The rows, in their order.
    pub fn into_vec(self) -> Vec<HostRow>
        ensures { result.items ≡ self }
    {
        let UnlikeRows { rows, .. } = self;
        rows
    }
}

/// Files with unlike names.
#[derive(Drop)]
pub struct UnlikeFiles {
    files: Vec<FileLine>,
    names: BTreeSet<String>,
}

impl Model for UnlikeFiles {
    ghost use Rattle.std.specs.Prelude.{List, map};
    ghost use Rattle.world.specs.FileLists.{StoreFile};
    ghost use Rattle.script_lines.specs.ScriptContent.{file_of};
    ghost use Rattle.script_lines.specs.KindTests.{AreNames};

    ghost Value = { List StoreFile };

    ghost view = { λ all. map file_of all.files.items };

    ghost invariant = { λ all. AreNames all.names.keys (map file_of all.files.items) };
}

impl UnlikeFiles {
    /// No file.
    pub fn new(alloc: Global) -> UnlikeFiles
        ensures { result ≡ [] }
    {
        UnlikeFiles {
            files: Vec::new(alloc),
            names: BTreeSet::new(alloc),
        }
    }

    /// Whether there is none.
    pub fn is_empty(&self) -> bool
        ensures { result ≡ none_of self.now }
    {
        self.files.is_empty()
    }

    /// With one more, where none has its name.
    pub fn with_new(self, alloc: Global, file: FileLine) -> Result<Option<UnlikeFiles>, NoMemory>
        ensures { IfOk result
            (λ next. next ≡ (if is_new_file self (file_of file) then Some (self ++ file_of file ∷ []) else None)) }
    {
        let UnlikeFiles {
            mut files,
            mut names,
        } = self;
        let name = String::from_str(alloc, &file.name)?;
        let is_new = names.insert(name)?;
        if !is_new {
            return Ok(None);
        }
        files.push(file)?;
        Ok(Some(UnlikeFiles { files, names }))
    }

    /// The files, in their order.
    pub fn into_vec(self) -> Vec<FileLine>
        ensures { map file_of result.items ≡ self }
    {
        let UnlikeFiles { files, .. } = self;
        files
    }
}
