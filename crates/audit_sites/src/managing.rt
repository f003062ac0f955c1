//! The managed interfaces of a life.
ghost use Rattle.std.specs.Prelude.{◌≡◌, map, IfOk};
ghost use Rattle.settings.specs.Fitting.{AreManaged};

use net_types::NoMemory;
use settings::Managed;
use std::alloc::Global;
use std::marker::Model;

/// Managed interfaces, within the bounds of their settings.
#[derive(Drop)]
pub struct Managing {
    all: Vec<Managed>,
}

impl Model for Managing {
    ghost use Rattle.std.specs.Prelude.{List};
    ghost use Rattle.settings.specs.declared.interfaces.Managed.{Managed};
    ghost use Rattle.settings.specs.Fitting.{AreManaged};

    ghost Value = { List Managed };

    ghost view = { λ m. m.all.items };

    ghost invariant = { λ m. AreManaged m.all.items };
}

/// The numbers of interfaces.
fn numbers_of(alloc: Global, all: &[Managed]) -> Result<Vec<u32>, NoMemory>
    ensures { IfOk result (λ numbers. numbers.items ≡ map (λ m. m.spec.index.number) all.now) }
{
    let mut numbers = Vec::new(alloc);
    for m in all {
        numbers.push(m.spec.index.number)?;
    }
    Ok(numbers)
}

impl Managing {
    /// Over these interfaces.
    pub fn new(all: Vec<Managed>) -> Managing
        requires { AreManaged all.items }
        ensures { result ≡ all.items }
    {
        Managing { all }
    }

    /// The interfaces, in their order.
    pub fn as_slice(&self) -> &[Managed]
        ensures same { result.now ≡ self.now }
        ensures fit { AreManaged result.now }
    {
        &self.all
    }

    /// The interfaces themselves.
    pub fn into_vec(self) -> Vec<Managed>
        ensures same { result.items ≡ self }
        ensures fit { AreManaged result.items }
    {
        let Managing { all } = self;
        all
    }

    /// Their numbers.
    pub fn numbers(&self, alloc: Global) -> Result<Vec<u32>, NoMemory>
        ensures { IfOk result (λ numbers. numbers.items ≡ map (λ m. m.spec.index.number) self.now) }
    {
        numbers_of(alloc, &self.all)
    }
}
