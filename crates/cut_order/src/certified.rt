//! An instance with the greatest bound that is proved so far.

ghost use Rattle.std.specs.Prelude.{◌≡◌, IfOk};
ghost use Rattle.cut_bound.specs.Orders.{IsPricedBound};

use crate::instance::Instance;
use cut_bound::{priced_cost, unpriced_cost};
use std::alloc::{AllocError, Global};

/// A bound, and the numbers that are the wants' prices.
#[derive(Drop)]
pub struct Certificate {
    /// In the order of the wants: one outside 1..=1000000000 is no price.
    pub numbers: Vec<u32>,
    /// What making all costs at least: at most 10^18.
    pub bound: u64,
}

/// An instance, and a bound that is exactly that of its prices.
#[derive(Drop)]
pub struct Certified {
    pub instance: Instance,
    pub certificate: Certificate,
    ghost exact: { ∥ IsPricedBound instance.kind instance.kerf instance.step instance.sizes.items
        instance.wants.items certificate.numbers.items certificate.bound ∥₁ },
}

impl Certified {
    /// An instance with the bound at no prices.
    pub fn new(alloc: Global, instance: Instance) -> Certified
        ensures { result.instance ≡ instance }
    {
        let certificate = Certificate {
            numbers: Vec::new(alloc),
            bound: unpriced_cost(&instance.sizes),
        };
        Certified {
            instance,
            certificate,
        }
    }

    // The bound at other prices.
    fn bounded(&self, alloc: Global, numbers: &[u32], points: usize) -> Result<u64, AllocError>
        ensures { IfOk result (IsPricedBound self.now.instance.kind self.now.instance.kerf
            self.now.instance.step self.now.instance.sizes.items self.now.instance.wants.items
            numbers.now) }
    {
        let instance = &self.instance;
        let (kind, kerf, step) = (instance.kind, instance.kerf, instance.step);
        priced_cost(
            alloc,
            kind,
            kerf,
            step,
            points,
            &instance.sizes,
            &instance.wants,
            numbers,
        )
    }

    /// Keeps the bound at other prices where it is greater. It takes one table; of sheets without a
    /// step that has about so many points an axis.
    pub fn rate(
        &mut self,
        alloc: Global,
        numbers: Vec<u32>,
        points: usize,
    ) -> Result<(), AllocError>
        ensures { self.new.instance ≡ self.old.instance }
    {
        let bound = self.bounded(alloc, &numbers, points)?;
        if bound > self.certificate.bound {
            self.certificate = Certificate { numbers, bound };
        }
        Ok(())
    }
}
