//! The index of jobs: under the demands of the pieces of their plans, and under their part.

ghost use Rattle.std.specs.Prelude.{[], ◌∷◌, ℕ, IfOk, IsTrue, OnOk};
ghost use Rattle.std.specs.Option.{option_to_list};
ghost use Rattle.cut_tree.specs.declared.leaves.Leaf.{Leaf as LeafOf};
ghost use Rattle.shop_records.specs.Elements.{IsIn};
ghost use Rattle.shop_book.specs.FiledJobs.{AreJobsFiled};
ghost use Rattle.shop_book.specs.Filing.{is_filed_for, is_filed_in, StaysFiled};

use crate::number_index::NumberIndex;
use cut_measure::PartName;
use cut_tree::Leaf;
use shop_records::{Job, NumberList};
use std::alloc::{AllocError, Global};

impl NumberIndex {
    // Files a job under the demand of a leaf.
    fn file_leaf(&mut self, leaf: &Leaf, job: u32) -> Result<(), AllocError>
        ensures filed { OnOk result (IsTrue (is_filed_for self.new leaf.now.demand job)) }
        ensures stays { StaysFiled self.old self.new }
    {
        self.file_for(leaf.demand, job)
    }

    // Files a job under the demands of leaves.
    fn file_leaves(&mut self, leaves: &[Leaf], job: u32) -> Result<(), AllocError>
        ensures filed { OnOk result ((leaf : LeafOf) → IsIn leaf leaves.now
            → IsTrue (is_filed_for self.new leaf.demand job)) }
        ensures stays { StaysFiled self.old self.new }
    {
        for leaf in leaves {
            self.file_leaf(leaf, job)?;
        }
        Ok(())
    }

    // Files a job.
    fn file_job(&mut self, alloc: Global, job: &Job) -> Result<(), AllocError>
        ensures filed { OnOk result (AreJobsFiled self.new (job.now ∷ [])) }
        ensures stays { StaysFiled self.old self.new }
    {
        let leaves = job.plan.leaves(alloc)?;
        self.file_leaves(&leaves, job.act)?;
        self.file_in(job.part, job.act)
    }

    /// Files a job, if there is one.
    pub(crate) fn file_some_job(
        &mut self,
        alloc: Global,
        job: &Option<Job>,
    ) -> Result<(), AllocError>
        ensures filed { OnOk result (AreJobsFiled self.new (option_to_list job.now)) }
        ensures stays { StaysFiled self.old self.new }
    {
        match job {
            Some(job) => self.file_job(alloc, job),
            None => Ok(()),
        }
    }

    // Appends the numbers that are filed under a number.
    fn push_for(&self, rows: &mut NumberList, under: u32) -> Result<(), AllocError>
        ensures all { OnOk result ((number : ℕ) → IsTrue (is_filed_for self.now under number)
            → IsIn number rows.new) }
        ensures stay { (number : ℕ) → IsIn number rows.old → IsIn number rows.new }
    {
        let mut last = None;
        while let Some(number) = self.next_for(under, last) {
            rows.push(number)?;
            last = Some(number);
        }
        Ok(())
    }

    // Appends the numbers that are filed under a name.
    fn push_in(&self, rows: &mut NumberList, under: PartName) -> Result<(), AllocError>
        ensures all { OnOk result ((number : ℕ) → IsTrue (is_filed_in self.now under number)
            → IsIn number rows.new) }
        ensures stay { (number : ℕ) → IsIn number rows.old → IsIn number rows.new }
    {
        let mut last = None;
        while let Some(number) = self.next_in(under, last) {
            rows.push(number)?;
            last = Some(number);
        }
        Ok(())
    }

    /// The jobs whose plans have pieces of one of these demands.
    pub(crate) fn jobs_for(&self, alloc: Global, demands: &[u32]) -> Result<NumberList, AllocError>
        ensures { IfOk result (λ jobs. (demand job : ℕ) → IsIn demand demands.now
            → IsTrue (is_filed_for self.now demand job) → IsIn job jobs) }
    {
        let mut jobs = NumberList::new(alloc);
        for demand in demands {
            self.push_for(&mut jobs, *demand)?;
        }
        Ok(jobs)
    }

    /// The act that made a part, and the jobs on it.
    pub(crate) fn acts_of_part(
        &self,
        alloc: Global,
        name: PartName,
    ) -> Result<NumberList, AllocError>
        ensures made { IfOk result (λ acts. IsIn name.act acts) }
        ensures jobs { IfOk result (λ acts. (job : ℕ)
            → IsTrue (is_filed_in self.now name job) → IsIn job acts) }
    {
        let mut acts = NumberList::new(alloc);
        acts.push(name.act())?;
        self.push_in(&mut acts, name)?;
        Ok(acts)
    }
}
