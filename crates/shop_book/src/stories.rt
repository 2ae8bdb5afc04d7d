//! Which entries a story shows.

ghost use Rattle.std.specs.Prelude.{◌≡◌, IfOk, IsTrue};
ghost use Rattle.std.specs.Ordering.{nat_cmp};
ghost use Rattle.shop_records.specs.Elements.{IsIn};
ghost use Rattle.shop_records.specs.Lists.{ends_job, is_about, is_code_of, is_name_of, made_part, makes_units, undoes_job};
ghost use Rattle.shop_records.specs.declared.journal.Entry.{Entry as EntryOf};
ghost use Rattle.shop_rows.specs.Keys.{job_key};
ghost use Rattle.shop_rows.specs.Rows.{rise};
ghost use Rattle.shop_book.specs.FiledEntries.{HasKey};
ghost use Rattle.shop_book.specs.Ledgers.{content_in};
ghost use Rattle.shop_book.specs.Stories.{has_piece_among, has_piece_in, is_of_order, is_on_in, numbers_about, numbers_of};

use crate::known_orders::rows_with;
use crate::ledger::Ledger;
use cut_measure::{Code, PartName};
use shop_records::{Demand, Entry, Job, NumberList, Subject, Word};
use shop_rows::at;
use std::alloc::{AllocError, Global};
use std::cmp::Ordering;

// Whether a demand is of an order.
fn is_of_order(demand: &Demand, order: Code) -> bool
    ensures { result ≡ is_of_order order demand.now }
{
    matches!(demand.order.order(&order), Ordering::Equal)
}

// The numbers of the demands of an order.
fn numbers_of(alloc: Global, demands: &[Demand], order: Code) -> Result<NumberList, AllocError>
    ensures { IfOk result (λ numbers. numbers ≡ numbers_of order demands.now) }
{
    let mut numbers = NumberList::new(alloc);
    for demand in demands {
        if is_of_order(demand, order) {
            numbers.push(demand.number)?;
        }
    }
    Ok(numbers)
}

// Whether the plan of a job has a piece of one of these demands.
fn has_piece_among(job: &Job, numbers: &[u32]) -> bool
    ensures { result ≡ has_piece_among numbers.now job.now }
{
    numbers.iter().any(|number| 1 <= job.plan.count(*number))
}

// Whether the plan of the job of a number has a piece of one of these demands.
fn has_piece_in(jobs: &[Job], number: u32, numbers: &[u32]) -> bool
    requires { IsTrue (rise job_key nat_cmp jobs.now) }
    ensures { result ≡ has_piece_in jobs.now number numbers.now }
{
    match at(jobs, number) {
        Some(job) => has_piece_among(job, numbers),
        None => false,
    }
}

// Whether the job of a number is on a part.
fn is_on_in(jobs: &[Job], number: u32, name: PartName) -> bool
    requires { IsTrue (rise job_key nat_cmp jobs.now) }
    ensures { result ≡ is_on_in jobs.now number name }
{
    match at(jobs, number) {
        Some(job) => name == job.part,
        None => false,
    }
}

// Whether messages of a word make units.
fn makes_units(word: Word) -> bool
    ensures { result ≡ makes_units word }
{
    matches!(word, Word::Receive | Word::Import)
}

/// Whether messages of a word make the parts of a job.
pub(crate) fn ends_job(word: Word) -> bool
    ensures { result ≡ ends_job word }
{
    matches!(word, Word::Done | Word::Break)
}

// Whether messages of a word take the parts of a job back.
fn undoes_job(word: Word) -> bool
    ensures { result ≡ undoes_job word }
{
    matches!(word, Word::Undo)
}

// Whether an entry's message made a part, or took it back.
fn made_part(entry: &Entry, name: PartName) -> bool
    ensures { result ≡ made_part name entry.now }
{
    (makes_units(entry.word) && entry.act == name.act())
        || ((ends_job(entry.word) || undoes_job(entry.word)) && entry.job == name.act())
}

// Whether this is the code that was found.
fn is_code_of(code: Code, found: &Option<Code>) -> bool
    ensures { result ≡ is_code_of code found.now }
{
    match found {
        Some(found) => matches!(code.order(found), Ordering::Equal),
        None => false,
    }
}

// Whether this is the name that was found.
fn is_name_of(name: PartName, found: Option<PartName>) -> bool
    ensures { result ≡ is_name_of name found }
{
    match found {
        Some(found) => name == found,
        None => false,
    }
}

// One act.
fn one_act(alloc: Global, number: u32) -> Result<NumberList, AllocError>
    ensures { IfOk result (λ acts. IsIn number acts) }
{
    let mut acts = NumberList::new(alloc);
    acts.push(number)?;
    Ok(acts)
}

impl Ledger {
    ghost use Rattle.shop_records.specs.declared.journal.Subject.TheVariants.{Order, Part as PartOf};

    // The numbers of the demands of an order.
    fn numbers_in(&self, alloc: Global, order: Code) -> Result<NumberList, AllocError>
        ensures { IfOk result
            (λ numbers. numbers ≡ numbers_about (content_in self.now) (Order order)) }
    {
        let lines = rows_with(self.strays, &self.orders, &self.demands, order);
        let numbers = numbers_of(alloc, lines, order)?;
        Ok(numbers)
    }

    /// The numbers of the demands that a story is about: those of its order.
    pub fn numbers_about(&self, alloc: Global, about: &Subject) -> Result<NumberList, AllocError>
        ensures { IfOk result (λ numbers. numbers ≡ numbers_about (content_in self.now) about.now) }
    {
        match about {
            Subject::Order(code) => self.numbers_in(alloc, *code),
            Subject::Job(_) => Ok(NumberList::new(alloc)),
            Subject::Part(_) => Ok(NumberList::new(alloc)),
        }
    }

    // The jobs that have pieces of these demands.
    fn acts_of_order(
        &self,
        alloc: Global,
        order: Code,
        numbers: &[u32],
    ) -> Result<NumberList, AllocError>
        requires { numbers.now ≡ numbers_about (content_in self.now) (Order order) }
        ensures { IfOk result (λ acts. (entry : EntryOf)
            → IsTrue (is_about (content_in self.now) (Order order) entry)
            → HasKey (Order order) acts entry) }
    {
        let acts = self.works.jobs_for(alloc, numbers)?;
        Ok(acts)
    }

    // The act that made a part, and the jobs on it.
    fn acts_of_part(&self, alloc: Global, name: PartName) -> Result<NumberList, AllocError>
        ensures { IfOk result (λ acts. (entry : EntryOf)
            → IsTrue (is_about (content_in self.now) (PartOf name) entry)
            → HasKey (PartOf name) acts entry) }
    {
        let acts = self.works.acts_of_part(alloc, name)?;
        Ok(acts)
    }

    /// Jobs and acts such that each entry about a subject with these demands has one of them, the code of the order or the name of
    /// the part.
    pub fn acts_about(
        &self,
        alloc: Global,
        about: &Subject,
        numbers: &[u32],
    ) -> Result<NumberList, AllocError>
        requires { numbers.now ≡ numbers_about (content_in self.now) about.now }
        ensures { IfOk result (λ acts. (entry : EntryOf)
            → IsTrue (is_about (content_in self.now) about.now entry)
            → HasKey about.now acts entry) }
    {
        match about {
            Subject::Order(code) => self.acts_of_order(alloc, *code, numbers),
            Subject::Job(number) => one_act(alloc, *number),
            Subject::Part(name) => self.acts_of_part(alloc, *name),
        }
    }

    // Whether an entry is about an order with these demands.
    fn is_about_order(&self, order: Code, numbers: &[u32], entry: &Entry) -> bool
        requires { numbers.now ≡ numbers_about (content_in self.now) (Order order) }
        ensures { result ≡ is_about (content_in self.now) (Order order) entry.now }
    {
        let named = is_code_of(order, &entry.order);
        let worked = has_piece_in(&self.jobs, entry.job, numbers);
        named | worked
    }

    // Whether an entry is about a part.
    fn is_about_part(&self, name: PartName, entry: &Entry) -> bool
        ensures { result ≡ is_about (content_in self.now) (PartOf name) entry.now }
    {
        let made = made_part(entry, name);
        let named = is_name_of(name, entry.part);
        let worked = is_on_in(&self.jobs, entry.job, name);
        made | (named | worked)
    }

    /// Whether an entry is about a subject with these demands.
    pub fn is_about(&self, about: &Subject, numbers: &[u32], entry: &Entry) -> bool
        requires { numbers.now ≡ numbers_about (content_in self.now) about.now }
        ensures { result ≡ is_about (content_in self.now) about.now entry.now }
    {
        match about {
            Subject::Order(code) => self.is_about_order(*code, numbers, entry),
            Subject::Job(number) => 1 <= *number && entry.job == *number,
            Subject::Part(name) => self.is_about_part(*name, entry),
        }
    }
}
