//! The collections that names denote.

ghost use Rattle.std.specs.Prelude.{◌≡◌, ◌≤◌, [], pos, unwrap_or, IfOk, IfSome};
ghost use Rattle.std.specs.Option.{option_copied};
ghost use Rattle.dv_bag.specs.Bag.{least, most, sum_or_overflow, total, values_of};
ghost use Rattle.dv_bag.specs.Collections.{count_in, values_in};
ghost use Rattle.dv_bag.specs.Limits.{greatest_count};
ghost use Rattle.dv_bag.specs.Reading.{held_at};
ghost use Rattle.dv_bag.specs.declared.collection.Collection.TheVariants as collection;
ghost use Rattle.dv_eval.specs.Contexts.{collection_seen, context_of, moment_of};
ghost use Rattle.dv_eval.specs.Meaning.{bag_or_none, bag_received, collection_of_name, first, queue_or_none};

use crate::moment::{Context, Moment};
use crate::scope::Scope;
use dv_bag::{Bag, Collection, DatumView, Fault, Queue, State};
use std::alloc::{AllocError, Global};

/// What a name denotes where a collection is read.
#[derive(Clone, Copy)]
pub(crate) enum CollectionView<'a> {
    /// A bag of the state, or one that arrived.
    Bag(&'a Bag),
    /// A queue of the state.
    Queue(&'a Queue),
    /// No collection: read as an empty bag.
    Nothing,
}

impl CollectionView<'_> {
    /// The number of its values, each copy counted.
    pub(crate) fn count(&self) -> i64
        requires { count_in (collection_seen self.now) ≤ greatest_count }
        ensures { result ≡ pos (count_in (collection_seen self.now)) }
    {
        match self {
            CollectionView::Bag(bag) => bag.size() as i64,
            CollectionView::Queue(queue) => queue.len() as i64,
            CollectionView::Nothing => 0,
        }
    }

    /// The sum of the values of a bag, each copy added.
    ///
    /// # Errors
    ///
    /// `Overflow` if the exact sum is outside -2^63..2^63-1.
    pub(crate) fn sum(&self) -> Result<i64, Fault>
        requires { count_in (collection_seen self.now) ≤ greatest_count }
        ensures { result ≡ sum_or_overflow (bag_or_none (collection_seen self.now)) }
    {
        match self {
            CollectionView::Bag(bag) => bag.sum(),
            CollectionView::Queue(_) | CollectionView::Nothing => Ok(0),
        }
    }

    /// The least value of a bag.
    pub(crate) fn least(&self) -> Option<i64>
        ensures { result ≡ least (bag_or_none (collection_seen self.now)) }
    {
        match self {
            CollectionView::Bag(bag) => bag.least(),
            CollectionView::Queue(_) | CollectionView::Nothing => None,
        }
    }

    /// The greatest value of a bag.
    pub(crate) fn most(&self) -> Option<i64>
        ensures { result ≡ most (bag_or_none (collection_seen self.now)) }
    {
        match self {
            CollectionView::Bag(bag) => bag.most(),
            CollectionView::Queue(_) | CollectionView::Nothing => None,
        }
    }

    /// The first value of a queue.
    pub(crate) fn first(&self) -> Option<i64>
        ensures { result ≡ first (queue_or_none (collection_seen self.now)) }
    {
        match self {
            CollectionView::Queue(queue) => queue.get(0),
            CollectionView::Bag(_) | CollectionView::Nothing => None,
        }
    }

    /// The bag, if it is one.
    pub(crate) fn bag(&self) -> Option<&Bag>
        requires { count_in (collection_seen self.now) ≤ greatest_count }
        ensures bag { unwrap_or (option_copied result) []
            ≡ bag_or_none (collection_seen self.now) }
        ensures few { IfSome result (λ bag. total bag.now ≤ greatest_count) }
    {
        match self {
            CollectionView::Bag(bag) => Some(*bag),
            CollectionView::Queue(_) | CollectionView::Nothing => None,
        }
    }

    /// The values in the order of a loop, each with its number of copies.
    ///
    /// # Errors
    ///
    /// No memory for them.
    #[tactic(auto, using(dv_bag::proofs::Collections::values_of_singles))]
    pub(crate) fn pairs(&self, alloc: Global) -> Result<Vec<(i64, u64)>, AllocError>
        ensures { IfOk result (λ pairs. values_of pairs.items
            ≡ values_in (collection_seen self.now)) }
    {
        match self {
            CollectionView::Bag(bag) => Ok(copied(alloc, bag.pairs())?),
            CollectionView::Queue(queue) => Ok(queue.singles(alloc)?),
            CollectionView::Nothing => Ok(Vec::new(alloc)),
        }
    }
}

// A copy of the pairs.
fn copied(alloc: Global, pairs: &[(i64, u64)]) -> Result<Vec<(i64, u64)>, AllocError>
    ensures { IfOk result (λ copied. copied.items ≡ pairs.now) }
{
    let mut copied = Vec::with_capacity(alloc, pairs.len())?;
    copied.extend_from_slice(pairs)?;
    Ok(copied)
}

/// The collection that a name denotes.
pub(crate) fn collection_of_name<'a>(
    name: u32,
    moment: &'a Moment,
    scope: &Scope,
) -> CollectionView<'a>
    ensures collection { collection_seen result
        ≡ collection_of_name scope.now (moment_of moment.now) name }
    ensures few { count_in (collection_seen result) ≤ greatest_count }
{
    match scope.variable(name) {
        Some(index) => held_at(index, moment.state),
        None => bag_received(scope.input(name), moment.context),
    }
}

// The collection of the state variable at an index.
fn held_at(index: usize, state: &State) -> CollectionView<'_>
    ensures held { collection_seen result ≡ held_at state.now.variables index }
    ensures few { count_in (collection_seen result) ≤ greatest_count }
{
    match state.variables.get(index) {
        Some(DatumView::Held(Collection::Bag(bag))) => CollectionView::Bag(bag),
        Some(DatumView::Held(Collection::Queue(queue))) => CollectionView::Queue(queue),
        Some(DatumView::Number(_) | DatumView::Flag(_)) | None => CollectionView::Nothing,
    }
}

// The bag that arrived at an input port.
fn bag_received<'a>(port: Option<usize>, context: &'a Context) -> CollectionView<'a>
    ensures bag { collection_seen result
        ≡ collection.Bag (bag_received (context_of context.now).arrivals port) }
    ensures few { count_in (collection_seen result) ≤ greatest_count }
{
    let Some(port) = port else {
        return CollectionView::Nothing;
    };
    match context.arrivals().bag(port) {
        Some(bag) => CollectionView::Bag(bag),
        None => CollectionView::Nothing,
    }
}
