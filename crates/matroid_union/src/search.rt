ghost use Rattle.std.specs.Prelude.{◌≡◌, ◌+◌, ◌++◌, ◌∷◌, [], ◌<◌, ◌^◌, length, replicate, IfOk, OnOk, IfSome, None, true, false, slice_set, slice_index};
ghost use Rattle.matroid_union.specs.Growing.{AreKept, AreFilled};
ghost use Rattle.matroid_union.specs.Parts.{own_of, part, kept, IsPacking, End};
ghost use Rattle.matroid_union.specs.Search.{IsSearch, IsFull, IsShut, Begins};

use crate::ends::{PathEnd, first_end};
use crate::growing::ReachedSets;
use crate::matroid::Matroid;
use crate::packing::{find_place, is_part};
use graph_core::{Items, Marks, NoMemory};
use std::alloc::Global;

/// A search: the elements that it reached, in a queue, each with the place of the one that reached it,
/// beside the dead ones, which earlier searches reached in vain and which count as reached.
#[derive(Drop)]
pub(crate) struct Search {
    pub(crate) dead: Marks,
    pub(crate) reached: Marks,
    pub(crate) queue: Vec<u32>,
    pub(crate) back: Vec<usize>,
}

impl Search {
    /// No search yet, so that no element is dead.
    pub(crate) fn new(alloc: Global, n: usize) -> Result<Search, NoMemory>
        ensures dead { IfOk result (λ s. s.dead ≡ replicate n false) }
        ensures reached { IfOk result (λ s. s.reached ≡ replicate n false) }
    {
        let dead = blank(alloc, n)?;
        let reached = blank(alloc, n)?;
        Ok(Search {
            dead,
            reached,
            queue: Vec::new(alloc),
            back: Vec::new(alloc),
        })
    }

    /// Starts again, from an element that isn't dead.
    pub(crate) fn restart(&mut self, element: u32) -> Result<(), NoMemory>
        requires below { element < length self.old.dead }
        requires alike { length self.old.reached ≡ length self.old.dead }
        ensures alike { length self.new.reached ≡ length self.old.dead }
        ensures dead { self.new.dead ≡ self.old.dead }
        ensures reached { OnOk result (self.new.reached ≡ slice_set self.old.dead element true) }
        ensures queue { OnOk result (self.new.queue.items ≡ element ∷ []) }
        ensures back { OnOk result (self.new.back.items ≡ 0 ∷ []) }
    {
        copy_marks(&mut self.reached, &self.dead);
        self.queue.clear();
        self.back.clear();
        self.reach(element, 0)
    }

    /// Reaches an element from the one at place `from`.
    fn reach(&mut self, element: u32, from: usize) -> Result<(), NoMemory>
        requires { element < length self.old.reached }
        ensures alike { length self.new.reached ≡ length self.old.reached }
        ensures dead { self.new.dead ≡ self.old.dead }
        ensures reached { OnOk result (self.new.reached ≡ slice_set self.old.reached element true) }
        ensures queue { OnOk result (self.new.queue.items ≡ self.old.queue.items ++ element ∷ []) }
        ensures back { OnOk result (self.new.back.items ≡ self.old.back.items ++ from ∷ []) }
    {
        if self.queue.push(element).is_err() {
            return Err(NoMemory);
        }
        if self.back.push(from).is_err() {
            return Err(NoMemory);
        }
        *self.reached.item_mut(element as usize) = true;
        Ok(())
    }

    /// Ends in vain: what was reached is dead.
    pub(crate) fn settle(&mut self)
        requires { length self.old.reached ≡ length self.old.dead }
        ensures reached { self.new.reached ≡ self.old.reached }
        ensures dead { self.new.dead ≡ self.old.reached }
    {
        copy_marks(&mut self.dead, &self.reached);
    }
}

/// No element.
pub(crate) fn blank(alloc: Global, n: usize) -> Result<Marks, NoMemory>
    ensures { IfOk result (λ set. set ≡ replicate n false) }
{
    let mut set = Marks::new(alloc);
    for _ in 0..n {
        set.push(false)?;
    }
    Ok(set)
}

fn copy_marks(to: &mut Marks, from: &Marks)
    requires { length to.old ≡ length from.now }
    ensures { to.new ≡ from.now }
{
    for i in 0..from.len() {
        *to.item_mut(i) = *from.item(i);
    }
}

/// Reaches each element of the part that it can give for the one at place `at`.
fn scan_part<M: Matroid>(
    matroid: &M,
    met: &mut ReachedSets<M::Set>,
    owner: &[Option<u32>],
    search: &mut Search,
    at: usize,
    number: u32,
    k: u32,
) -> Result<(), NoMemory>
    requires all { length owner.now ≡ M.count matroid.now }
    requires few { M.count matroid.now < 2 ^ 32 }
    requires below { number < k }
    requires place { at < length search.old.queue.items }
    requires packing { IsPacking (M.count matroid.now) (M.free matroid.now) k (own_of owner.now) }
    requires met { AreFilled (M.keeps matroid.now) M.members (M.count matroid.now) k (λ p. kept (own_of owner.now) search.old.reached p (M.count matroid.now)) met.old.parts }
    requires trial { M.keeps matroid.now met.old.trial }
    requires search { IsSearch (M.count matroid.now) (M.free matroid.now) k (own_of owner.now) search.old.dead search.old.reached search.old.queue.items search.old.back.items at }
    requires shut { IsShut (M.count matroid.now) (M.free matroid.now) k (own_of owner.now) (slice_index search.old.queue.items at) }
    requires passed { IsFull (M.count matroid.now) (M.free matroid.now) number (own_of owner.now) search.old.reached (slice_index search.old.queue.items at) }
    ensures met { OnOk result (AreFilled (M.keeps matroid.now) M.members (M.count matroid.now) k (λ p. kept (own_of owner.now) search.new.reached p (M.count matroid.now)) met.new.parts) }
    ensures trial { OnOk result (M.keeps matroid.now met.new.trial) }
    ensures dead { search.new.dead ≡ search.old.dead }
    ensures begins { OnOk result (Begins search.old.queue.items search.new.queue.items) }
    ensures search { OnOk result (IsSearch (M.count matroid.now) (M.free matroid.now) k (own_of owner.now) search.new.dead search.new.reached search.new.queue.items search.new.back.items at) }
    ensures passed { OnOk result (IsFull (M.count matroid.now) (M.free matroid.now) (number + 1) (own_of owner.now) search.new.reached (slice_index search.new.queue.items at)) }
{
    let element = search.queue[at];
    if is_part(owner[element as usize], number) {
        return Ok(());
    }
    'reach: while matroid.takes(met.parts.item(number as usize), element) {
        let place = find_place(
            matroid,
            &mut met.trial,
            owner,
            &search.reached,
            number,
            element,
        );
        search.reach(place as u32, at)?;
        matroid.add(met.parts.item_mut(number as usize), place as u32);
    }
    Ok(())
}

/// Reaches each element that a part can give for the one at place `at`.
fn scan_element<M: Matroid>(
    matroid: &M,
    met: &mut ReachedSets<M::Set>,
    owner: &[Option<u32>],
    search: &mut Search,
    at: usize,
    k: u32,
) -> Result<(), NoMemory>
    requires all { length owner.now ≡ M.count matroid.now }
    requires few { M.count matroid.now < 2 ^ 32 }
    requires place { at < length search.old.queue.items }
    requires packing { IsPacking (M.count matroid.now) (M.free matroid.now) k (own_of owner.now) }
    requires met { AreFilled (M.keeps matroid.now) M.members (M.count matroid.now) k (λ p. kept (own_of owner.now) search.old.reached p (M.count matroid.now)) met.old.parts }
    requires trial { M.keeps matroid.now met.old.trial }
    requires search { IsSearch (M.count matroid.now) (M.free matroid.now) k (own_of owner.now) search.old.dead search.old.reached search.old.queue.items search.old.back.items at }
    requires shut { IsShut (M.count matroid.now) (M.free matroid.now) k (own_of owner.now) (slice_index search.old.queue.items at) }
    ensures met { OnOk result (AreFilled (M.keeps matroid.now) M.members (M.count matroid.now) k (λ p. kept (own_of owner.now) search.new.reached p (M.count matroid.now)) met.new.parts) }
    ensures trial { OnOk result (M.keeps matroid.now met.new.trial) }
    ensures dead { search.new.dead ≡ search.old.dead }
    ensures begins { OnOk result (Begins search.old.queue.items search.new.queue.items) }
    ensures search { OnOk result (IsSearch (M.count matroid.now) (M.free matroid.now) k (own_of owner.now) search.new.dead search.new.reached search.new.queue.items search.new.back.items (at + 1)) }
{
    for number in 0..k {
        scan_part(matroid, met, owner, search, at, number, k)?;
    }
    Ok(())
}

/// Searches until a part can take an element beside what it has. Each element is tested for that
/// before any is looked at for what it could reach.
pub(crate) fn find_end<M: Matroid>(
    matroid: &M,
    whole: &Items<M::Set>,
    met: &mut ReachedSets<M::Set>,
    owner: &[Option<u32>],
    search: &mut Search,
    k: u32,
) -> Result<Option<PathEnd>, NoMemory>
    requires all { length owner.now ≡ M.count matroid.now }
    requires few { M.count matroid.now < 2 ^ 32 }
    requires packing { IsPacking (M.count matroid.now) (M.free matroid.now) k (own_of owner.now) }
    requires whole { AreFilled (M.keeps matroid.now) M.members (M.count matroid.now) k (part (own_of owner.now)) whole.now }
    requires met { AreFilled (M.keeps matroid.now) M.members (M.count matroid.now) k (λ p. kept (own_of owner.now) search.old.reached p (M.count matroid.now)) met.old.parts }
    requires trial { M.keeps matroid.now met.old.trial }
    requires search { IsSearch (M.count matroid.now) (M.free matroid.now) k (own_of owner.now) search.old.dead search.old.reached search.old.queue.items search.old.back.items 0 }
    requires some { 0 < length search.old.queue.items }
    ensures met { OnOk result (AreKept (M.keeps matroid.now) k met.new.parts) }
    ensures trial { OnOk result (M.keeps matroid.now met.new.trial) }
    ensures dead { search.new.dead ≡ search.old.dead }
    ensures some { OnOk result (0 < length search.new.queue.items) }
    ensures search { OnOk result (IsSearch (M.count matroid.now) (M.free matroid.now) k (own_of owner.now) search.new.dead search.new.reached search.new.queue.items search.new.back.items 0) }
    ensures place { IfOk result (λ found. IfSome found (λ end. end.at < length search.new.queue.items)) }
    ensures found { IfOk result (λ found. IfSome found (λ end. End (M.count matroid.now) (M.free matroid.now) k (own_of owner.now) (slice_index search.new.queue.items) end.at end.number)) }
    ensures stuck { IfOk result (λ found. found ≡ None → IsSearch (M.count matroid.now) (M.free matroid.now) k (own_of owner.now) search.new.dead search.new.reached search.new.queue.items search.new.back.items (length search.new.queue.items)) }
{
    let mut at: usize = 0;
    let mut tested: usize = 0;
    'places: loop {
        if let Some(end) = first_end(matroid, whole, owner, &search.queue, tested, k) {
            return Ok(Some(end));
        }
        if at == search.queue.len() {
            return Ok(None);
        }
        tested = search.queue.len();
        scan_element(matroid, met, owner, search, at, k)?;
        at += 1;
    }
}
