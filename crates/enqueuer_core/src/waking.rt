//! Who becomes pending after a join.
ghost use Rattle.std.specs.Prelude.{◌≡◌, ◌<◌, ◌≤◌, ◌∷◌, [], ◌++◌, ◌||◌, ◌&&◌, ℕ, Bool, true, false, nat_eq, IsTrue, OnOk, length, slice_set, List};
ghost use Rattle.std.specs.List.{AllByRecursion};
ghost use Rattle.index_links.specs.Lists.{nodes_in, is_in};
ghost use Rattle.world_state.specs.declared.fact.Fact.{Fact};
ghost use Rattle.world_state.specs.declared.fact.Fact.TheVariants.{In};
ghost use Rattle.world_state.specs.Reads.{is_read};
ghost use Rattle.enqueuer_core.specs.Core.{numbers_where, times, is_woken, without};
ghost use Rattle.enqueuer_core.specs.Worklists.{IsWorklist};
ghost use Rattle.enqueuer_core.specs.Hints.{has_read, reads_at, is_listed, is_marked, AreListed, AreListedOrMarked, IsMarking};

use crate::readers::Readers;
use index_links::Links;
use std::alloc::AllocError;
use world_state::{Fact, Impact};

/// Puts a member into the list of each slot that its impact has read, where the join is whole. An `Err` may have put
/// it into some of them, which does no harm.
pub fn enlist(readers: &mut Vec<Readers>, impact: &Impact, whole: bool) -> Result<(), AllocError>
    requires { AllByRecursion (λ r. r.slot < length readers.old.items) impact.now.reads }
    ensures kept { (slot n : ℕ) → is_listed readers.old.items slot n ≡ true → is_listed readers.new.items slot n ≡ true }
    ensures long { length readers.new.items ≡ length readers.old.items }
    ensures ok { OnOk result (whole ≡ true → (slot : ℕ) → is_read impact.now.reads slot ≡ true → is_listed readers.new.items slot impact.now.member ≡ true) }
{
    if !whole {
        return Ok(());
    }
    for read in impact.reads.as_slice() {
        enlist_one(readers, read.slot, impact.member)?;
    }
    Ok(())
}

fn enlist_one(readers: &mut Vec<Readers>, slot: u32, member: u32) -> Result<(), AllocError>
    requires { slot < length readers.old.items }
    ensures kept { (s n : ℕ) → is_listed readers.old.items s n ≡ true → is_listed readers.new.items s n ≡ true }
    ensures long { length readers.new.items ≡ length readers.old.items }
    ensures ok { OnOk result (is_listed readers.new.items slot member ≡ true) }
{
    let list = &mut readers[slot as usize];
    list.add(member)
}

/// Puts each member that a join wakes behind all others, in number order, and forgets what it had settled on. That
/// takes time in the facts, in the lists of the slots that they raise, and one look at each member's mark, or none where
/// a whole join added nothing.
pub fn wake(
    pending: &mut Links,
    settled: &mut Vec<Option<Impact>>,
    readers: &mut Vec<Readers>,
    marks: &mut Vec<bool>,
    added: &[Fact],
    members: u32,
    joined: u32,
    whole: bool,
)
    requires list { IsWorklist pending.old members (nodes_in pending.old 0) }
    requires room { length settled.old.items ≡ members }
    requires free { (n : ℕ) → n < members → is_woken added.now settled.old.items joined whole n ≡ true → times n (nodes_in pending.old 0) ≡ 0 }
    requires listed { AreListed readers.old.items settled.old.items }
    requires marks { length marks.old.items ≡ members }
    requires unmarked { (n : ℕ) → is_marked marks.old.items n ≡ false }
    requires joined { joined < members }
    ensures pending { IsWorklist pending.new members (nodes_in pending.old 0 ++ numbers_where (is_woken added.now settled.old.items joined whole) members) }
    ensures settled { settled.new.items ≡ without (is_woken added.now settled.old.items joined whole) members settled.old.items }
    ensures listed { AreListed readers.new.items settled.new.items }
    ensures slots { length readers.new.items ≡ length readers.old.items }
    ensures marks { length marks.new.items ≡ members }
    ensures unmarked { (n : ℕ) → is_marked marks.new.items n ≡ false }
{
    if is_quiet(added, whole) {
        return;
    }
    mark_woken(readers, marks, added, settled.as_slice(), joined, whole);
    put_marked(pending, settled, marks, members);
}

// A whole join that adds nothing wakes nobody.
fn is_quiet(added: &[Fact], whole: bool) -> bool
    ensures { IsTrue result → (added.now ≡ []) × (whole ≡ true) }
{
    added.is_empty() && whole
}

// Marks each member that a join wakes.
fn mark_woken(
    readers: &mut Vec<Readers>,
    marks: &mut Vec<bool>,
    added: &[Fact],
    settled: &[Option<Impact>],
    joined: u32,
    whole: bool,
)
    requires listed { AreListed readers.old.items settled.now }
    requires marks { length marks.old.items ≡ length settled.now }
    requires unmarked { (n : ℕ) → is_marked marks.old.items n ≡ false }
    requires joined { joined < length settled.now }
    ensures half { AreListedOrMarked readers.new.items marks.new.items settled.now }
    ensures marked { (n : ℕ) → n < length settled.now → is_marked marks.new.items n ≡ is_woken added.now settled.now joined whole n }
    ensures slots { length readers.new.items ≡ length readers.old.items }
    ensures marks { length marks.new.items ≡ length settled.now }
{
    mark_all(readers, marks, added, settled);
    if !whole {
        marks[joined as usize] = true;
    }
}

// Marks each member that some of the facts wake, and begins the lists of the slots that they raise anew.
fn mark_all(
    readers: &mut Vec<Readers>,
    marks: &mut Vec<bool>,
    added: &[Fact],
    settled: &[Option<Impact>],
)
    ensures slots { length readers.new.items ≡ length readers.old.items }
    ensures marking { (target : ℕ → Bool) → IsMarking target readers.old.items marks.old.items settled.now added.now → IsMarking target readers.new.items marks.new.items settled.now [] }
{
    for fact in added {
        mark_by(readers, marks, *fact, settled);
    }
}

fn mark_by(
    readers: &mut Vec<Readers>,
    marks: &mut Vec<bool>,
    fact: Fact,
    settled: &[Option<Impact>],
)
    ensures slots { length readers.new.items ≡ length readers.old.items }
    ensures marking { (target : ℕ → Bool) (rest : List Fact) → IsMarking target readers.old.items marks.old.items settled.now (fact ∷ rest) → IsMarking target readers.new.items marks.new.items settled.now rest }
{
    match fact {
        Fact::In { slot, kind: _ } => mark_slot(readers, marks, slot, settled),
        Fact::Live { member } => mark_member(marks, member),
    }
}

// Marks the readers of a slot, and begins its list anew.
fn mark_slot(
    readers: &mut Vec<Readers>,
    marks: &mut Vec<bool>,
    slot: u32,
    settled: &[Option<Impact>],
)
    ensures slots { length readers.new.items ≡ length readers.old.items }
    ensures marking { (target : ℕ → Bool) (kind : ℕ) (rest : List Fact) → IsMarking target readers.old.items marks.old.items settled.now (In slot kind ∷ rest) → IsMarking target readers.new.items marks.new.items settled.now rest }
{
    if (slot as usize) < readers.len() {
        let alloc = *readers.allocator();
        mark_readers(marks, readers[slot as usize].as_slice(), slot, settled);
        readers[slot as usize] = Readers::new(alloc);
    }
}

// Marks those of the members that settled on having read the slot.
fn mark_readers(marks: &mut Vec<bool>, readers: &[u32], slot: u32, settled: &[Option<Impact>])
    ensures long { length marks.new.items ≡ length marks.old.items }
    ensures marked { length marks.old.items ≡ length settled.now → (n : ℕ) → is_marked marks.new.items n ≡ (is_marked marks.old.items n || (is_in n readers.now && reads_at settled.now slot n)) }
{
    for member in readers {
        mark_reader(marks, *member, slot, settled);
    }
}

fn mark_reader(marks: &mut Vec<bool>, member: u32, slot: u32, settled: &[Option<Impact>])
    ensures long { length marks.new.items ≡ length marks.old.items }
    ensures marked { length marks.old.items ≡ length settled.now → (n : ℕ) → is_marked marks.new.items n ≡ (is_marked marks.old.items n || (nat_eq n member && reads_at settled.now slot n)) }
{
    let member = member as usize;
    if member < marks.len() && member < settled.len() && has_read(&settled[member], slot) {
        marks[member] = true;
    }
}

fn has_read(settled: &Option<Impact>, slot: u32) -> bool
    ensures { result ≡ has_read slot settled.now }
{
    match settled {
        Some(impact) => impact.reads.has(slot),
        None => false,
    }
}

fn mark_member(marks: &mut Vec<bool>, member: u32)
    ensures within { member < length marks.old.items → marks.new.items ≡ slice_set marks.old.items member true }
    ensures past { length marks.old.items ≤ member → marks.new.items ≡ marks.old.items }
{
    if (member as usize) < marks.len() {
        marks[member as usize] = true;
    }
}

// Puts each marked member behind all others, in number order, and forgets what it had settled on and its mark.
fn put_marked(
    pending: &mut Links,
    settled: &mut Vec<Option<Impact>>,
    marks: &mut Vec<bool>,
    members: u32,
)
    requires list { IsWorklist pending.old members (nodes_in pending.old 0) }
    requires room { length settled.old.items ≡ members }
    requires marks { length marks.old.items ≡ members }
    requires free { (n : ℕ) → n < members → is_marked marks.old.items n ≡ true → times n (nodes_in pending.old 0) ≡ 0 }
    ensures pending { IsWorklist pending.new members (nodes_in pending.old 0 ++ numbers_where (is_marked marks.old.items) members) }
    ensures settled { settled.new.items ≡ without (is_marked marks.old.items) members settled.old.items }
    ensures marks { length marks.new.items ≡ members }
    ensures unmarked { (n : ℕ) → is_marked marks.new.items n ≡ false }
{
    for n in 0..members {
        if marks[n as usize] {
            pending.push_back(0, n);
            settled[n as usize] = None;
            marks[n as usize] = false;
        }
    }
}
