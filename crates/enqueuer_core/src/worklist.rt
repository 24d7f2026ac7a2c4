//! The worklist: the pending members, threaded through one list.
ghost use Rattle.std.specs.Prelude.{◌≡◌, ◌<◌, ◌≤◌, ◌∷◌, [], ◌++◌, ℕ, true, IfOk};
ghost use Rattle.index_links.specs.Lists.{nodes_in};
ghost use Rattle.world_state.specs.declared.fact.Fact.TheVariants.{Live};
ghost use Rattle.world_state.specs.Worlds.{has_fact};
ghost use Rattle.enqueuer_core.specs.Core.{numbers_where, times, is_held};
ghost use Rattle.enqueuer_core.specs.Worklists.{IsWorklist};

use index_links::Links;
use std::alloc::{AllocError, Global};
use world_state::World;

/// The live members, in number order.
pub fn live_members(alloc: Global, world: &World, members: u32) -> Result<Links, AllocError>
    ensures { IfOk result (λ pending. IsWorklist pending members (numbers_where (λ n. has_fact world.now (Live n)) members)) }
{
    let mut pending = Links::new(alloc, members, 1)?;
    for n in 0..members {
        if world.is_live(n) {
            pending.push_back(0, n);
        }
    }
    Ok(pending)
}

/// Puts each held member behind all others, in number order.
pub fn put_held(pending: &mut Links, held: &[Option<u32>], members: u32)
    requires list { IsWorklist pending.old members (nodes_in pending.old 0) }
    requires free { (n : ℕ) → is_held held.now n ≡ true → times n (nodes_in pending.old 0) ≡ 0 }
    ensures { IsWorklist pending.new members (nodes_in pending.old 0 ++ numbers_where (is_held held.now) members) }
{
    for n in 0..members {
        if holds_member(held, n) {
            pending.push_back(0, n);
        }
    }
}

fn holds_member(held: &[Option<u32>], member: u32) -> bool
    ensures { result ≡ is_held held.now member }
{
    held.iter().any(|h| *h == Some(member))
}
