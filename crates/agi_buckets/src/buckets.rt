// The lists of the buckets.

ghost use Rattle.std.specs.Prelude.{◌≡◌, ◌≢◌, ◌≤◌, ◌<◌, ◌+◌, ℕ, List, Contains, IfOk};
ghost use Rattle.agi_buckets.specs.Buckets.{AreBuckets, HaveBuckets, IsLedToBy, Puts, Removes, list_at, own_list};
ghost use Rattle.agi_buckets.specs.Walks.{PointsAtMember, LeadsTo, PassesOver};
ghost use Rattle.life_limits.specs.declared.TheConstants.{BUCKETS};

use crate::Nexts;
use life_limits::{BUCKETS, NO_INODE};
use life_ports::NoMemory;
use std::alloc::Global;

/// Puts an inode at the head of its bucket, which is its number modulo 64.
pub fn put<N: Nexts>(n: &mut N, agino: u32)
    requires placed { Contains (N.pointers n.old).places agino }
    requires absent { HaveBuckets (N.pointers n.old) (λ lists. ¬ Contains (own_list lists agino) agino) }
    requires room { 1 ≤ N.room n.old }
    ensures put { (lists : List (List ℕ)) → AreBuckets (N.pointers n.old) lists
        → Puts (N.pointers n.old) (N.pointers n.new) agino lists }
    ensures room { N.room n.old ≤ N.room n.new + 1 }
{
    let bucket = agino % BUCKETS;
    let first = n.head(bucket);
    n.set_next(agino, first);
    n.set_head(bucket, agino);
}

/// The member of a list that leads to an inode, from a member that stands before it.
fn find_before<N: Nexts>(n: &N, first: u32, agino: u32) -> u32
    requires behind { first ≢ agino }
    requires listed { LeadsTo (N.pointers n.now) first agino }
    ensures { PointsAtMember (N.pointers n.now) first agino result }
{
    let mut at = first;
    loop {
        let next = n.next(at);
        if next == agino {
            return at;
        }
        at = next;
    }
}

/// Lets the pointer that leads to an inode lead to the one behind it. It gives the inode before it, and none where it is the head.
fn pass_over<N: Nexts>(n: &mut N, agino: u32) -> Option<u32>
    requires present { HaveBuckets (N.pointers n.old) (λ lists. Contains (own_list lists agino) agino) }
    requires room { 1 ≤ N.room n.old }
    ensures passed { (lists : List (List ℕ)) → AreBuckets (N.pointers n.old) lists
        → PassesOver (N.pointers n.old) (N.pointers n.new) agino lists }
    ensures before { (lists : List (List ℕ)) → AreBuckets (N.pointers n.old) lists → IsLedToBy (N.pointers n.old) lists agino result }
    ensures room { N.room n.old ≤ N.room n.new + 1 }
{
    let bucket = agino % BUCKETS;
    let first = n.head(bucket);
    let behind = n.next(agino);
    if first == agino {
        n.set_head(bucket, behind);
        None
    } else {
        let before = find_before(n, first, agino);
        n.set_next(before, behind);
        Some(before)
    }
}

/// Takes an inode out of its bucket. It walks the bucket up to the inode, and gives the one before it, and none where it is the head.
pub fn remove<N: Nexts>(n: &mut N, agino: u32) -> Option<u32>
    requires present { HaveBuckets (N.pointers n.old) (λ lists. Contains (own_list lists agino) agino) }
    requires room { 2 ≤ N.room n.old }
    ensures removed { (lists : List (List ℕ)) → AreBuckets (N.pointers n.old) lists
        → Removes (N.pointers n.old) (N.pointers n.new) agino lists }
    ensures before { (lists : List (List ℕ)) → AreBuckets (N.pointers n.old) lists → IsLedToBy (N.pointers n.old) lists agino result }
    ensures room { N.room n.old ≤ N.room n.new + 2 }
{
    let before = pass_over(n, agino);
    n.set_next(agino, NO_INODE);
    before
}

/// The members of a bucket, its head first.
pub fn list<N: Nexts>(alloc: Global, n: &N, bucket: u32) -> Result<Vec<u32>, NoMemory>
    requires bucket { bucket < BUCKETS }
    requires lists { (lists : List (List ℕ)) × AreBuckets (N.pointers n.now) lists }
    ensures { IfOk result (λ found. (lists : List (List ℕ)) → AreBuckets (N.pointers n.now) lists
        → found.items ≡ list_at lists bucket) }
{
    let mut members = Vec::new(alloc);
    let mut at = n.head(bucket);
    while at != NO_INODE {
        members.push(at)?;
        at = n.next(at);
    }
    Ok(members)
}
