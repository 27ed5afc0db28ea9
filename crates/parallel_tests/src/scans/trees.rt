ghost use Rattle.std.specs.Prelude.{◌≡◌, ℕ, ◌+◌, ◌<◌, ◌≤◌, length, sum_by, IfOk};

use super::{VALUES, last_of};
use crate::checks::{holds, same};
use prefix_scan::{Cuts, Flat, Last, Monoid, Prefixes, TotalsTree, offsets_tree};
use std::alloc::{AllocError, Global};
use std::test::Fail;

/// The value that takes a place.
const FIVE: Last = Last {
    value: Some(5),
    parts: 1,
};

/// Another one.
const SEVEN: Last = Last {
    value: Some(7),
    parts: 1,
};

// Of 1, none, 3 the first two are joined to 1, and all three to 3. With 5 in the place of none the
// first two are joined to 5. Before the chunk from 0 to 2 is nothing, and before the one from 2 to
// 3 are the first two.
#[test]
fn scan_and_cuts(rt: HostRuntime) -> Result<(), Fail> {
    let mut tree = TotalsTree::build(rt.alloc(), &VALUES)?;
    same(&rt, tree.len(), 3);
    same(&rt, tree.prefix(2), last_of(Some(1), 2));
    same(&rt, tree.prefix(3), last_of(Some(3), 3));
    tree.set(1, FIVE);
    same(&rt, tree.prefix(2), last_of(Some(5), 2));
    let cuts = Cuts::at(rt.alloc(), &[2, 3], 3)?;
    let before = offsets_tree(rt.alloc(), &tree, &cuts)?;
    let expected = [last_of(None, 0), last_of(Some(5), 2)];
    same(&rt, before.as_slice(), expected.as_slice());
    Ok(())
}

#[test]
fn flat_prefixes(rt: HostRuntime) -> Result<(), Fail> {
    let flat = Flat::build(rt.alloc(), &VALUES)?;
    same(&rt, flat.len(), 3);
    same(&rt, flat.prefix(0), last_of(None, 0));
    same(&rt, flat.prefix(2), last_of(Some(1), 2));
    same(&rt, flat.prefix(3), last_of(Some(3), 3));
    Ok(())
}

// The lines of three steps are the numbers from 0 to 3: cuts of 4 numbers, the last chunk of which
// begins behind all values.
#[test]
fn cuts_one_past_the_end(rt: HostRuntime) -> Result<(), Fail> {
    let tree = TotalsTree::build(rt.alloc(), &VALUES)?;
    let cuts = Cuts::at(rt.alloc(), &[3, 4], 4)?;
    let before = offsets_tree(rt.alloc(), &tree, &cuts)?;
    let expected = [last_of(None, 0), last_of(Some(3), 3)];
    same(&rt, before.as_slice(), expected.as_slice());
    Ok(())
}

// Over three values there is one row above, with the join of the first two. So a new first value
// makes one join, a new last one none, and the prefix of three makes two: the third value and the
// unit, and the value above with that.
#[test]
fn joins_over_three_values(rt: HostRuntime) -> Result<(), Fail> {
    let mut tree = TotalsTree::build(rt.alloc(), &VALUES)?;
    same(&rt, tree.joins(), 0);
    tree.set(0, FIVE);
    same(&rt, tree.joins(), 1);
    tree.set(2, FIVE);
    same(&rt, tree.joins(), 1);
    same(&rt, tree.prefix(3), last_of(Some(5), 3));
    same(&rt, tree.joins(), 3);
    same(&rt, tree.peek(3), last_of(Some(5), 3));
    same(&rt, tree.joins(), 3);
    Ok(())
}

#[test]
fn an_empty_tree(rt: HostRuntime) -> Result<(), Fail> {
    let mut tree = TotalsTree::<Last>::build(rt.alloc(), &[])?;
    same(&rt, tree.len(), 0);
    same(&rt, tree.prefix(0), Last::unit());
    same(&rt, tree.joins(), 0);
    Ok(())
}

/// How far a new value in the place of the `i`-th raises the count of joins, and how far the prefix
/// that ends behind it does.
fn rises(tree: &mut TotalsTree<Last>, i: usize) -> (u64, u64)
    requires within { i < length tree.old.values }
    requires few { length tree.old.values ≤ 60000 }
    requires sizes { sum_by (λ v. v.parts) tree.old.values ≤ 500000 }
    ensures count { length tree.new.values ≡ length tree.old.values }
    ensures sizes { sum_by (λ v. v.parts) tree.new.values
        ≤ sum_by (λ v. v.parts) tree.old.values + 1 }
{
    let before = tree.joins();
    tree.set(i, FIVE);
    let between = tree.joins();
    tree.prefix(i + 1);
    (between - before, tree.joins() - between)
}

/// So many values of one part each, every third without a value.
fn first_values(alloc: Global, n: u32) -> Result<Vec<Last>, AllocError>
    requires { n ≤ 60000 }
    ensures count { IfOk result (λ v. length v.items ≡ n) }
    ensures sizes { IfOk result (λ v. sum_by (λ x. x.parts) v.items ≡ n) }
{
    let mut values = Vec::new(alloc);
    for k in 0..n {
        let value = if k % 3 == 1 { None } else { Some(k) };
        values.push(last_of(value, 1))?;
    }
    Ok(values)
}

// 60,000 values are at most 2^16, so that no call makes more than 17 joins, at any of the places.
#[test]
fn counted_joins(rt: HostRuntime) -> Result<(), Fail> {
    let values = first_values(rt.alloc(), 60_000)?;
    let mut tree = TotalsTree::build(rt.alloc(), &values)?;
    for k in 0..60_000 {
        let (by_set, by_prefix) = rises(&mut tree, k);
        holds(&rt, by_set <= 17);
        holds(&rt, by_prefix <= 17);
    }
    Ok(())
}

/// Whether two lists give the same prefixes, of each length.
fn agree<A: Prefixes<Last>, B: Prefixes<Last>>(left: &mut A, right: &mut B) -> bool
    requires { length (A.values left.old) ≡ length (B.values right.old) }
    ensures { A.values left.new ≡ A.values left.old }
{
    let n = left.len();
    for i in 0..n {
        if left.prefix(i) != right.prefix(i) {
            return false;
        }
    }
    left.prefix(n) == right.prefix(n)
}

/// Whether a tree over this number of values agrees with the plain form after each of them was
/// replaced in turn.
fn agrees_after_each_set(alloc: Global, n: u32) -> Result<bool, AllocError>
    requires { n ≤ 20 }
{
    let mut values = first_values(alloc, n)?;
    let mut tree = TotalsTree::build(alloc, &values)?;
    for i in 0..n {
        let value = last_of(if i % 2 == 0 { Some(100 + i) } else { None }, 1);
        values[i as usize] = value;
        tree.set(i as usize, value);
        let mut flat = Flat::build(alloc, &values)?;
        if !agree(&mut tree, &mut flat) {
            return Ok(false);
        }
    }
    Ok(true)
}

#[test]
fn a_tree_as_the_plain_form(rt: HostRuntime) -> Result<(), Fail> {
    for n in 1..21 {
        holds(&rt, agrees_after_each_set(rt.alloc(), n)?);
    }
    Ok(())
}

// Three values, handed over and then made four by 5 before them: the prefixes are those of the new
// list, the first three being 5, 1 and none, and the count goes on from the one join that the set
// made.
#[test]
fn a_tree_of_its_values(rt: HostRuntime) -> Result<(), Fail> {
    let values = VALUES.to_vec(rt.alloc())?;
    let mut tree = TotalsTree::of(rt.alloc(), values)?;
    tree.set(0, FIVE);
    same(&rt, tree.joins(), 1);
    let longer = [FIVE, VALUES[0], VALUES[1], VALUES[2]].to_vec(rt.alloc())?;
    let tree = tree.with_values(rt.alloc(), longer)?;
    same(&rt, tree.len(), 4);
    same(&rt, tree.joins(), 1);
    same(&rt, tree.peek(3), last_of(Some(1), 3));
    same(&rt, tree.peek(4), last_of(Some(3), 4));
    Ok(())
}

// Another value in each of the first two places: the prefixes are those behind two sets, and no
// join is counted.
#[test]
fn values_made_anew(rt: HostRuntime) -> Result<(), Fail> {
    let mut tree = TotalsTree::build(rt.alloc(), &VALUES)?;
    let mut values = [FIVE, SEVEN];
    tree.renew(0, &mut values);
    same(&rt, tree.joins(), 0);
    same(&rt, tree.peek(1), last_of(Some(5), 1));
    same(&rt, tree.peek(2), last_of(Some(7), 2));
    same(&rt, tree.peek(3), last_of(Some(3), 3));
    Ok(())
}

// Another value in each of the two middle places of four: the prefixes are those behind two sets.
// Three joins are counted, one for each half and one for both, where two sets make four.
#[test]
fn values_set_together(rt: HostRuntime) -> Result<(), Fail> {
    let mut tree = TotalsTree::build(rt.alloc(), &VALUES)?;
    tree.push(rt.alloc(), FIVE)?;
    let mut values = [SEVEN, last_of(Some(9), 1)];
    tree.set_stretch(1, &mut values);
    same(&rt, tree.joins(), 3);
    same(&rt, tree.peek(1), last_of(Some(1), 1));
    same(&rt, tree.peek(2), last_of(Some(7), 2));
    same(&rt, tree.peek(3), last_of(Some(9), 3));
    same(&rt, tree.peek(4), last_of(Some(5), 4));
    Ok(())
}

// Two values come in at the end, so that the tree gets a row more, and then three of five go away:
// the prefixes are those of the values that are there, and no join is counted.
#[test]
fn values_at_the_end(rt: HostRuntime) -> Result<(), Fail> {
    let mut tree = TotalsTree::build(rt.alloc(), &VALUES)?;
    tree.push(rt.alloc(), FIVE)?;
    same(&rt, tree.peek(4), last_of(Some(5), 4));
    tree.push(rt.alloc(), SEVEN)?;
    same(&rt, tree.len(), 5);
    same(&rt, tree.peek(5), last_of(Some(7), 5));
    same(&rt, tree.peek(3), last_of(Some(3), 3));
    tree.truncate(2);
    same(&rt, tree.len(), 2);
    same(&rt, tree.peek(2), last_of(Some(1), 2));
    same(&rt, tree.joins(), 0);
    Ok(())
}
