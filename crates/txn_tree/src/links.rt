// For each branch the last made of the live ones below it, by depth, kept right as branches are made and end. Of those that
// lie as deep below a branch each links to one made before it. So where the last of them ends, the one before it is found
// without a look at the others.
ghost use Rattle.std.specs.Prelude.{◌≡◌, ℕ, ◌+◌, ◌<◌, ◌≤◌, ◌==◌, ◌&&◌, length, Some, None, IfSome, if◌then◌else◌};
ghost use Rattle.txn_tree.specs.Limits.{depth_limit, transaction_limit};
ghost use Rattle.txn_tree.specs.Rows.{is_live_branch, depth as depth_of};
ghost use Rattle.txn_tree.specs.TreeInside.{HaveDepths};
ghost use Rattle.txn_tree.specs.Links.{depth_count, AreLinked, AreLinkedBut, AreWide, LeaveNoneOut, LooksBack, IsDeepest, IsFound};
ghost use Rattle.txn_tree.specs.Links as links_of;

use crate::row::{Row, parent_of};
use crate::tree::DEPTH_LIMIT;

/// How many depths there are, with 0, at which no branch lies.
const DEPTHS: usize = DEPTH_LIMIT as usize + 1;

/// The links of a branch. They take 136 bytes, so 136 KiB in the largest tree.
#[derive(Clone, Copy)]
pub(crate) struct Links {
    /// By depth: the last made of the live branches that lie there below this one.
    last: [Option<u16>; DEPTHS],
    /// By the depth of an ancestor: a branch made before this one, as deep below that ancestor, where all that were made
    /// between them have ended.
    before: [Option<u16>; DEPTHS],
}

/// The links of a branch with none below it, and none before it.
pub(crate) fn unlinked() -> Links
    ensures last { (l : ℕ) → links_of.kept result.last l ≡ None }
    ensures wide { (length result.last ≡ depth_count) × (length result.before ≡ depth_count) }
{
    Links {
        last: [None; DEPTHS],
        before: [None; DEPTHS],
    }
}

/// The last made of the live branches below this one at a depth.
fn last_below(links: &[Links], above: u32, depth: u32) -> Option<u16>
    requires there { (above < length links.now) × (depth ≤ depth_limit) }
    ensures { result ≡ links_of.last links.now above depth }
{
    links[above as usize].last[depth as usize]
}

/// Of the live branches below this one the deepest; of equals the one made last.
pub(crate) fn last_under(links: &[Links], above: u32) -> Option<u32>
    requires there { above < length links.now }
    ensures { IsDeepest links.now above result }
{
    for depth in (0..DEPTHS as u32).rev() {
        if let Some(last) = last_below(links, above, depth) {
            return Some(u32::from(last));
        }
    }
    None
}

/// Where to look next for a live branch that was made before this one, as deep below an ancestor of this depth.
fn made_before(links: &[Links], branch: u32, depth: u32) -> Option<u16>
    requires there { (branch < length links.now) × (depth ≤ depth_limit) }
    ensures { result ≡ links_of.before links.now branch depth }
{
    links[branch as usize].before[depth as usize]
}

/// Keeps this one as the last below a branch at a depth.
fn set_last(links: &mut [Links], above: u32, depth: u32, to: Option<u16>)
    requires there { (above < length links.old) × (depth ≤ depth_limit) }
    requires wide { AreWide links.old }
    ensures wide { AreWide links.new }
    ensures last { (a l : ℕ) → links_of.last links.new a l
        ≡ (if a == above && l == depth then to else links_of.last links.old a l) }
    ensures before { (q d : ℕ) → links_of.before links.new q d ≡ links_of.before links.old q d }
    ensures length { length links.new ≡ length links.old }
{
    links[above as usize].last[depth as usize] = to;
}

/// Keeps this one as made before a branch, for an ancestor of a depth.
fn set_before(links: &mut [Links], branch: u32, depth: u32, to: Option<u16>)
    requires there { (branch < length links.old) × (depth ≤ depth_limit) }
    requires wide { AreWide links.old }
    ensures wide { AreWide links.new }
    ensures last { (a l : ℕ) → links_of.last links.new a l ≡ links_of.last links.old a l }
    ensures before { (q d : ℕ) → links_of.before links.new q d
        ≡ (if q == branch && d == depth then to else links_of.before links.old q d) }
    ensures length { length links.new ≡ length links.old }
{
    links[branch as usize].before[depth as usize] = to;
}

/// Links a branch, where all that were made before it are linked.
pub(crate) fn link(rows: &[Row], depths: &[u32], links: &mut [Links], branch: u32)
    requires shape { HaveDepths rows.now depths.now }
    requires there { branch < length rows.now }
    requires linked { AreLinked rows.now links.old branch }
    ensures { AreLinked rows.now links.new (branch + 1) }
{
    let depth = depths[branch as usize];
    let is_live = rows[branch as usize].state.is_live();
    let mut at = branch;
    while let Some(above) = parent_of(rows, at) {
        let last = last_below(links, above, depth);
        set_before(links, branch, depths[above as usize], last);
        if is_live {
            set_last(links, above, depth, Some(branch as u16));
        }
        at = above;
    }
}

/// Links the others again after this branch has ended. For each of its ancestors it goes back over ended branches alone,
/// and none of them is passed again.
pub(crate) fn unlink(rows: &[Row], depths: &[u32], links: &mut [Links], branch: u32)
    requires shape { HaveDepths rows.now depths.now }
    requires there { branch < length rows.now }
    requires linked { AreLinkedBut rows.now links.old branch }
    ensures { AreLinked rows.now links.new (length rows.now) }
{
    let depth = depths[branch as usize];
    let mut at = branch;
    while let Some(above) = parent_of(rows, at) {
        let last = last_live(rows, links, above, depth, depths[above as usize]);
        set_last(links, above, depth, last);
        at = above;
    }
}

/// The last made of the live branches below this one at a depth, where the one that is kept may have ended.
fn last_live(rows: &[Row], links: &[Links], above: u32, depth: u32, depth_above: u32) -> Option<u16>
    requires there { (above < length rows.now) × (depth ≤ depth_limit) × (depth_above ≤ depth_limit) }
    requires above { depth_above ≡ depth_of rows.now above }
    requires ways { LeaveNoneOut rows.now links.now (length rows.now) }
    ensures back { LooksBack rows.now above depth (length rows.now) result }
    ensures live { IsFound rows.now result }
{
    let mut at = last_below(links, above, depth);
    while let Some(branch) = at {
        if rows[branch as usize].state.is_live() {
            return Some(branch);
        }
        at = made_before(links, u32::from(branch), depth_above);
    }
    None
}

/// Links all branches, whatever the links are.
pub(crate) fn relink(rows: &[Row], depths: &[u32], links: &mut [Links])
    requires shape { HaveDepths rows.now depths.now }
    requires each { length links.old ≡ length rows.now }
    requires wide { AreWide links.old }
    ensures { AreLinked rows.now links.new (length rows.now) }
{
    clear(links);
    for branch in 0..rows.len() as u32 {
        link(rows, depths, links, branch);
    }
}

/// Takes all links away.
fn clear(links: &mut [Links])
    requires wide { AreWide links.old }
    ensures wide { AreWide links.new }
    ensures none { (a l : ℕ) → links_of.last links.new a l ≡ None }
    ensures length { length links.new ≡ length links.old }
{
    for place in links.iter_mut() {
        *place = unlinked();
    }
}
