//! What the dispositions of several participants make together, and whether that is reported.
#![tactic(auto)]

ghost use Rattle.std.specs.Prelude.{◌≡◌, ◌≢◌, IsTrue};
ghost use Rattle.std.specs.Option.{SomeIff};
ghost use Rattle.std.specs.List.{list_all, list_any};
ghost use Rattle.heuristic_join.specs.Join as join;

use ots_model::{Decision, Disposition, Join};

/// What a root and its participants did together. Its decision counts as known: where it was to commit, a single
/// participant that rolled back makes it mixed.
pub fn join_root(decision: Decision, list: &[Disposition]) -> Join
    ensures { result ≡ join.join_root decision list.now }
{
    let commit = decision == Decision::Commit;
    if are_mixed(commit, !commit, list) {
        Join::Mixed
    } else if has_unknown(list) {
        Join::Hazard
    } else {
        Join::Nothing
    }
}

/// What a subordinate's participants did together, which its superior told to do so. What it was told doesn't count as
/// known.
pub fn join_sub(told: Decision, list: &[Disposition]) -> Join
    ensures { result ≡ join.join_sub told list.now }
{
    if are_mixed(false, false, list) {
        Join::Mixed
    } else if has_unknown(list) {
        Join::Hazard
    } else if are_opposite(told, list) {
        Join::Opposite
    } else {
        Join::Nothing
    }
}

/// What the client is told of a join: nothing where nobody asked for heuristics (`report_heuristics` of `commit`), nor
/// where there is nothing to tell.
pub fn report(join: Join, asked: bool) -> Option<Join>
    ensures { SomeIff result (IsTrue asked × (join ≢ Join.Nothing)) join }
{
    (asked && join != Join::Nothing).then_some(join)
}

/// Whether some updates were committed and others rolled back, where these are known beside the list.
fn are_mixed(committed: bool, rolled_back: bool, list: &[Disposition]) -> bool
    ensures { result ≡ join.are_mixed committed rolled_back list.now }
{
    let committed = committed || has_committed(list);
    let rolled_back = rolled_back || has_rolled_back(list);
    has_mixed(list) || (committed && rolled_back)
}

/// Whether both is known of some participant.
fn has_mixed(list: &[Disposition]) -> bool
    ensures { result ≡ list_any join.is_mixed list.now }
{
    list.iter().any(|d| matches!(d, Disposition::Mixed))
}

/// Whether some participant committed.
fn has_committed(list: &[Disposition]) -> bool
    ensures { result ≡ list_any join.is_committed list.now }
{
    list.iter().any(|d| matches!(d, Disposition::Committed))
}

/// Whether some participant rolled back.
fn has_rolled_back(list: &[Disposition]) -> bool
    ensures { result ≡ list_any join.is_rolled_back list.now }
{
    list.iter().any(|d| matches!(d, Disposition::RolledBack))
}

/// Whether it isn't known of some participant what became of its updates.
fn has_unknown(list: &[Disposition]) -> bool
    ensures { result ≡ list_any join.is_unknown list.now }
{
    list.iter().any(|d| matches!(d, Disposition::Unknown))
}

/// Whether there are participants, and each did the other thing than it was told.
fn are_opposite(told: Decision, list: &[Disposition]) -> bool
    ensures { result ≡ join.are_opposite told list.now }
{
    !list.is_empty() && all_other(told, list)
}

/// Whether each participant did the other thing than it was told.
fn all_other(told: Decision, list: &[Disposition]) -> bool
    ensures { result ≡ list_all (join.is_other told) list.now }
{
    list.iter().all(|d| is_other(told, *d))
}

/// Whether a participant did the other thing than it was told.
fn is_other(told: Decision, d: Disposition) -> bool
    ensures { result ≡ join.is_other told d }
{
    match told {
        Decision::Commit => matches!(d, Disposition::RolledBack),
        Decision::Rollback => matches!(d, Disposition::Committed),
    }
}
