//! Test of how the lines are spelled that no case prints.

use ots_model::{
    Decision, Ground, Line, Name, Outcome, PhaseReason, PhaseWord, ResourceState, Vote,
};
use std::test::Fail;

/// Each line, and how it is spelled.
macro_rules! assert_spelled {
    ($rt:ident; $($line:expr => $words:literal,)+) => {
        let mut text = Vec::new($rt.alloc());
        for line in [$($line),+] {
            line.write(&mut text)?;
        }
        assert!($rt; text.as_slice() == concat!($($words, "\n"),+).as_bytes());
    };
}

fn name(octets: &[u8]) -> Result<Name, &'static str> {
    Name::new(octets).ok_or("no name")
}

#[test]
fn lines_of_no_case_have_their_words(rt: HostRuntime) -> Result<(), Fail> {
    let (t, u, g) = (name(b"t1")?, name(b"u1")?, name(b"g1")?);
    assert_spelled! { rt;
        Line::Imp { subordinate: u, superior: t, node: g } => "imp u1 t1 g1",
        Line::Send { message: 6, word: PhaseWord::CommitOnePhase, registration: g } => "send 6 commit_one_phase g1",
        Line::Voted { registration: g, vote: Vote::VoteReadOnly } => "vote g1 VoteReadOnly",
        Line::State { resource: g, state: ResourceState::Forgotten } => "state g1 forgotten",
        Line::Learn { registration: g, decision: Decision::Commit } => "learn g1 commit",
        Line::Learn { registration: g, decision: Decision::Rollback } => "learn g1 rollback",
        Line::Decide { transaction: t, outcome: Outcome::Commit(Ground::OnePhase) } => "decide t1 commit phase",
        Line::Decide { transaction: t, outcome: Outcome::Rollback(PhaseReason::PrepareLost(g)) } => "decide t1 rollback PrepareLost g1",
        Line::Decide { transaction: t, outcome: Outcome::Rollback(PhaseReason::PrepareStarved(g)) } => "decide t1 rollback PrepareStarved g1",
        Line::Decide { transaction: t, outcome: Outcome::Rollback(PhaseReason::PrepareFault(g)) } => "decide t1 rollback PrepareFault g1",
        Line::Decide { transaction: t, outcome: Outcome::Rollback(PhaseReason::JournalFull(8, 9)) } => "decide t1 rollback JournalFull 8 9",
        Line::Decide { transaction: t, outcome: Outcome::Unknown } => "decide t1 unknown",
    }
    Ok(())
}
