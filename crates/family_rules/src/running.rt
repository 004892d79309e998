// How a call under way goes on.
ghost use Rattle.std.specs.Prelude.{◌≡◌, ◌≢◌, ◌<◌, ◌+◌, ◌*◌, ◌≤◌, ◌&&◌, length, false, true, not, Some, None, [], IfSome, IsTrue};
ghost use Rattle.ots_model.specs.Limits.{registration_limit};
ghost use Rattle.resource_votes.specs.Ballots.{adopted};
ghost use Rattle.txn_tree.specs.Calls as tree;
ghost use Rattle.txn_tree.specs.Calls.{ended};
ghost use Rattle.txn_tree.specs.Rows as rows;
ghost use Rattle.two_phase.specs.Stages as stages;
ghost use Rattle.family_rules.specs.Calls.{AreTasks, Sees, aim_of, duties_in, plain_call};
ghost use Rattle.family_rules.specs.Changes.{with_tasks};
ghost use Rattle.coordinator.specs.Family as families;
ghost use Rattle.family_rules.specs.Going.{CanGo, Does};
ghost use Rattle.family_rules.specs.Calls as calls;
ghost use Rattle.coordinator.specs.Phases as phases;
ghost use Rattle.coordinator.specs.Running as running;
ghost use Rattle.coordinator.specs.Table.{new_call};

use crate::call::{Aim, Call, Reply};
use crate::draft::Draft;
use crate::state::{State, TOP};
use coordinator::{Effect, Ending, Leg, Stage};
use txn_tree::next_is_first;

impl State {
    /// The call that ends a branch goes on, where there is one.
    pub fn go_on(&mut self, branch: u32, out: &mut Draft)
        requires can { CanGo (length (self.old.family).rows + 3) self.old.family out.old }
        ensures does { Does self.old.family out.old (running.goes_on branch) self.new.family out.new }
        ensures kept { self.old.history_room ≤ self.new.history_room }
    {
        match self.call_of(branch) {
            Some(call) => self.go_on_with(branch, call, out),
            None => {}
        }
    }

    /// A call under way goes on, none of whose words is out.
    fn go_on_with(&mut self, branch: u32, call: Call, out: &mut Draft)
        requires there { branch < length (self.old.family).rows }
        requires call { Sees (Some call) (families.call_at self.old.family branch) }
        requires can { CanGo (length (self.old.family).rows + 3) self.old.family out.old }
        ensures does { Does self.old.family out.old (running.goes_on branch) self.new.family out.new }
        ensures kept { self.old.history_room ≤ self.new.history_room }
    {
        if self.is_held(branch, call) {
            return;
        }
        match self.take_left(branch) {
            Some(task) => self.post_task(branch, call.caller, task, out),
            None => self.go_by_leg(
                branch,
                Call {
                    owes: false,
                    ..call
                },
                out,
            ),
        }
    }

    /// A call begins.
    #[tactic(auto, unfolding(coordinator::specs::Running::runs))]
    pub fn run(&mut self, branch: u32, caller: Option<u32>, aim: Aim, out: &mut Draft)
        requires there { branch < length (self.old.family).rows }
        requires can { CanGo (length (self.old.family).rows + 3) self.old.family out.old }
        ensures does { Does self.old.family out.old (running.runs branch (new_call caller (aim_of aim)))
            self.new.family out.new }
        ensures kept { self.old.history_room ≤ self.new.history_room }
    {
        let call = Call {
            caller,
            aim,
            leg: Leg::Below,
            owes: false,
            out: None,
        };
        if self.is_commit_held(branch, aim) {
            self.set_call(branch, call);
        } else {
            self.go_by_leg(branch, call, out);
        }
    }

    /// A call that has nothing left to tell goes on.
    fn go_by_leg(&mut self, branch: u32, call: Call, out: &mut Draft)
        requires there { branch < length (self.old.family).rows }
        requires plain { call.owes ≡ false }
        requires can { CanGo (length (self.old.family).rows + 3) self.old.family out.old }
        ensures does { Does self.old.family out.old (running.by_leg call.leg branch (plain_call call))
            self.new.family out.new }
        ensures kept { self.old.history_room ≤ self.new.history_room }
    {
        match call.leg {
            Leg::Below => self.sweep(branch, call, out),
            Leg::Own => self.end_own(branch, call, out),
            Leg::Before(called) => self.go_before(called, call, out),
            Leg::Deciding => self.decide(call, out),
            Leg::After(called) => self.tell_after(called, call, out),
        }
    }

    /// Synchronizations are told of an outcome that is fixed.
    fn tell_after(&mut self, called: u32, call: Call, out: &mut Draft)
        requires plain { call.owes ≡ false }
        requires can { CanGo 3 self.old.family out.old }
        ensures does { Does self.old.family out.old
            (λ f. running.tells_after (stages.outcome f.completion) called (plain_call call) f)
            self.new.family out.new }
        ensures kept { self.old.history_room ≤ self.new.history_room }
    {
        match self.completion.outcome() {
            Some(fixed) => self.go_after(called, call, fixed, out),
            None => self.set_call(TOP, call),
        }
    }

    /// Live subtransactions are rolled back one after the other, until one has something to tell.
    fn sweep(&mut self, branch: u32, call: Call, out: &mut Draft)
        requires there { branch < length (self.old.family).rows }
        requires plain { call.owes ≡ false }
        requires can { CanGo (length (self.old.family).rows + 3) self.old.family out.old }
        ensures does { Does self.old.family out.old
            (λ f. running.sweeps (length f.rows) branch (plain_call call) f) self.new.family out.new }
        ensures kept { self.old.history_room ≤ self.new.history_room }
    {
        for _so_many in 0..self.tree.count() {
            match self.live_under(branch) {
                Some(below) => self.end_below(below, out),
                None => {
                    self.pass(branch, call, out);
                    return;
                }
            }
            if out.has_tasks() {
                self.tell_gathered(branch, call, out);
                return;
            }
        }
        self.pass(branch, call, out);
    }

    /// No subtransaction is live below.
    #[tactic(auto, unfolding(coordinator::specs::Running::passes))]
    fn pass(&mut self, branch: u32, call: Call, out: &mut Draft)
        requires there { branch < length (self.old.family).rows }
        requires plain { call.owes ≡ false }
        requires can { CanGo 2 self.old.family out.old }
        ensures does { Does self.old.family out.old (running.passes branch (plain_call call))
            self.new.family out.new }
        ensures kept { self.old.history_room ≤ self.new.history_room }
    {
        if branch != TOP {
            self.tell_own(branch, call, out);
        } else if matches!(self.stage, Stage::Finishing) {
            self.go_before(0, call, out);
        } else {
            self.decide(call, out);
        }
    }

    /// The resources of a subtransaction are told of its end.
    #[tactic(auto, unfolding(coordinator::specs::Running::tells_own))]
    fn tell_own(&mut self, branch: u32, call: Call, out: &mut Draft)
        requires there { branch < length (self.old.family).rows }
        requires plain { call.owes ≡ false }
        requires can { CanGo 2 self.old.family out.old }
        ensures does { Does self.old.family out.old (running.tells_own branch (plain_call call))
            self.new.family out.new }
        ensures kept { self.old.history_room ≤ self.new.history_room }
    {
        let call = Call {
            leg: Leg::Own,
            ..call
        };
        self.gather_own(branch, call.aim, out);
        if out.has_tasks() {
            self.tell_gathered(branch, call, out);
        } else {
            self.end_own(branch, call, out);
        }
    }

    /// Gathers what they are told.
    #[tactic(auto, unfolding(coordinator::specs::Running::commit_duties))]
    fn gather_own(&self, branch: u32, aim: Aim, out: &mut Draft)
        requires there { branch < length (self.now.family).rows }
        requires tasks { out.old.changes.tasks ≡ [] }
        requires room { 2 * registration_limit ≤ out.old.tasks_room }
        ensures gathered { duties_in (self.now.family).ballots.registrations out.new.changes.tasks
            ≡ running.own_duties (aim_of aim) branch self.now.family }
        ensures tasks { AreTasks (self.now.family).ballots.registrations out.new.changes.tasks }
        ensures others { out.new ≡ with_tasks out.new.changes.tasks out.old }
    {
        match aim {
            Aim::Commits(_) => {
                if let Some(above) = self.tree.parent_at(branch) {
                    self.gather_aware(branch, Ending::TellsCommit(above), out);
                }
            }
            Aim::RollsBack(_) => self.gather_undo(branch, out),
        }
    }

    /// They were told.
    fn end_own(&mut self, branch: u32, call: Call, out: &mut Draft)
        requires there { branch < length (self.old.family).rows }
        requires plain { call.owes ≡ false }
        requires can { CanGo 2 self.old.family out.old }
        ensures does { Does self.old.family out.old (running.own_ends (aim_of call.aim) branch (plain_call call))
            self.new.family out.new }
        ensures kept { self.old.history_room ≤ self.new.history_room }
    {
        match call.aim {
            Aim::Commits(_) => self.commit_up(branch, call, out),
            Aim::RollsBack(reply) => self.end_call(branch, call, reply, out),
        }
    }

    /// A subtransaction is committed: its parent adopts its list.
    #[tactic(auto, unfolding(coordinator::specs::Running::commits_up))]
    fn commit_up(&mut self, branch: u32, call: Call, out: &mut Draft)
        requires there { branch < length (self.old.family).rows }
        requires plain { call.owes ≡ false }
        requires can { CanGo 2 self.old.family out.old }
        ensures does { Does self.old.family out.old
            (λ f. running.commits_up branch (running.adopter f.rows branch) (plain_call call) f)
            self.new.family out.new }
        ensures kept { self.old.history_room ≤ self.new.history_room }
    {
        let Some(above) = self.adopter(branch) else {
            self.set_call(branch, call);
            return;
        };
        out.show(Effect::SubtransactionEnded(branch, true));
        self.adopt(branch, above);
        self.end_call(branch, call, Reply::Plain, out);
    }

    /// The parent of a subtransaction that has not ended.
    fn adopter(&self, branch: u32) -> Option<u32>
        ensures adopter { result ≡ running.adopter (self.now.family).rows branch }
        ensures parent { IfSome result (λ above. rows.parent (self.now.family).rows branch ≡ Some above) }
        ensures live { IfSome result (λ above. IsTrue (rows.is_live_branch (self.now.family).rows branch)) }
    {
        if self.tree.is_live_at(branch) {
            self.tree.parent_at(branch)
        } else {
            None
        }
    }

    /// A subtransaction has ended, committed, and its parent has its list.
    fn adopt(&mut self, branch: u32, above: u32)
        requires there { branch < length (self.old.family).rows }
        requires parent { rows.parent (self.old.family).rows branch ≡ Some above }
        requires live { IsTrue (rows.is_live_branch (self.old.family).rows branch) }
        ensures does { self.new.family ≡ record self.old.family {
          rows = ended (self.old.family).rows branch true;
          ballots = adopted branch above (self.old.family).ballots;
        } }
        ensures kept { self.old.history_room ≤ self.new.history_room }
    {
        let _ = self.tree.count();
        self.votes.adopt(branch, above);
        self.tree.close(branch, true);
    }

    /// The next live subtransaction below a transaction.
    fn live_under(&self, branch: u32) -> Option<u32>
        requires there { branch < length (self.now.family).rows }
        ensures next { result ≡ tree.live_under (self.now.family).rows branch }
        ensures there { IfSome result (λ below. below < length (self.now.family).rows) }
        ensures below { IfSome result (λ below. 0 < below) }
        ensures live { IfSome result (λ below. IsTrue (rows.is_live_branch (self.now.family).rows below)) }
    {
        next_is_first();
        self.tree.live_under(branch)
    }

    /// Whether the commit of a subtransaction whose parent has ended goes no further, where it has nothing left to tell.
    fn is_commit_held(&self, branch: u32, aim: Aim) -> bool
        ensures { result ≡ (running.is_commit (aim_of aim) && phases.has_parent_ended self.now.family branch) }
    {
        is_commit(aim) && self.has_parent_ended(branch)
    }

    /// The same of a call under way.
    fn is_held(&self, branch: u32, call: Call) -> bool
        ensures { result ≡ (running.is_commit (aim_of call.aim) && phases.has_parent_ended self.now.family branch
            && not (running.is_below call.leg && calls.has_left self.now.family branch)) }
    {
        self.is_commit_held(branch, call.aim) && !(is_below(call.leg) && self.has_left(branch))
    }
}

/// Whether a call is a commit.
fn is_commit(aim: Aim) -> bool
    ensures { result ≡ running.is_commit (aim_of aim) }
{
    matches!(aim, Aim::Commits(_))
}

/// Whether a call rolls back what is below it.
fn is_below(leg: Leg) -> bool
    ensures { result ≡ running.is_below leg }
{
    matches!(leg, Leg::Below)
}
