ghost use Rattle.std.specs.Prelude.{◌≡◌, ◌≤◌, false, true, None, IfOk, IfErr};
ghost use Rattle.ots_outside.specs.Disk.{Tells};
ghost use Rattle.decision_journal.specs.Asking.{AsksLoad};
ghost use Rattle.decision_journal.specs.Calls.{IsCurrent};
ghost use Rattle.decision_journal.specs.Laws.{AppendsAreSafe};
ghost use Rattle.decision_journal.specs.Limits.{area_limit};
ghost use Rattle.decision_journal.specs.Loading.{LoadIsDone, LoadIsSafe};
ghost use Rattle.coordinator.specs.Node.{loaded_node};
ghost use Rattle.service_node.specs.Crashes.{IsKnown};
ghost use Rattle.service_node.specs.Faults as causes;
ghost use Rattle.service_node.specs.NodeState.{BelongTogether, IsBegun, node_of};

use crate::slots::Slots;
use coordinator::NodeFault;
use decision_journal::{Journal, JournalFault, appends_are_safe, octets_stand_for_one_list};
use ots_outside::{Back, Disk};
use recovery_coord::Recovered;
use std::alloc::Global;
use std::marker::Model;

/// How many families a node has at once: each has a slot of its own.
pub(crate) const SLOT_LIMIT: u32 = 256;

/// The transactions that a service coordinates in one life, over a journal on a disk, and the records of that journal
/// that are told again. Contracts see the node as it is defined, and its journal.
#[derive(Drop)]
pub struct Node<D: Disk> {
    pub(crate) alloc: Global,
    pub(crate) journal: Journal<D>,
    pub(crate) recovered: Recovered,
    pub(crate) slots: Slots,
    pub(crate) last: u32,
    pub(crate) generation: u64,
}

impl<D: Disk> Model for Node<D> {
    ghost use Rattle.service_node.specs.NodeState.{BelongTogether, NodeState, node_of};

    ghost Value = { NodeState D };

    ghost view = { λ n. record {
      node = node_of n.journal.service n.journal.found n.recovered.records n.slots n.last n.generation;
      journal = n.journal;
    } };

    ghost invariant = { λ n. BelongTogether n.journal n.recovered n.slots n.last n.generation };
}

/// What a node is put together from.
#[derive(Drop)]
pub struct NodeParts<D: Disk> {
    /// The journal.
    pub journal: Journal<D>,
    /// The records whose families are gone.
    pub recovered: Recovered,
    /// The families.
    pub families: Slots,
    /// The slot that was given last.
    pub last: u32,
    /// How many families were made in this life.
    pub generation: u64,
}

/// What a fault of the journal is to a load of its node.
fn load_fault(fault: JournalFault) -> NodeFault
    ensures { result ≡ causes.load_fault fault }
{
    match fault {
        JournalFault::Memory => NodeFault::Memory,
        other => NodeFault::Journal(other),
    }
}

impl<D: Disk> Node<D> {
    /// Loads the node of this service that a disk holds, or makes one where there is none, and begins its next life. No
    /// family is there, and the decisions and prepared records that stand are to be told again. Where that is refused,
    /// the disk comes back.
    pub fn load(
        alloc: Global,
        disk: D,
        area: u64,
        service: u64,
    ) -> Result<Node<D>, Back<D, NodeFault>>
        requires { area ≤ area_limit }
        ensures node { IfOk result (λ n. n.node ≡ loaded_node service n.journal.found) }
        ensures begun { IfOk result
            (λ n. Tells (D.told disk) (D.told n.journal.disk) (IsBegun service n.node)) }
        ensures area { IfOk result (λ n. n.journal.area ≡ area) }
        ensures service { IfOk result (λ n. n.journal.service ≡ service) }
        ensures failed { IfOk result (λ n. n.journal.failed ≡ false) }
        ensures doubted { IfOk result (λ n. n.journal.doubted ≡ None) }
        ensures current { IfOk result (λ n. IsCurrent D.told n.journal) }
        ensures done { IfOk result
            (λ n. Tells (D.told disk) (D.told n.journal.disk) (LoadIsDone service)) }
        ensures safe_ok { IfOk result
            (λ n. Tells (D.told disk) (D.told n.journal.disk) (LoadIsSafe service)) }
        ensures safe_err { IfErr result
            (λ back. Tells (D.told disk) (D.told back.value) (LoadIsSafe service)) }
        ensures refused { IfErr result (λ back. Tells (D.told disk) (D.told back.value)
            (causes.IsRefusedLoad service back.fault)) }
        ensures fault { IfErr result (λ back. causes.IsLoadCause area service (D.told disk) (D.faults disk)
            (D.faults back.value) back.fault) }
        ensures calm_ok { IfOk result (λ n. D.faults n.journal.disk ≡ D.faults disk) }
        ensures calm_err { IfErr result (λ back. causes.IsNoFault back.fault (D.faults disk) (D.faults back.value)) }
        ensures later_ok { IfOk result (λ n. D.faults disk ≤ D.faults n.journal.disk) }
        ensures later_err { IfErr result (λ back. D.faults disk ≤ D.faults back.value) }
        ensures asked { IfOk result (λ n. AsksLoad D.asked D.told service true disk n.journal.disk) }
        ensures begun_err { IfErr result
            (λ back. causes.AsksRefusedLoad D.asked D.told service back.fault disk back.value) }
    {
        octets_stand_for_one_list();
        let journal = match Journal::load(alloc, disk, area, service) {
            Ok(journal) => journal,
            Err(back) => {
                return Err(Back {
                    value: back.value,
                    fault: load_fault(back.fault),
                });
            }
        };
        let slots = match Slots::empty(alloc, SLOT_LIMIT) {
            Ok(slots) => slots,
            Err(_) => return Err(starved(journal)),
        };
        match Recovered::from(alloc, &journal) {
            Ok(recovered) => Ok(Node {
                alloc,
                journal,
                recovered,
                slots,
                last: SLOT_LIMIT - 1,
                generation: 0,
            }),
            Err(_) => Err(starved(journal)),
        }
    }

    /// What the disk holds of the journal is known, and what an append may leave of it.
    pub(crate) fn kept(&self)
        ensures known { IsKnown D.told self.now.journal }
        ensures appends { AppendsAreSafe }
    {
        appends_are_safe();
        let _disk = self.journal.disk();
    }

    /// The disk, as a crash leaves it.
    pub fn crash(self) -> D
        ensures { result ≡ self.journal.disk }
    {
        self.journal.into_disk()
    }

    /// The node of parts that belong together. It needs no memory.
    pub fn whole(alloc: Global, parts: NodeParts<D>) -> Node<D>
        requires { BelongTogether parts.journal parts.recovered parts.families parts.last parts.generation }
        ensures node { result.node ≡ node_of parts.journal.service parts.journal.found parts.recovered.records
            parts.families parts.last parts.generation }
        ensures journal { result.journal ≡ parts.journal }
    {
        Node {
            alloc,
            journal: parts.journal,
            recovered: parts.recovered,
            slots: parts.families,
            last: parts.last,
            generation: parts.generation,
        }
    }

    /// What the node was put together from. It needs no memory.
    pub fn parts(self) -> NodeParts<D>
        ensures journal { result.journal ≡ self.journal }
        ensures node { self.node ≡ node_of result.journal.service result.journal.found result.recovered.records
            result.families result.last result.generation }
        ensures together { BelongTogether result.journal result.recovered result.families
            result.last result.generation }
    {
        NodeParts {
            journal: self.journal,
            recovered: self.recovered,
            families: self.slots,
            last: self.last,
            generation: self.generation,
        }
    }
}

/// Memory ran out: the disk of a journal that was loaded comes back.
fn starved<D: Disk>(journal: Journal<D>) -> Back<D, NodeFault>
    ensures disk { result.value ≡ journal.disk }
    ensures fault { result.fault ≡ NodeFault.Memory }
{
    Back {
        value: journal.into_disk(),
        fault: NodeFault::Memory,
    }
}
