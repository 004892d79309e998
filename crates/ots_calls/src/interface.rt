ghost use Rattle.std.specs.Prelude.{◌≡◌};
ghost use Rattle.ots_calls.specs.Table.{kinds_of};

/// An interface: of module CosTransactions, of this project, or of CORBA.
#[derive(Clone, Copy)]
pub enum Interface {
    /// TransactionFactory.
    TransactionFactory,
    /// Control.
    Control,
    /// Terminator.
    Terminator,
    /// Coordinator.
    Coordinator,
    /// RecoveryCoordinator.
    RecoveryCoordinator,
    /// Resource.
    Resource,
    /// Synchronization.
    Synchronization,
    /// SubtransactionAwareResource.
    SubtransactionAwareResource,
    /// Cells, of this project.
    Cells,
    /// Object of CORBA, which every object has.
    Object,
}

impl Interface {
    /// The kinds of keys whose objects have it.
    pub fn kinds(self) -> &'static [u8]
        ensures { result.now ≡ kinds_of self }
    {
        match self {
            Interface::TransactionFactory => b"F",
            Interface::Control => b"C",
            Interface::Terminator => b"T",
            Interface::Coordinator => b"K",
            Interface::RecoveryCoordinator => b"V",
            Interface::Resource => b"RUA",
            Interface::Synchronization => b"Y",
            Interface::SubtransactionAwareResource => b"A",
            Interface::Cells => b"D",
            Interface::Object => b"FCTKVRUYAD",
        }
    }
}
