ghost use Rattle.otid_names.specs.Laws.{GlobalTellsTransaction, NumbersReadBack, SameNameSameTid, SameNumbersSameOtid};

/// A law: the otid of four numbers is our own, and they are read back from it.
pub fn numbers_read_back()
    ensures { NumbersReadBack }
{}

/// A law: two of our own otids with the same numbers are the same.
pub fn same_numbers_same_otid()
    ensures { SameNumbersSameOtid }
{}

/// A law: two otids with the same name have the same formatID and the same tid, and both are our own or both foreign. So
/// two of our own with the same name are the same.
pub fn same_name_same_tid()
    ensures { SameNameSameTid }
{}

/// A law: our own otids have the same global part exactly where they differ in the branch at most.
pub fn global_part_tells_transaction()
    ensures { GlobalTellsTransaction }
{}
