ghost use Rattle.decision_journal.specs.Growing.{BodiesAreRead, JournalsGrow};
ghost use Rattle.decision_journal.specs.Laws.{AppendsAreSafe, CreationsAreSafe, OctetsMeanOneThing, OctetsMeanSomething, OctetsStandForOneList, PayloadsTellRecords};
ghost use Rattle.decision_journal.specs.Loading.{LoadsAreSafe};

/// A payload is that of one record.
pub fn payloads_tell_records()
    ensures { PayloadsTellRecords }
{}

/// Octets stand for one list of records.
pub fn octets_stand_for_one_list()
    ensures { OctetsStandForOneList }
{}

/// A crash at any moment of an append leaves the records of before, or these and the new one. Once it is done, the new one
/// is there.
pub fn appends_are_safe()
    ensures { AppendsAreSafe }
{}

/// A crash at any moment of the creation of a journal leaves octets without records.
pub fn creations_are_safe()
    ensures { CreationsAreSafe }
{}

/// A crash at any moment of a load leaves the records of before, or these and the next life. Once it is done, the next life is
/// there.
pub fn loads_are_safe()
    ensures { LoadsAreSafe }
{}

/// Octets mean one thing: they stand for one list of records, or break a rule at one place, or have another header from one
/// place on.
pub fn octets_mean_one_thing()
    ensures { OctetsMeanOneThing }
{}

/// Octets that are long enough for a header and a gate mean something.
pub fn octets_mean_something()
    ensures { OctetsMeanSomething }
{}

/// One more record is found behind those of before. One for which there is room leaves what is used within the area, and a Done
/// takes no more than its decision left for it.
pub fn journals_grow()
    ensures { JournalsGrow }
{}

/// Behind its gate a record is read again, whatever follows it.
pub fn bodies_are_read()
    ensures { BodiesAreRead }
{}
