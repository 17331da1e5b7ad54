//! Laws of the records of a capture: each is the contract of a function that does nothing.
ghost use Rattle.cf_records.specs.Records.{BeginAtTwo, GoOnByTwo, HaveOneList, HaveOneTimedList, HaveRecords, HaveTimedRecords};
ghost use Rattle.cf_records.specs.Records.{NoneAfterTheLastMoment, StayBelowTheLimit};

/// The octets at a place of a file have one list of records and one last place, also where each record is tested with
/// its moment.
pub fn octets_have_one_list_of_records()
    ensures some { HaveRecords }
    ensures one { HaveOneList }
    ensures some_timed { HaveTimedRecords }
    ensures one_timed { HaveOneTimedList }
{}

/// The first moment is 2 microseconds after the epoch or later, each other one at least 2 microseconds after the moment
/// before, none before its record's stamp, none later than it must be, and all below 2^32 seconds.
pub fn moments_rise()
    ensures first { BeginAtTwo }
    ensures next { GoOnByTwo }
    ensures below { StayBelowTheLimit }
    // A record at 4294967295.999999 seconds is the last one: whatever stands after it is refused.
    ensures last { NoneAfterTheLastMoment }
{}
