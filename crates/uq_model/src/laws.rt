//! Worked rows of the definitions, as the contract of a call that does nothing.
ghost use Rattle.uq_model.specs.Rows.{NameRows, RecordRows, BatchRows, FullRows};

/// What names, records, lists of objects and limits come to.
pub fn worked_rows()
    ensures names { NameRows }
    ensures records { RecordRows }
    ensures batches { BatchRows }
    ensures full { FullRows }
{}
