ghost use Rattle.casper_dir.specs.Rights.{OneWriterOrReaders, WriterHoldsToWrite, SameRightsAreEqual};

/// The laws of page rights, as contracts of a call that does nothing.
pub fn rights_laws()
    ensures one { OneWriterOrReaders }
    ensures writer { WriterHoldsToWrite }
    ensures equal { SameRightsAreEqual }
{}
