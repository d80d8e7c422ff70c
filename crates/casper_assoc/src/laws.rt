ghost use Rattle.casper_assoc.specs.AssociationsLaws.{OpenCallsAreEntries, OpenCallsAfterCalls, OpenCallsAfterTouch, OpenCallsAfterMark, ModifiedByTheWriter, MembersLabelledTheModified};
ghost use Rattle.casper_assoc.specs.PartLaws.{ClientsAreInTheirPart, MembersHaveTheLabel, PartsGoByLabel, PageLabelsAreLabels, WrittenPagesHaveTheLabel, LabelledPagesAreWritten, MergedPart, OthersStayApart, DissolvedAlone, OthersStayWhole};
ghost use Rattle.casper_assoc.specs.TrailLabels.{ModifiedPagesAreLabelled, WritersHaveThePagesLabel, PagesOfAPart, LabelsAtTheStart, EntryMergesParts, EntryWithinPart, CallsWithinPart, MarkDissolvesPart};

/// The laws of parts, of how they are merged and dissolved, and of their pages, as contracts of a call that does nothing.
pub fn part_laws()
    ensures own { ClientsAreInTheirPart }
    ensures members { MembersHaveTheLabel }
    ensures label { PartsGoByLabel }
    ensures pages { PageLabelsAreLabels }
    ensures written { WrittenPagesHaveTheLabel }
    ensures labelled { LabelledPagesAreWritten }
    ensures merged { MergedPart }
    ensures unmerged { OthersStayApart }
    ensures dissolved { DissolvedAlone }
    ensures whole { OthersStayWhole }
{}

/// The laws of labels and trails: labels that are the associations of a trail stay so as it grows, as contracts of a call that does
/// nothing.
pub fn trail_laws()
    ensures modified { ModifiedPagesAreLabelled }
    ensures writers { WritersHaveThePagesLabel }
    ensures pages { PagesOfAPart }
    ensures start { LabelsAtTheStart }
    ensures merges { EntryMergesParts }
    ensures within { EntryWithinPart }
    ensures calls { CallsWithinPart }
    ensures dissolves { MarkDissolvesPart }
{}

/// The laws of the counts of open calls and of modified pages, as contracts of a call that does nothing.
pub fn call_and_page_laws()
    ensures entries { OpenCallsAreEntries }
    ensures calls { OpenCallsAfterCalls }
    ensures touch { OpenCallsAfterTouch }
    ensures mark { OpenCallsAfterMark }
    ensures writer { ModifiedByTheWriter }
    ensures modified { MembersLabelledTheModified }
{}
