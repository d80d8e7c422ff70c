//! What holds of every table, said as contracts of functions that do nothing.
ghost use Rattle.casper_rec.specs.TableLaws.{TablesStandApart};

/// What makes a list of fields a table.
pub fn table_laws()
    ensures { TablesStandApart }
{}
