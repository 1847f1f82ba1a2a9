//! The law of dumps, carried by a function that does nothing.

ghost use Rattle.table_dump.specs.DumpLaw.{AreDumpsApart, AreDumpsGood, ArePrintedBack};

/// A text is the dump of at most one list of tables, and then it has no bad line; the printed text of tables in range
/// is their dump.
pub fn dump_law()
    ensures apart { AreDumpsApart }
    ensures good { AreDumpsGood }
    ensures printed { ArePrintedBack }
{}
