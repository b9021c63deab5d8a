//! Laws of what is read.

ghost use Rattle.tracer_read.specs.Laws.{EachStatementStays, EachListStays, SpellsWhatIsRead, ReadsWhatIsSpelled, OneReading, FirstFaultIsTold};

/// A body has a statement for each of its lists: none is dropped.
pub fn each_statement_stays()
    ensures { EachStatementStays }
{}

/// A script has a function, a tracepoint or the budget for each of its lists: none is dropped.
pub fn each_list_stays()
    ensures { EachListStays }
{}

/// What a text is read as, it spells: nothing is read that no form of the grammar stands for.
pub fn spells_what_is_read()
    ensures { SpellsWhatIsRead }
{}

/// A text is read as the script that it spells.
pub fn reads_what_is_spelled()
    ensures { ReadsWhatIsSpelled }
{}

/// No text spells two scripts.
pub fn one_reading()
    ensures { OneReading }
{}

/// A text is refused with the fault of its first node that has one, in order of first bytes, and
/// of that node's causes with the first. It is read exactly where no node has a fault.
pub fn first_fault_is_told()
    ensures { FirstFaultIsTold }
{}
