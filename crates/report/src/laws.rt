//! A law of reports.

ghost use Rattle.report.specs.Lines.{ReportsAreTables};

/// Each line of a report has seven fields with six commas between them, and no field holds a comma,
/// a quote, CR or LF.
pub fn reports_are_tables()
    ensures { ReportsAreTables }
{}
