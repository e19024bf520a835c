use higra_report::ReportFault;

/// Why a report was not written, or not all of it.
#[derive(Clone, Copy, Debug, PartialEq, Eq)]
pub enum WriteFault {
    /// No report was made.
    Report(ReportFault),
    /// A write of it failed.
    WriteFailed,
}
