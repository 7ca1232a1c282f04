//! What came of a connection, in words.

use crate::fault::RunFault;
use crate::flags::Flags;
use mac_pool::Tally;
use mac_serve::ServeFault;
use mac_wire::Ending;
use std::alloc::Global;

/// What a connection told.
#[derive(Clone, Copy)]
pub(crate) struct Report {
    pub fault: Option<ServeFault>,
    pub ending: Ending,
    pub arrived: u64,
    pub sent: u64,
    pub written: u64,
}

/// The number of a fault, 0 where there is none.
pub(crate) fn fault_number(fault: Option<ServeFault>) -> u8 {
    match fault {
        Some(fault) => fault.code(),
        None => 0,
    }
}

/// The name of an ending.
pub(crate) fn ending_name(ending: Ending) -> &'static str {
    match ending {
        Ending::Clean => "clean",
        Ending::Torn => "torn",
        Ending::Oversize => "oversize",
        Ending::Broken => "broken",
    }
}

/// What a connection told and what it wrote, in hexadecimal.
pub(crate) fn report_text(alloc: Global, report: Report, bytes: &[u8]) -> Result<String, RunFault> {
    if report.written != bytes.len() as u64 {
        return Err(RunFault::Wrong);
    }
    let fault = fault_number(report.fault);
    let ending = ending_name(report.ending);
    let digits = hex::encode(alloc, bytes)?;
    Ok(format!(in alloc;
        "fault {fault} {ending} arrived {} sent {} written {}: {}",
        report.arrived,
        report.sent,
        report.written,
        digits.as_str()
    )?)
}

/// The books of a pool.
pub(crate) fn tally_text(alloc: Global, tally: Tally) -> Result<String, RunFault> {
    Ok(format!(in alloc;
        "put {} claimed {} left {}",
        tally.put, tally.claimed, tally.left
    )?)
}

/// The books of a pool, and what its one connection told and wrote.
pub(crate) fn outcome_text(
    alloc: Global,
    tally: Tally,
    report: Report,
    bytes: &[u8],
) -> Result<String, RunFault> {
    let told = report_text(alloc, report, bytes)?;
    let books = tally_text(alloc, tally)?;
    Ok(format!(in alloc; "{} {}", books.as_str(), told.as_str())?)
}

/// The same, once both flags came.
pub(crate) fn met_text(
    alloc: Global,
    flags: &Flags,
    tally: Tally,
    report: Report,
    bytes: &[u8],
) -> Result<String, RunFault> {
    if !flags.are_met() {
        return Err(RunFault::Wrong);
    }
    outcome_text(alloc, tally, report, bytes)
}
