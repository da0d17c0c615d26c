// The line that a backup prints, and that of a node whose index was made anew.
ghost use Rattle.std.specs.Prelude.{◌≡◌, ◌++◌, IfOk, OnOk, string_bytes};
ghost use Rattle.med_commands.specs.Report.{report_head, report_tail, report_line, index_line};

use med_backup::BackupReport;
use med_base::{BackupName, Fqdn};
use med_index::IndexReport;
use std::alloc::{AllocError, Global};

fn head(alloc: Global, name: &BackupName, node: &Fqdn, files: u64) -> Result<String, AllocError>
    ensures { IfOk result (λ text. string_bytes text ≡ report_head name.now node.now files) }
{
    let name = name.as_str();
    let node = node.as_str();
    format!(in alloc; "backup {name} of {node}: {files} files, ")
}

fn tail(
    alloc: Global,
    bytes: u64,
    reused: u64,
    stored: u64,
    aside: u64,
) -> Result<String, AllocError>
    ensures { IfOk result (λ text. string_bytes text ≡ report_tail bytes reused stored aside) }
{
    format!(in alloc; "{bytes} bytes, {reused} reused, {stored} stored, {aside} aside\n")
}

/// The line of a backup that was made.
pub(crate) fn line_of(alloc: Global, report: &BackupReport) -> Result<String, AllocError>
    ensures { IfOk result (λ line. string_bytes line ≡ report_line report.now) }
{
    let mut line = head(alloc, &report.name, &report.node, report.files)?;
    let (reused, stored, aside) = (report.reused, report.stored, report.aside);
    let end = tail(alloc, report.bytes, reused, stored, aside)?;
    line.push_str(end.as_str())?;
    Ok(line)
}

fn index_line(alloc: Global, node: &Fqdn, report: IndexReport) -> Result<String, AllocError>
    ensures { IfOk result
        (λ line. string_bytes line ≡ index_line node.now report.put report.deleted) }
{
    let node = node.as_str();
    let (put, deleted) = (report.put, report.deleted);
    format!(in alloc; "index of {node}: {put} put, {deleted} deleted\n")
}

/// Adds the line of a node whose index was made anew.
pub(crate) fn add_index_line(
    alloc: Global,
    node: &Fqdn,
    report: IndexReport,
    lines: &mut String,
) -> Result<(), AllocError>
    ensures { OnOk result
        (string_bytes lines.new
        ≡ string_bytes lines.old ++ index_line node.now report.put report.deleted) }
{
    let line = index_line(alloc, node, report)?;
    lines.push_str(line.as_str())?;
    Ok(())
}
