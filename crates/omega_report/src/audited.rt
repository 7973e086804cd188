//! The report of an audit.
ghost use Rattle.std.specs.Prelude.{◌≡◌, IfOk};
ghost use Rattle.omega_cell.specs.Effects.{usage_in};
ghost use Rattle.omega_model.specs.ReportForms.{in_format};
ghost use Rattle.omega_model.specs.State.{state};
ghost use Rattle.omega_report.specs.AuditLines.{audit_lines};

use crate::page::Page;
use omega_cell::Usage;
use omega_model::{Bytes, Entry, Format, NoMemory};
use std::alloc::Global;

/// The bytes of the report of an audited history in this format: how many entries it has, and what is used
/// of the cell after the last one, which is `last`.
pub fn audit_report(
    alloc: Global,
    format: Format,
    history: &[Entry],
    last: Usage,
) -> Result<Bytes, NoMemory>
    requires { last ≡ usage_in (state history.now) }
    ensures { IfOk result (λ bytes. bytes ≡ in_format format (audit_lines history.now)) }
{
    let mut page = Page::new(alloc, format);
    page.first()?;
    page.legal(history.len() as u64)?;
    page.usage(last.used, last.capacity)?;
    page.finish()
}
