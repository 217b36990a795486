//! The report: what is printed of a verdict.
ghost use Rattle.std.specs.Prelude.{◌≡◌, ◌≤◌, length, IfOk, OnErr};
ghost use Rattle.sheet.specs.Report.{report_text, Written, ReportsTheSheet};

use crate::checked::Checked;
use crate::fault::Fault;
use crate::text::write;
use crate::verdicts::verdict_text;
use search::verdict::Verdict;

/// Writes what a search says of a sheet: `found N` and the names of the N actions of the plan, one a line; or `none K`; or
/// `unfinished`. Every line ends in LF. Answers how many bytes were written.
///
/// Refused where the search is blank, where the buffer has fewer than 800 bytes, and where the sheet is refused or the plan
/// is not one of it: fewer numbers than N, more than 30, or a number that is no action's.
// Stays a buffer: it is the caller's, with 800 bytes at least, and the bytes after the text stay as they were.
pub fn report(
    sheet: &[u8],
    verdict: Verdict,
    plan: &[u8],
    buffer: &mut [u8],
) -> Result<usize, Fault>
    ensures value { Written (report_text sheet.now verdict plan.now (length buffer.old))
        buffer.old buffer.new result }
    ensures within { IfOk result (λ n. n ≤ 800) }
    ensures same { OnErr result (buffer.new ≡ buffer.old) }
    ensures law { ReportsTheSheet sheet.now verdict plan.now buffer.old buffer.new result }
{
    if let Verdict::Blank = verdict {
        return Err(Fault::Blank);
    }
    if buffer.len() < 800 {
        return Err(Fault::BufferTooShort);
    }
    let sheet = Checked::of(sheet).map_err(|_| Fault::Mismatch)?;
    let text = verdict_text(sheet, verdict, plan)?;
    Ok(write(&text, buffer))
}
