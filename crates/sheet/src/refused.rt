//! What is printed of a sheet that is refused.
ghost use Rattle.std.specs.Prelude.{◌≡◌, ◌≤◌, length, IfOk, OnErr};
ghost use Rattle.sheet.specs.Report.{refusal_text, Written};

use crate::fault::Fault;
use crate::refusal::Refusal;
use crate::text::{Text, put, put_labelled, write};

/// Writes the refusal of a sheet, `refused N line L` and LF, with line 0 where the sheet was refused before its lines.
/// Answers how many bytes were written. Refused where the buffer has fewer than 800 bytes.
pub fn write_refusal(refusal: Refusal, buffer: &mut [u8]) -> Result<usize, Fault>
    ensures value { Written (refusal_text refusal (length buffer.old)) buffer.old buffer.new result }
    ensures within { IfOk result (λ n. n ≤ 800) }
    ensures same { OnErr result (buffer.new ≡ buffer.old) }
{
    if buffer.len() < 800 {
        return Err(Fault::BufferTooShort);
    }
    let mut text = Text::new();
    put_labelled(&mut text, b"refused ", usize::from(refusal.fault.number()));
    put_labelled(&mut text, b" line ", refusal.told_line());
    put(&mut text, b"\n");
    Ok(write(&text, buffer))
}
