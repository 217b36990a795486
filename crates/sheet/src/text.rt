//! Text that is put together before it is written into a caller's buffer.
ghost use Rattle.std.specs.Prelude.{◌≡◌, ◌+◌, ◌≤◌, ◌++◌, length, decimal};
ghost use Rattle.sheet.specs.Bodies.{over};
ghost use Rattle.sheet.specs.Report.{ended};

use arrayvec::ArrayVec;
use itoa::Buffer;

/// A text of at most 800 bytes.
pub type Text = ArrayVec<u8, 800>;

/// Adds bytes to a text.
pub fn put(text: &mut Text, bytes: &[u8])
    requires { length text.old.items + length bytes.now ≤ 800 }
    ensures { text.new.items ≡ text.old.items ++ bytes.now }
{
    let _ = text.try_extend_from_slice(bytes);
}

/// Adds a label and a number to a text.
pub fn put_labelled(text: &mut Text, label: &[u8], number: usize)
    requires { length text.old.items + length label.now + 20 ≤ 800 }
    ensures value { text.new.items ≡ text.old.items ++ (label.now ++ decimal number) }
    ensures within { length text.new.items ≤ length text.old.items + length label.now + 20 }
{
    put(text, label);
    let mut digits = Buffer::new();
    put(text, digits.format(number).as_bytes());
}

/// A line of a label and a number.
pub fn line(label: &[u8], number: usize) -> Text
    requires { length label.now + 21 ≤ 800 }
    ensures value { result.items ≡ ended (label.now ++ decimal number) }
    ensures within { length result.items ≤ length label.now + 21 }
{
    let mut text = Text::new();
    put_labelled(&mut text, label, number);
    put(&mut text, b"\n");
    text
}

/// Writes a text at the front of a buffer; answers its length.
pub fn write(text: &Text, buffer: &mut [u8]) -> usize
    requires { 800 ≤ length buffer.old }
    ensures value { result ≡ length text.now.items }
    ensures after { buffer.new ≡ over text.now.items buffer.old }
    ensures within { result ≤ 800 }
{
    let bytes = text.as_slice();
    let end = bytes.len();
    buffer[..end].copy_from_slice(bytes);
    end
}
