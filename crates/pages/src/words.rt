//! The words of the messages to a page.
ghost use Rattle.std.specs.Prelude.{◌≡◌, ◌≤◌, ◌+◌, ◌++◌};
ghost use Rattle.arrayvec.specs.ArrayString.{array_string_len};
ghost use Rattle.pages.specs.Words.{end_text, integer_text, point_text};

use arrayvec::ArrayString;
use railway::{Block, BlockEnd, End, Point, block_name};
use railway_text::letter_of;
use text::push_number;

/// A message to a page: at most five bytes longer than a line.
pub(crate) type Message = ArrayString<645>;

/// Appends an end of a block, at most 34 bytes.
pub(crate) fn push_end(message: &mut Message, blocks: &[Block], end: BlockEnd)
    requires { array_string_len message.old + 34 ≤ 645 }
    ensures text { message.new.bytes ≡ message.old.bytes ++ end_text blocks.now end }
    ensures len { array_string_len message.new ≤ array_string_len message.old + 34 }
{
    message.push_str(block_name(blocks, usize::from(end.block)));
    message.push_str(".");
    message.push_str(letter_of(end.end));
}

/// Appends where an end of a block is drawn, at most 46 bytes; nothing if the plan does not say.
pub(crate) fn push_point(message: &mut Message, end: End, point: Option<Point>)
    requires { array_string_len message.old + 46 ≤ 645 }
    ensures text { message.new.bytes ≡ message.old.bytes ++ point_text end point }
    ensures len { array_string_len message.new ≤ array_string_len message.old + 46 }
{
    if let Some(point) = point {
        message.push_str(" ");
        message.push_str(letter_of(end));
        message.push_str(" ");
        push_integer(message, point.x);
        message.push_str(" ");
        push_integer(message, point.y);
    }
}

/// Appends an integer, at most 21 bytes.
fn push_integer(message: &mut Message, n: i32)
    requires { array_string_len message.old + 21 ≤ 645 }
    ensures text { message.new.bytes ≡ message.old.bytes ++ integer_text n }
    ensures len { array_string_len message.new ≤ array_string_len message.old + 21 }
{
    if n < 0 {
        message.push_str("-");
    }
    push_number(message, u64::from(n.unsigned_abs()));
}
