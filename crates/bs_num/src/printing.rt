// Numbers as decimal text.
ghost use Rattle.std.specs.Prelude.{◌≡◌, ◌≤◌, length, take, drop};
ghost use Rattle.std.specs.Fmt.{decimal as decimal_text, signed_decimal};

use itoa::{Buffer, Integer};

/// Writes the number as plain decimal text at the front of the room, and answers the text's length.
/// The bytes behind the text stay. It takes no memory.
pub fn decimal(n: u128, room: &mut [u8; 40]) -> usize
    ensures text { take result room.new ≡ decimal_text n }
    ensures length { result ≡ length (decimal_text n) }
    ensures behind { drop result room.new ≡ drop result room.old }
{
    let mut buffer = Buffer::new();
    put(buffer.format(n).as_bytes(), room)
}

/// Writes the number as plain decimal text, with a `-` before one below 0, at the front of the room,
/// and answers the text's length. The bytes behind the text stay. It takes no memory.
pub fn signed(n: i64, room: &mut [u8; 40]) -> usize
    ensures text { take result room.new ≡ signed_decimal n }
    ensures length { result ≡ length (signed_decimal n) }
    ensures behind { drop result room.new ≡ drop result room.old }
{
    let mut buffer = Buffer::new();
    put(buffer.format(n).as_bytes(), room)
}

fn put(text: &[u8], room: &mut [u8; 40]) -> usize
    requires { length text.now ≤ 40 }
    ensures text { take result room.new ≡ text.now }
    ensures length { result ≡ length text.now }
    ensures behind { drop result room.new ≡ drop result room.old }
{
    room[..text.len()].copy_from_slice(text);
    text.len()
}
