ghost use Rattle.std.specs.Prelude.{◌≡◌, ◌++◌, ℤ, IfSome, IfNone, OnOk};
ghost use Rattle.std.specs.Fmt.{decimal, signed_decimal};
ghost use Rattle.topo_io.specs.Decimal.{IsDecimal};

use itoa::Buffer;
use std::str;
use topo_base::{Memory, Text};

/// Appends the decimal of a signed number. After want of memory a front of it may stand.
pub fn push_number(text: &mut Text, n: i64) -> Result<(), Memory>
    ensures { OnOk result (text.new ≡ text.old ++ signed_decimal n) }
{
    let mut buffer = Buffer::new();
    text.push_bytes(buffer.format(n).as_bytes())
}

/// Appends the decimal of a count or an id. After want of memory a front of it may stand.
pub fn push_count(text: &mut Text, n: u64) -> Result<(), Memory>
    ensures { OnOk result (text.new ≡ text.old ++ decimal n) }
{
    let mut buffer = Buffer::new();
    text.push_bytes(buffer.format(n).as_bytes())
}

/// The number of 64 bits that a strict decimal spells, which is the one that is printed as this text:
/// `None` for a sign of plus, a minus before 0, zeros in front, and anything but digits. Takes no memory.
pub fn number(text: &[u8]) -> Option<i64>
    ensures some { IfSome result (IsDecimal text.now) }
    ensures none { IfNone result ((n : ℤ) → IsDecimal text.now n → ⊥) }
{
    let Ok(word) = str::from_utf8(text) else {
        return None;
    };
    let Ok(n) = word.parse::<i64>() else {
        return None;
    };
    let mut buffer = Buffer::new();
    if buffer.format(n).as_bytes() == text {
        Some(n)
    } else {
        None
    }
}
