//! A field is a one-byte tag, a two-byte length and a value.
ghost use Rattle.std.specs.Prelude.{◌≡◌, ◌+◌, ◌*◌};
ghost use Rattle.std.specs.Option.{option_map};
ghost use Rattle.commands.specs.Steps.{cut, seen};

/// What was read at the front of some bytes, and the bytes behind it, a part of those bytes.
#[derive(Clone, Copy)]
pub struct Parsed<'a, T> {
    pub value: T,
    pub rest: &'a [u8],
}

/// A field, whose value is a part of the bytes that it was read from.
#[derive(Clone, Copy)]
pub struct Field<'a> {
    pub tag: u8,
    pub value: &'a [u8],
}

/// The length that two bytes state, the high one first.
pub fn length_of(hi: u8, lo: u8) -> usize
    ensures { result ≡ hi * 256 + lo }
{
    u16::from_be_bytes([hi, lo]) as usize
}

/// The field that the bytes begin with; none where it is cut short.
pub fn first_field<'a>(bytes: &'a [u8]) -> Option<Parsed<'a, Field<'a>>>
    ensures { option_map seen result ≡ cut bytes.now }
{
    let [tag, hi, lo, rest @ ..] = bytes else {
        return None;
    };
    let (value, rest) = rest.split_at_checked(length_of(*hi, *lo))?;
    Some(Parsed {
        value: Field { tag: *tag, value },
        rest,
    })
}
