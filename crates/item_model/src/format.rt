ghost use Rattle.std.specs.Prelude.{◌≡◌};
ghost use Rattle.item_model.specs.Format.{code as code_of, width as width_of};
ghost use Rattle.item_model.specs.Reading.{format_with};

/// The formats of items (SEMI E5, item format codes).
#[derive(Clone, Copy)]
pub enum Format {
    List,
    Binary,
    Bool,
    Ascii,
    I1,
    I2,
    I4,
    I8,
    U1,
    U2,
    U4,
    U8,
}

impl Format {
    /// The six bits that stand for the format, in octal as the standard prints them.
    pub fn code(self) -> u8
        ensures { result ≡ code_of self }
    {
        match self {
            Format::List => 0o00,
            Format::Binary => 0o10,
            Format::Bool => 0o11,
            Format::Ascii => 0o20,
            Format::I8 => 0o30,
            Format::I1 => 0o31,
            Format::I2 => 0o32,
            Format::I4 => 0o34,
            Format::U8 => 0o50,
            Format::U1 => 0o51,
            Format::U2 => 0o52,
            Format::U4 => 0o54,
        }
    }

    /// The format with this code. None where no format has it.
    pub fn with_code(code: u8) -> Option<Format>
        ensures { result ≡ format_with code }
    {
        match code {
            0o00 => Some(Format::List),
            0o10 => Some(Format::Binary),
            0o11 => Some(Format::Bool),
            0o20 => Some(Format::Ascii),
            0o30 => Some(Format::I8),
            0o31 => Some(Format::I1),
            0o32 => Some(Format::I2),
            0o34 => Some(Format::I4),
            0o50 => Some(Format::U8),
            0o51 => Some(Format::U1),
            0o52 => Some(Format::U2),
            0o54 => Some(Format::U4),
            _ => None,
        }
    }

    /// How many bytes an element has. A list counts its items.
    pub fn width(self) -> usize
        ensures { result ≡ width_of self }
    {
        match self {
            Format::I8 | Format::U8 => 8,
            Format::I4 | Format::U4 => 4,
            Format::I2 | Format::U2 => 2,
            _ => 1,
        }
    }
}
