// The serial error status register of Tables 13 and 14.
ghost use Rattle.std.specs.Prelude.{◌≡◌};
ghost use Rattle.register.specs.Register.{is_register, driven_by};

// "Illegal Command Code, File Label, illegal read or write SPECIAL FUNCTIONS"
pub const ILLEGAL: u8 = 0x20;

// "Serial Checksum Error"
pub const CHECKSUM: u8 = 0x10;

// "Insufficient serial buffer space (overflow)": never set by us, for C to name
pub const OVERFLOW: u8 = 0x08;

// "Serial timeout", "Bit framing error" and "Parity error"
const TIME_OUT: u8 = 0x04;

const FRAMING: u8 = 0x02;

const PARITY: u8 = 0x01;

// "default value (40H or 01000000B)"
pub const CLEARED: u8 = 0x40;

// "Always 0" and "Always 1": bits 7 and 6.
#[tactic(auto, unfolding(crate::specs::Register::is_register))]
pub fn is_register(register: u8) -> bool
    ensures { result ≡ is_register register }
{
    register / 128 % 2 == 0 && register / 64 % 2 == 1
}

// Parity, framing and time-out bits come from the port driver; other bits are ignored, and a bit that is not there clears nothing.
pub fn driven_by(register: u8, bits: u8) -> u8
    ensures { result ≡ driven_by register bits }
{
    register | (bits & (TIME_OUT + FRAMING + PARITY))
}
