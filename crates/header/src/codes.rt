// The numbers that 01 admits in a header's fields.
ghost use Rattle.std.specs.Prelude.{◌≡◌};
ghost use Rattle.header.specs.Codes.{code_of, is_user_code, is_alive_code, is_mode, is_pri, is_data_field, is_node};

// Whose a transaction code is.
#[derive(Clone, Copy, PartialEq, Eq)]
pub enum Code {
    User,
    Alive,
    System,
    Neither,
}

impl Code {
    // Messages carry user codes only.
    pub fn is_user(self) -> bool
        ensures { result ≡ is_user_code self }
    {
        self == Code::User
    }

    // Alive signals carry 60,003 only.
    pub fn is_alive(self) -> bool
        ensures { result ≡ is_alive_code self }
    {
        self == Code::Alive
    }
}

// Most codes are the user's: 60,003 as an arm of its own is asked for first, which costs each of them 4 instructions.
#[tactic(auto, unfolding(crate::specs::Codes::code_of))]
pub fn code_of(tcd: u16) -> Code
    ensures { result ≡ code_of tcd }
{
    match tcd {
        1..=59_999 => Code::User,
        60_000..=65_534 => {
            if tcd == 60_003 {
                Code::Alive
            } else {
                Code::System
            }
        }
        _ => Code::Neither,
    }
}

pub fn is_mode(mode: u16) -> bool
    ensures { result ≡ is_mode mode }
{
    mode <= 1
}

pub fn is_pri(pri: u8) -> bool
    ensures { result ≡ is_pri pri }
{
    pri <= 7
}

// 1 to 255. 01 asks for "a tuple struct each", so each of these has limits of its own.
#[repr(C)]
#[derive(Clone, Copy, PartialEq, Eq)]
pub struct DataField(pub u8);

// 1 to 4,095
#[repr(C)]
#[derive(Clone, Copy, PartialEq, Eq)]
pub struct Node(pub u16);

impl DataField {
    pub fn within(self) -> bool
        ensures { result ≡ is_data_field self.0 }
    {
        (1..=255).contains(&self.0)
    }
}

impl Node {
    pub fn within(self) -> bool
        ensures { result ≡ is_node self.0 }
    {
        (1..=4_095).contains(&self.0)
    }
}
