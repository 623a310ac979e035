// Values of parameters as types, each with a form in bytes.
ghost use Rattle.std.specs.Prelude.{◌≡◌, ℕ, Bool, true, List, [], ◌∷◌, length, is_ok, is_some, IfSome, if◌then◌else◌};
ghost use Rattle.parameters.specs.declared.parameter.Lawful.{Lawful};
ghost use Rattle.parameters.specs.declared.parameter.Lawful.TheVariants.{AnyByte, ByteUpto};
ghost use Rattle.parameters.specs.Parameters.{admits};
ghost use Rattle.parameters.specs.Values.{byte_at};
ghost use Rattle.parameters.specs.Forms.{byte_form, flag_byte, status_byte, single_any, single_upto};

use super::store::Unlawful;

/// A value of a parameter, which has a form in bytes.
pub trait Value {
    // The form of a value.
    ghost form: { Self → List ℕ };

    // Which bytes are the form of a value.
    ghost formed: { List ℕ → Bool };

    /// How many bytes the form has.
    fn length(&self) -> usize
        ensures length { result ≡ length (form self.now) };

    /// A byte of the form, or that there is none.
    fn byte(&self, place: usize) -> Option<u8>
        ensures byte { result ≡ byte_at (form self.now) place };

    /// Becomes the value that has this form; otherwise it stays.
    fn write(&mut self, value: &[u8]) -> Result<(), Unlawful>
        ensures taken { is_ok result ≡ formed value.now }
        ensures form { form self.new ≡ (if formed value.now then value.now else form self.old) };
}

/// A value for which one byte stands.
// kept: (d) a conversion of our own: `TryFrom<u8>` cannot be given to a bool here, and one trait serves all three types.
pub trait Coded {
    // The byte that stands for a value.
    ghost code: { Self → ℕ };

    // Which values of a parameter of this type are lawful.
    ghost lawful: { Lawful };

    // They have one byte each.
    ghost single: { (value : List ℕ) → admits lawful value ≡ true → length value ≡ 1 };

    /// The byte that stands for the value.
    fn code(self) -> u8
        ensures code { result ≡ code self };

    /// The value for which a byte stands, if the byte is lawful.
    fn from_code(byte: u8) -> Option<Self>
        ensures lawful { is_some result ≡ admits lawful (byte ∷ []) }
        ensures value { IfSome result (λ value. code value ≡ byte) };
}

impl<C: Coded + Copy> Value for C {
    ghost form = { λ value. byte_form (C.Coded.code value) };

    ghost formed = { admits C.Coded.lawful };

    fn length(&self) -> usize {
        1
    }

    fn byte(&self, place: usize) -> Option<u8> {
        (place == 0).then(|| self.code())
    }

    fn write(&mut self, value: &[u8]) -> Result<(), Unlawful> {
        let [byte] = value else {
            return Err(Unlawful);
        };
        *self = C::from_code(*byte).ok_or(Unlawful)?;
        Ok(())
    }
}

impl Coded for u8 {
    ghost code = { λ byte. byte };

    ghost lawful = { AnyByte };

    ghost single = { single_any };

    fn code(self) -> u8 {
        self
    }

    fn from_code(byte: u8) -> Option<u8> {
        Some(byte)
    }
}

impl Coded for bool {
    ghost code = { flag_byte };

    ghost lawful = { ByteUpto 1 };

    ghost single = { single_upto 1 };

    fn code(self) -> u8 {
        u8::from(self)
    }

    fn from_code(byte: u8) -> Option<bool> {
        match byte {
            0 => Some(false),
            1 => Some(true),
            _ => None,
        }
    }
}

/// Which frames about exchanges a card sends on its own.
#[derive(Clone, Copy, Debug, PartialEq, Eq)]
pub enum Reports {
    Neither,
    Errors,
    Statuses,
    Both,
}

impl Coded for Reports {
    ghost code = { status_byte };

    ghost lawful = { ByteUpto 3 };

    ghost single = { single_upto 3 };

    fn code(self) -> u8 {
        self as u8
    }

    fn from_code(byte: u8) -> Option<Reports> {
        match byte {
            0 => Some(Reports::Neither),
            1 => Some(Reports::Errors),
            2 => Some(Reports::Statuses),
            3 => Some(Reports::Both),
            _ => None,
        }
    }
}
