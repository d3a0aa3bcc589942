//! The bytes of a JSON string, piece by piece.
ghost use Rattle.std.specs.Prelude.{◌≡◌, ◌+◌, ◌-◌, ◌*◌, ◌<◌, ◌^◌, ◌%◌, ◌++◌, ◌∷◌, [], List, map, None, OnOk, IfOk, IsTrue, ◌&&◌};
ghost use Rattle.uq_json.specs.Internal.Decoding.{piece as spec_piece, bytes_behind, waiting_bytes};
ghost use Rattle.uq_json.specs.Strings.{Piece as Piece', is_high as spec_is_high, is_low as spec_is_low, pair as spec_pair, utf8};

use crate::piece::Piece;
use std::alloc::{AllocError, Global};

/// The bytes of the pieces so far. A number waits, since a low surrogate may come behind a high one.
#[derive(Drop)]
pub(crate) struct Decoder {
    pub(crate) bytes: Vec<u8>,
    pub(crate) waiting: Option<u16>,
}

impl Decoder {
    pub(crate) fn new(alloc: Global) -> Decoder
        ensures bytes { result.bytes.items ≡ [] }
        ensures waiting { result.waiting ≡ None }
    {
        Decoder {
            bytes: Vec::new(alloc),
            waiting: None,
        }
    }

    /// Takes the next piece.
    pub(crate) fn push(&mut self, piece: Piece) -> Result<(), AllocError>
        ensures { OnOk result ((others : List Piece') →
            self.new.bytes.items ++ bytes_behind self.new.waiting others
            ≡ self.old.bytes.items ++ bytes_behind self.old.waiting (spec_piece piece ∷ others)) }
    {
        match piece {
            Piece::Byte(byte) => {
                self.flush()?;
                self.bytes.push(byte)?;
                Ok(())
            }
            Piece::Code(code) => self.push_code(code),
        }
    }

    /// Takes bytes that stand for themselves.
    pub(crate) fn push_bytes(&mut self, bytes: &[u8]) -> Result<(), AllocError>
        ensures { OnOk result ((others : List Piece') →
            self.new.bytes.items ++ bytes_behind self.new.waiting others
            ≡ self.old.bytes.items ++ bytes_behind self.old.waiting (map Piece'.byte bytes.now ++ others)) }
    {
        if bytes.is_empty() {
            return Ok(());
        }
        self.flush()?;
        self.bytes.extend_from_slice(bytes)?;
        Ok(())
    }

    fn push_code(&mut self, code: u16) -> Result<(), AllocError>
        ensures { OnOk result ((others : List Piece') →
            self.new.bytes.items ++ bytes_behind self.new.waiting others
            ≡ self.old.bytes.items ++ bytes_behind self.old.waiting (Piece'.code code ∷ others)) }
    {
        if let Some(high) = self.waiting {
            if is_high(high) && is_low(code) {
                self.waiting = None;
                return push_utf8(&mut self.bytes, pair(high, code));
            }
        }
        self.flush()?;
        self.waiting = Some(code);
        Ok(())
    }

    /// Writes a number that waits, as the character or the lone surrogate that it is.
    pub(crate) fn flush(&mut self) -> Result<(), AllocError>
        ensures { OnOk result (
            (self.new.bytes.items ≡ self.old.bytes.items ++ waiting_bytes self.old.waiting) × (self.new.waiting ≡ None)) }
    {
        if let Some(code) = self.waiting {
            push_utf8(&mut self.bytes, u32::from(code))?;
            self.waiting = None;
        }
        Ok(())
    }
}

fn is_high(n: u16) -> bool
    ensures { result ≡ spec_is_high n }
{
    0xd800 <= n && n < 0xdc00
}

fn is_low(n: u16) -> bool
    ensures { result ≡ spec_is_low n }
{
    0xdc00 <= n && n < 0xe000
}

/// The character of a high and a low surrogate.
fn pair(high: u16, low: u16) -> u32
    requires high { IsTrue (spec_is_high high) }
    requires low { IsTrue (spec_is_low low) }
    ensures pair { result ≡ spec_pair high low }
    ensures bound { result < 0x11_0000 }
{
    0x1_0000 + (u32::from(high) - 0xd800) * 0x400 + (u32::from(low) - 0xdc00)
}

/// Appends the bytes that the scheme of UTF-8 has for a number (RFC 3629, section 3), a lone surrogate's too.
fn push_utf8(bytes: &mut Vec<u8>, n: u32) -> Result<(), AllocError>
    requires { n < 0x11_0000 }
    ensures { OnOk result (bytes.new.items ≡ bytes.old.items ++ utf8 n) }
{
    if n < 0x80 {
        bytes.extend_from_slice(&[n as u8])
    } else if n < 0x800 {
        bytes.extend_from_slice(&[lead(0xc0, n / 0x40), tail(n)])
    } else if n < 0x1_0000 {
        bytes.extend_from_slice(&[lead(0xe0, n / 0x1000), tail(n / 0x40), tail(n)])
    } else {
        bytes.extend_from_slice(&[
            lead(0xf0, n / 0x4_0000),
            tail(n / 0x1000),
            tail(n / 0x40),
            tail(n),
        ])
    }
}

/// The first byte of several.
fn lead(mark: u8, high_bits: u32) -> u8
    requires { mark + high_bits < 256 }
    ensures { result ≡ mark + high_bits }
{
    mark + high_bits as u8
}

/// A byte behind the first.
fn tail(n: u32) -> u8
    ensures { result ≡ 0x80 + n % 0x40 }
{
    0x80 + (n % 0x40) as u8
}
