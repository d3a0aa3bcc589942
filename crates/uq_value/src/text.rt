//! Texts: bytes within the limit of a value.
ghost use Rattle.std.specs.Prelude.{◌≡◌, ◌≤◌, ◌++◌, IfOk, IfErr, OnOk, OnErr};
ghost use Rattle.uq_value.specs.Size.{text_size, most_size};
ghost use Rattle.uq_value.specs.Faults.{TextFault};

use crate::error::{NoMemory, ValueFault};
use crate::measuring::{MOST_SIZE, leb_size, name_size};
use std::alloc::Global;
use std::marker::Model;

/// Bytes, whose stored form is within the limit of a value. Contracts see the list of bytes.
#[derive(Drop)]
pub struct Text {
    bytes: Vec<u8>,
}

impl Model for Text {
    ghost use Rattle.std.specs.Prelude.{List, ℕ, ◌≤◌};
    ghost use Rattle.uq_value.specs.Size.{text_size, most_size};

    ghost Value = { List ℕ };

    ghost view = { λ t. t.bytes.items };

    ghost invariant = { λ t. text_size t.bytes.items ≤ most_size };
}

impl Text {
    /// A text of these bytes. It is `TooLarge` exactly where its size is above the limit of a value.
    pub fn new(alloc: Global, bytes: &[u8]) -> Result<Text, ValueFault>
        ensures ok { IfOk result (λ t. t ≡ bytes.now) }
        ensures fits { OnOk result (text_size bytes.now ≤ most_size) }
        ensures fault { IfErr result (TextFault bytes.now) }
    {
        if 1 + name_size(bytes) > MOST_SIZE {
            return Err(ValueFault::TooLarge);
        }
        Ok(Text::of(alloc, bytes)?)
    }

    /// A text of bytes that are known to fit.
    pub(crate) fn of(alloc: Global, bytes: &[u8]) -> Result<Text, NoMemory>
        requires { text_size bytes.now ≤ most_size }
        ensures { IfOk result (λ t. t ≡ bytes.now) }
    {
        let bytes = Vec::from_slice(alloc, bytes)?;
        Ok(Text { bytes })
    }

    /// A text of bytes that are its own from now on. It is `TooLarge` exactly where its size is above the limit.
    pub fn from_vec(_alloc: Global, bytes: Vec<u8>) -> Result<Text, ValueFault>
        ensures ok { IfOk result (λ t. t ≡ bytes.items) }
        ensures fits { OnOk result (text_size bytes.items ≤ most_size) }
        ensures fault { IfErr result (TextFault bytes.items) }
    {
        if 1 + name_size(bytes.as_slice()) > MOST_SIZE {
            return Err(ValueFault::TooLarge);
        }
        Ok(Text::from_vec_within(bytes))
    }

    /// A text of bytes that are known to fit, which are its own from now on.
    pub(crate) fn from_vec_within(bytes: Vec<u8>) -> Text
        requires { text_size bytes.items ≤ most_size }
        ensures { result ≡ bytes.items }
    {
        Text { bytes }
    }

    /// Appends these bytes, in place where there is room. It is `TooLarge` exactly where the text would be; after a
    /// refusal the text is as before.
    pub fn append(&mut self, more: &[u8]) -> Result<(), ValueFault>
        ensures ok { OnOk result (self.new ≡ self.old ++ more.now) }
        ensures fits { OnOk result (text_size (self.old ++ more.now) ≤ most_size) }
        ensures fault { IfErr result (TextFault (self.old ++ more.now)) }
        ensures unchanged { OnErr result (self.new ≡ self.old) }
    {
        let length = self.bytes.len() + more.len();
        if 1 + leb_size(length) + length as u64 > MOST_SIZE {
            return Err(ValueFault::TooLarge);
        }
        Ok(self.append_within(more)?)
    }

    /// Appends bytes with which the text is known to fit.
    fn append_within(&mut self, more: &[u8]) -> Result<(), NoMemory>
        requires { text_size (self.old ++ more.now) ≤ most_size }
        ensures ok { OnOk result (self.new ≡ self.old ++ more.now) }
        ensures unchanged { OnErr result (self.new ≡ self.old) }
    {
        self.bytes.extend_from_slice(more)?;
        Ok(())
    }

    /// The bytes.
    pub fn bytes(&self) -> &[u8]
        ensures bytes { result.now ≡ self.now }
        ensures fits { text_size self.now ≤ most_size }
    {
        self.bytes.as_slice()
    }

    pub(crate) fn copy(&self, alloc: Global) -> Result<Text, NoMemory>
        ensures { IfOk result (λ t. t ≡ self.now) }
    {
        Text::of(alloc, self.bytes())
    }
}
