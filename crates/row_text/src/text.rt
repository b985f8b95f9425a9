//! A text that grows.
ghost use Rattle.std.specs.Prelude.{◌≡◌, ◌++◌, [], OnOk, OnErr};
ghost use Rattle.std.specs.Fmt.{decimal, signed_decimal};

use delos_types::bytes::Bytes;
use itoa::Buffer;
use std::alloc::{AllocError, Global};
use std::marker::Model;

/// A text that grows at its end.
#[derive(Drop)]
pub struct Text {
    bytes: Vec<u8>,
}

impl Model for Text {
    ghost use Rattle.std.specs.Prelude.{List, ℕ};

    ghost Value = { List ℕ };

    ghost view = { λ t. t.bytes.items };
}

impl Text {
    /// The empty text, which takes no memory.
    pub fn new(alloc: Global) -> Text
        ensures { result ≡ [] }
    {
        Text {
            bytes: Vec::new(alloc),
        }
    }

    /// Puts bytes at the end.
    pub fn put(&mut self, bytes: &[u8]) -> Result<(), AllocError>
        ensures ok { OnOk result (self.new ≡ self.old ++ bytes.now) }
        ensures err { OnErr result (self.new ≡ self.old) }
    {
        self.bytes.extend_from_slice(bytes)
    }

    /// Puts a number in decimal.
    pub fn number(&mut self, n: u64) -> Result<(), AllocError>
        ensures ok { OnOk result (self.new ≡ self.old ++ decimal n) }
        ensures err { OnErr result (self.new ≡ self.old) }
    {
        let mut buffer = Buffer::new();
        self.bytes.extend_from_slice(buffer.format(n).as_bytes())
    }

    // A label, and the number behind it. After an error the label may stand alone.
    pub(crate) fn labelled(&mut self, label: &[u8], n: u64) -> Result<(), AllocError>
        ensures { OnOk result (self.new ≡ self.old ++ (label.now ++ decimal n)) }
    {
        self.put(label)?;
        self.number(n)
    }

    /// Puts a number in decimal, with its sign where it is below 0.
    pub fn signed(&mut self, z: i64) -> Result<(), AllocError>
        ensures ok { OnOk result (self.new ≡ self.old ++ signed_decimal z) }
        ensures err { OnErr result (self.new ≡ self.old) }
    {
        let mut buffer = Buffer::new();
        self.bytes.extend_from_slice(buffer.format(z).as_bytes())
    }

    /// The text, which is not copied.
    pub fn into_bytes(self) -> Bytes
        ensures { result ≡ self }
    {
        let Text { bytes } = self;
        Bytes::from_vec(bytes)
    }
}
