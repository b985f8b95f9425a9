//! What goes up and down the engines: a payload under headers, one engine's each.
ghost use Rattle.std.specs.Prelude.{◌≡◌};

use crate::bytes::Bytes;
use std::alloc::{AllocError, Global};
use std::marker::Model;

/// What one engine adds to an item or an entry (SOSP 2021).
#[derive(Drop, Debug)]
pub struct Header {
    /// The engine's kind: 1 batch, 2 session, 3 view, 4 trim.
    pub kind: u8,
    pub body: Bytes,
}

impl Clone for Header {
    ghost is_clone = { λ x y. y ≡ x };

    fn clone(&self) -> Result<Header, AllocError> {
        let body = self.body.clone()?;
        Ok(Header {
            kind: self.kind,
            body,
        })
    }
}

/// A list of headers that owns them.
#[derive(Drop)]
pub struct Headers {
    items: Vec<Header>,
}

impl Model for Headers {
    ghost use Rattle.std.specs.Prelude.{List};
    ghost use Rattle.delos_types.specs.declared.item.Header.{Header};

    ghost Value = { List Header };

    ghost view = { λ h. h.items.items };
}

impl Headers {
    ghost use Rattle.std.specs.Prelude.{◌≡◌, [], ◌∷◌, IfOk};

    /// No headers, which takes no memory.
    pub fn new(alloc: Global) -> Headers
        ensures { result ≡ [] }
    {
        Headers {
            items: Vec::new(alloc),
        }
    }

    /// The list of one header.
    pub fn one(alloc: Global, header: Header) -> Result<Headers, AllocError>
        ensures { IfOk result (λ made. made ≡ header ∷ []) }
    {
        let mut items = Vec::new(alloc);
        items.push(header)?;
        Ok(Headers { items })
    }

    /// The list of these headers, which are not copied.
    pub fn from_vec(items: Vec<Header>) -> Headers
        ensures { result ≡ items.items }
    {
        Headers { items }
    }

    pub fn as_slice(&self) -> &[Header]
        ensures { result.now ≡ self.now }
    {
        self.items.as_slice()
    }
}

impl Clone for Headers {
    ghost is_clone = { λ x y. y ≡ x };

    fn clone(&self) -> Result<Headers, AllocError> {
        let items = self.items.clone()?;
        Ok(Headers { items })
    }
}

/// One command of a session, or one word of an engine, on its way up or down the stack.
#[derive(Drop)]
pub struct Item {
    pub headers: Headers,
    pub payload: Bytes,
}

impl Clone for Item {
    ghost is_clone = { λ x y. y ≡ x };

    fn clone(&self) -> Result<Item, AllocError> {
        let headers = self.headers.clone()?;
        let payload = self.payload.clone()?;
        Ok(Item { headers, payload })
    }
}

/// A list of items that owns them.
#[derive(Drop)]
pub struct ItemList {
    items: Vec<Item>,
}

impl Model for ItemList {
    ghost use Rattle.std.specs.Prelude.{List};
    ghost use Rattle.delos_types.specs.declared.item.Item.{Item};

    ghost Value = { List Item };

    ghost view = { λ a. a.items.items };
}

impl ItemList {
    ghost use Rattle.std.specs.Prelude.{◌≡◌, [], ◌++◌, ◌∷◌, OnOk, OnErr};

    /// No items, which takes no memory.
    pub fn new(alloc: Global) -> ItemList
        ensures { result ≡ [] }
    {
        ItemList {
            items: Vec::new(alloc),
        }
    }

    /// The list of these items, which are not copied.
    pub fn from_vec(items: Vec<Item>) -> ItemList
        ensures { result ≡ items.items }
    {
        ItemList { items }
    }

    /// The items, which are not copied.
    pub fn into_vec(self) -> Vec<Item>
        ensures { result.items ≡ self }
    {
        let ItemList { items } = self;
        items
    }

    pub fn as_slice(&self) -> &[Item]
        ensures { result.now ≡ self.now }
    {
        self.items.as_slice()
    }

    /// Adds an item at the end.
    pub fn push(&mut self, item: Item) -> Result<(), AllocError>
        ensures ok { OnOk result (self.new ≡ self.old ++ item ∷ []) }
        ensures err { OnErr result (self.new ≡ self.old) }
    {
        self.items.push(item)?;
        Ok(())
    }
}
