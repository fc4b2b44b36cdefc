//! A text of JSON that is written piece by piece.

use crate::printed_line::is_number;
use serde_json::Value;
use std::alloc::{AllocError, Global};

/// A text of JSON.
#[derive(Drop)]
pub struct JsonText {
    alloc: Global,
    bytes: Vec<u8>,
}

impl JsonText {
    /// An empty one.
    pub fn new(alloc: Global) -> JsonText {
        JsonText {
            alloc,
            bytes: Vec::new(alloc),
        }
    }

    /// What is written.
    pub fn as_bytes(&self) -> &[u8] {
        self.bytes.as_slice()
    }

    /// Forgets what is written.
    pub fn clear(&mut self) {
        self.bytes.clear();
    }

    /// Puts a text behind it as it is.
    pub fn put(&mut self, text: &str) -> Result<(), AllocError> {
        self.bytes.extend_from_slice(text.as_bytes())
    }

    /// Puts another text behind it.
    pub fn put_all(&mut self, other: &JsonText) -> Result<(), AllocError> {
        self.bytes.extend_from_slice(other.as_bytes())
    }

    /// Puts a string behind it.
    pub fn put_string(&mut self, text: &str) -> Result<(), AllocError> {
        let string = Value::String(String::from_str(self.alloc, text)?);
        let written = string.to_string(self.alloc)?;
        self.put(written.as_str())
    }

    /// Puts the key of a member behind it, and a comma before that where it isn't the object's first.
    pub fn put_key(&mut self, key: &str) -> Result<(), AllocError> {
        if !self.bytes.ends_with(b"{") {
            self.put(",")?;
        }
        self.put_string(key)?;
        self.put(":")
    }

    /// Puts a member behind it that is a string.
    pub fn put_text(&mut self, key: &str, text: &str) -> Result<(), AllocError> {
        self.put_key(key)?;
        self.put_string(text)
    }

    /// Puts a member behind it that has no value.
    pub fn put_null(&mut self, key: &str) -> Result<(), AllocError> {
        self.put_key(key)?;
        self.put("null")
    }

    /// Puts a member behind it that is a number; a string, where the word is none.
    pub fn put_number(&mut self, key: &str, word: &str) -> Result<(), AllocError> {
        if !is_number(word) {
            return self.put_text(key, word);
        }
        self.put_key(key)?;
        self.put(word)
    }
}
