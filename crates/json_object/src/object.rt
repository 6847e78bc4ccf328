//! An object of JSON (RFC 8259), member by member.

use json::Writer;
use std::alloc::{AllocError, Allocator};
use std::fmt::Display;
use tags::ObjectId;
use words::{Hex, Words};

/// An object that grows by members, which may be objects and lists themselves.
#[derive(Drop)]
pub struct Object<A: Allocator> {
    alloc: A,
    writer: Writer<A>,
}

impl<A: Allocator + Copy> Object<A> {
    /// The object without members.
    ///
    /// # Errors
    /// Want of memory, as of each of its calls.
    pub fn new(alloc: A) -> Result<Self, AllocError> {
        let mut writer = Writer::new(Vec::new(alloc));
        writer.begin_object()?;
        Ok(Object { alloc, writer })
    }

    /// Its text.
    pub fn into_text(self) -> Result<Vec<u8, A>, AllocError> {
        let Object { writer, .. } = self;
        let mut writer = writer;
        writer.end_object()?;
        Ok(writer.into_inner())
    }

    /// Adds a number.
    pub fn number(&mut self, name: &str, number: u64) -> Result<(), AllocError> {
        self.writer.key(name)?;
        self.writer.u64(number)
    }

    /// Adds a number with a sign.
    pub fn signed(&mut self, name: &str, number: i64) -> Result<(), AllocError> {
        self.writer.key(name)?;
        self.writer.i64(number)
    }

    /// Adds `true` or `false`.
    pub fn boolean(&mut self, name: &str, value: bool) -> Result<(), AllocError> {
        self.writer.key(name)?;
        self.writer.boolean(value)
    }

    /// Adds `null`.
    pub fn null(&mut self, name: &str) -> Result<(), AllocError> {
        self.writer.key(name)?;
        self.writer.null()
    }

    /// Adds a text.
    pub fn text(&mut self, name: &str, text: &str) -> Result<(), AllocError> {
        self.writer.key(name)?;
        self.writer.string(text)
    }

    /// Adds octets as a text of pairs of hexadecimal digits, which is empty where there are none.
    pub fn octets(&mut self, name: &str, octets: &[u8]) -> Result<(), AllocError> {
        if octets.is_empty() {
            return self.text(name, "");
        }
        self.shown(name, &Hex(octets))
    }

    /// Adds the type and the instance of an object, as `5:1`.
    pub fn object_id(&mut self, name: &str, object: &ObjectId) -> Result<(), AllocError> {
        self.shown(name, &Words(object))
    }

    /// Adds as a text how something is printed.
    pub fn shown<D: Display>(&mut self, name: &str, shown: &D) -> Result<(), AllocError> {
        let text = format!(in self.alloc; "{shown}")?;
        self.text(name, text.as_str())
    }

    /// Begins an object under this name.
    pub fn begin(&mut self, name: &str) -> Result<(), AllocError> {
        self.writer.key(name)?;
        self.writer.begin_object()
    }

    /// Begins an object in a list.
    pub fn begin_item(&mut self) -> Result<(), AllocError> {
        self.writer.begin_object()
    }

    /// Adds a number to a list.
    pub fn number_item(&mut self, number: u64) -> Result<(), AllocError> {
        self.writer.u64(number)
    }

    /// Ends an object that was begun in this one.
    pub fn end(&mut self) -> Result<(), AllocError> {
        self.writer.end_object()
    }

    /// Begins a list under this name.
    pub fn begin_list(&mut self, name: &str) -> Result<(), AllocError> {
        self.writer.key(name)?;
        self.writer.begin_array()
    }

    /// Ends a list.
    pub fn end_list(&mut self) -> Result<(), AllocError> {
        self.writer.end_array()
    }
}
