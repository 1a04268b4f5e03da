//! Objects that are made field by field.
ghost use Rattle.std.specs.Prelude.{◌≡◌, IfOk, IfErr, false};
ghost use Rattle.serde_json.specs.Data.{no_members, object, put as with_member, string};
ghost use Rattle.serde_json.specs.View.{members_view, view};

use serde_json::{Map, ToValue, Value, put};
use std::alloc::{AllocError, Global};

/// The version of the forms of JSON.
pub const JSON_VERSION: u8 = 1;

/// An object whose fields are given one by one. If memory is refused for a field, `finish` tells it. So whoever makes
/// an object looks for a refusal once.
#[derive(Drop)]
pub struct ObjectBuilder {
    alloc: Global,
    /// The fields that were given.
    pub fields: Map<String, Value>,
    /// Whether memory was refused for a field.
    pub refused: bool,
}

impl ObjectBuilder {
    /// Returns an object without fields.
    pub fn new(alloc: Global) -> ObjectBuilder
        ensures empty { members_view result.fields.entries ≡ no_members }
    {
        ObjectBuilder {
            alloc,
            fields: Map::new(alloc),
            refused: false,
        }
    }

    /// Gives a field this value.
    pub fn put(&mut self, name: &str, value: Value)
        ensures kept { self.new.refused ≡ false → self.old.refused ≡ false }
        ensures put { self.new.refused ≡ false → members_view self.new.fields.entries
            ≡ with_member name.now (view value) (members_view self.old.fields.entries) }
    {
        if put(&mut self.fields, self.alloc, name, value).is_err() {
            self.refused = true;
        }
    }

    /// Gives a field this text.
    pub fn put_text(&mut self, name: &str, text: &str)
        ensures kept { self.new.refused ≡ false → self.old.refused ≡ false }
        ensures put { self.new.refused ≡ false → members_view self.new.fields.entries
            ≡ with_member name.now (string text.now) (members_view self.old.fields.entries) }
    {
        match text.to_value(self.alloc) {
            Ok(value) => self.put(name, value),
            Err(_) => self.refused = true,
        }
    }

    /// Gives a field a value that was made, unless memory was refused for it.
    pub fn put_made(&mut self, name: &str, value: Result<Value, AllocError>)
        ensures kept { self.new.refused ≡ false → self.old.refused ≡ false }
        ensures made { self.new.refused ≡ false → IfErr value (λ _. ⊥) }
        ensures put { self.new.refused ≡ false → IfOk value (λ v. members_view self.new.fields.entries
            ≡ with_member name.now (view v) (members_view self.old.fields.entries)) }
    {
        match value {
            Ok(value) => self.put(name, value),
            Err(_) => self.refused = true,
        }
    }

    /// Returns the object.
    ///
    /// # Errors
    ///
    /// `AllocError` if memory was refused for a field.
    pub fn finish(self) -> Result<Value, AllocError>
        ensures whole { IfOk result (λ _. self.refused ≡ false) }
        ensures fields { IfOk result (λ v. view v ≡ object (members_view self.fields.entries)) }
    {
        if self.refused {
            Err(AllocError)
        } else {
            Ok(Value::Object(self.fields))
        }
    }
}
