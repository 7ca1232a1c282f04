//! What a line says beyond its kind.

ghost use Rattle.std.specs.Prelude.{◌≡◌, ◌≢◌, ◌≤◌, ◌||◌, [], ◌∷◌, ◌++◌, false, true, length, IfOk, OnOk};
ghost use Rattle.std.specs.Fmt.{decimal};
ghost use Rattle.mac_log.specs.Fields.{cut_field, field_text, fitting, no_fields, value_room, with_field};
ghost use Rattle.mac_log.specs.Fields.{with_front};
ghost use Rattle.mac_log.specs.Id.{is_told_id};
ghost use Rattle.mac_log.specs.Key.{key_word};
ghost use Rattle.mac_log.specs.Name.{is_told_name};

use crate::NoMemory;
use crate::key::Key;
use crate::value::{append_escaped, append_value, escaped_size};
use std::alloc::Global;
use std::marker::Model;

/// The room of fields that are told as they are, in bytes.
pub const FIELDS_ROOM: usize = 940;

/// The most bytes of fields, the last of which was cut.
pub const FIELDS_MAX: usize = 960;

/// The fields of a line, in the order in which they were added. Where they would pass their room,
/// one is cut, and none is told behind it.
#[derive(Drop)]
pub struct Fields {
    text: Vec<u8>,
    is_cut: bool,
}

impl Model for Fields {
    ghost use Rattle.std.specs.Prelude.{◌≡◌, ◌≤◌, false, length};
    ghost use Rattle.mac_log.specs.Fields.{FieldsText};
    ghost use Rattle.mac_log.specs.declared.fields.TheConstants.{FIELDS_MAX, FIELDS_ROOM};

    ghost Value = { FieldsText };

    ghost view = { λ fields. record { text = fields.text.items; is_cut = fields.is_cut } };

    ghost invariant = { λ fields. (length fields.text.items ≤ FIELDS_MAX)
        × (fields.is_cut ≡ false → length fields.text.items ≤ FIELDS_ROOM) };
}

impl Fields {
    /// No field. It takes no memory.
    pub fn new(alloc: Global) -> Fields
        ensures { result ≡ no_fields }
    {
        Fields {
            text: Vec::new(alloc),
            is_cut: false,
        }
    }

    /// These fields and one more, whose value may be any bytes, but for the name of a key and the
    /// id of a request. What passes their room is cut, and ends in a mark.
    pub fn with_text(self, key: Key, value: &[u8]) -> Result<Fields, NoMemory>
        requires name { key ≡ Key.Name → is_told_name value.now ≡ true }
        requires id { key ≡ Key.Id → is_told_id value.now ≡ true }
        ensures { IfOk result (λ fields. fields ≡ with_field self key value.now) }
    {
        if self.is_cut {
            return Ok(self);
        }
        let room = value_room(self.text.as_slice(), key);
        let count = fitting(room, value);
        if room > 0 && count == value.len() {
            self.whole(key, value)
        } else {
            self.cut(key, &value[..count])
        }
    }

    /// These fields and one more, of whose value so many bytes are told at most. A longer one is
    /// cut, and ends in a mark.
    pub fn with_front(self, key: Key, value: &[u8], most: usize) -> Result<Fields, NoMemory>
        requires name { key ≢ Key.Name }
        requires id { key ≢ Key.Id }
        ensures { IfOk result (λ fields. fields ≡ with_front self key most value.now) }
    {
        if value.len() <= most || self.is_cut {
            return self.with_text(key, value);
        }
        let front = &value[..most];
        let count = fitting(value_room(self.text.as_slice(), key), front);
        self.cut(key, &front[..count])
    }

    /// These fields and one more, a decimal number.
    pub fn with_number(self, alloc: Global, key: Key, value: u64) -> Result<Fields, NoMemory>
        requires name { key ≢ Key.Name }
        requires id { key ≢ Key.Id }
        ensures { IfOk result (λ fields. fields ≡ with_field self key (decimal value)) }
    {
        let digits = value.to_string(alloc)?;
        self.with_text(key, digits.as_bytes())
    }

    /// These fields, none of which was cut, and one more that has room as it is.
    fn whole(self, key: Key, value: &[u8]) -> Result<Fields, NoMemory>
        requires { length (self.text ++ field_text key value.now) ≤ FIELDS_ROOM }
        ensures { IfOk result (λ fields. fields
            ≡ record { text = self.text ++ field_text key value.now; is_cut = false }) }
    {
        let Fields {
            mut text,
            is_cut: _,
        } = self;
        append_field(key, value, &mut text)?;
        Ok(Fields {
            text,
            is_cut: false,
        })
    }

    /// These fields, none of which was cut, and one more, of whose value this front has room.
    fn cut(self, key: Key, front: &[u8]) -> Result<Fields, NoMemory>
        requires { length (self.text ++ cut_field key front.now) ≤ FIELDS_MAX }
        ensures { IfOk result (λ fields. fields
            ≡ record { text = self.text ++ cut_field key front.now; is_cut = true }) }
    {
        let Fields {
            mut text,
            is_cut: _,
        } = self;
        append_cut(key, front, &mut text)?;
        Ok(Fields { text, is_cut: true })
    }

    /// The fields as a line has them.
    pub fn as_slice(&self) -> &[u8]
        ensures text { result.now ≡ self.now.text }
        ensures short { length result.now ≤ FIELDS_MAX }
    {
        self.text.as_slice()
    }
}

/// The room that a text leaves to the value of one more field and the quotation mark behind it.
fn value_room(text: &[u8], key: Key) -> usize
    ensures { result ≡ value_room text.now key }
{
    FIELDS_ROOM
        .saturating_sub(text.len())
        .saturating_sub(key.word().len())
        .saturating_sub(3)
}

/// How many bytes of a value fit, escaped and with a quotation mark behind them.
fn fitting(room: usize, value: &[u8]) -> usize
    ensures count { result ≡ fitting room value.now }
    ensures within { result ≤ length value.now }
{
    let mut left = room;
    for place in 0..value.len() {
        let size = escaped_size(value[place]);
        if size >= left {
            return place;
        }
        left -= size;
    }
    value.len()
}

/// Appends a field behind a space.
fn append_field(key: Key, value: &[u8], out: &mut Vec<u8>) -> Result<(), NoMemory>
    ensures { OnOk result (out.new.items ≡ out.old.items ++ field_text key value.now) }
{
    append_key(key, out)?;
    append_value(value, out)
}

/// Appends a field behind a space, with the front of its value, and the mark that it was cut.
fn append_cut(key: Key, front: &[u8], out: &mut Vec<u8>) -> Result<(), NoMemory>
    ensures { OnOk result (out.new.items ≡ out.old.items ++ cut_field key front.now) }
{
    append_key(key, out)?;
    out.extend_from_slice(b"\"")?;
    append_escaped(front, out)?;
    out.extend_from_slice(b"\" ...")
}

/// Appends a key behind a space, and the equals sign.
fn append_key(key: Key, out: &mut Vec<u8>) -> Result<(), NoMemory>
    ensures { OnOk result (out.new.items ≡ out.old.items ++ (32 ∷ (key_word key ++ 61 ∷ []))) }
{
    out.extend_from_slice(b" ")?;
    out.extend_from_slice(key.word().as_bytes())?;
    out.extend_from_slice(b"=")
}
