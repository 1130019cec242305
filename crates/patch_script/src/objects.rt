//! The object of a line, and its fields. A plain one lies in a row: its values are texts, whole numbers of 32 bits, flags and lists of
//! such numbers, as those of nearly every line are. Any other is a tree of JSON values.
ghost use Rattle.std.specs.Prelude.{IfOk, IfErr, OnOk, false, ◌≡◌, ◌≤◌, ◌++◌, ◌∷◌, length, [], Some, option_map};
ghost use Rattle.patch_script.specs.Gives.{Gives, Fails};
ghost use Rattle.patch_script.specs.Field.{whole, wholes, wholes_of, positive, writer_number, hex_bytes, needed, optional, if_there};
ghost use Rattle.patch_script.specs.Name.{name_of};
ghost use Rattle.patch_script.specs.Object.{numbers_data, plain_data, entry_data, row_data, object_data};
ghost use Rattle.patch_script.specs.declared.defects.Name.TheVariants.{Op, Writer};
ghost use Rattle.serde_json.specs.Find.{as_bool, as_str, get};
ghost use Rattle.serde_json.specs.View.{view, items_view};
ghost use Rattle.std.specs.Result.{result_ok};
ghost use Rattle.hex.specs.Hex.{decode_of};

use crate::defects::{Defect, Name};
use crate::line_error::{LineError, missing, wrong};
use patch_model::{Bytes, Items, MAX_WRITER, Numbers, PatchNo, WriterNo};
use serde_json::Value;
use std::alloc::Global;

/// A value of a plain object.
#[derive(Drop)]
pub(crate) enum Plain<'a> {
    Text(&'a str),
    Whole(u32),
    Flag(bool),
    Wholes(Vec<u32>),
}

/// A member of a plain object.
#[derive(Drop)]
pub(crate) struct Member<'a> {
    pub(crate) name: &'a str,
    pub(crate) value: Plain<'a>,
}

/// Where the members of an object are.
#[derive(Drop)]
enum Held<'a> {
    /// As they stand in the line.
    Row(Vec<Member<'a>>),
    Tree(&'a Value),
}

/// The object of a line.
#[derive(Drop)]
pub struct Object<'a> {
    held: Held<'a>,
}

impl<'a> Object<'a> {
    /// An object whose members are these.
    pub(crate) fn of_row(members: Vec<Member<'a>>) -> Object<'a>
        ensures { object_data result ≡ row_data members.entry.items }
    {
        Object {
            held: Held::Row(members),
        }
    }

    /// The object that a JSON value is. It has no member where that is none.
    pub fn of_value(value: &'a Value) -> Object<'a>
        ensures { object_data result ≡ view value.now }
    {
        Object {
            held: Held::Tree(value),
        }
    }
}

/// What stands at a name of an object.
#[derive(Clone, Copy)]
enum Entry<'e> {
    Plain(&'e Plain<'e>),
    Tree(&'e Value),
}

/// The value of the last member of this name.
fn last_named<'m>(members: &'m [Member<'m>], name: &str) -> Option<&'m Plain<'m>>
    ensures { option_map (λ p. plain_data p.now) result ≡ get name.now (row_data members.now) }
{
    for passed in 0..members.len() {
        let member = &members[members.len() - 1 - passed];
        if member.name == name {
            return Some(&member.value);
        }
    }
    None
}

fn found_at<'o>(line: &'o Object<'o>, name: Name) -> Option<Entry<'o>>
    ensures { option_map entry_data result ≡ get (name_of name) (object_data line.now) }
{
    match &line.held {
        Held::Row(members) => match last_named(members.as_slice(), name.as_str()) {
            Some(value) => Some(Entry::Plain(value)),
            None => None,
        },
        Held::Tree(value) => match value.get(name.as_str()) {
            Some(found) => Some(Entry::Tree(found)),
            None => None,
        },
    }
}

// Kinds of values. The name is told where the value is of another kind.

/// A whole number of 32 bits.
fn as_whole(found: Entry<'_>, name: Name) -> Result<u32, LineError>
    ensures { Gives result (whole (entry_data found.entry)) }
{
    match found {
        Entry::Plain(Plain::Whole(number)) => Ok(*number),
        Entry::Plain(_) => Err(wrong(name)),
        Entry::Tree(value) => match value.as_u64() {
            Some(number) if number <= u32::MAX as u64 => Ok(number as u32),
            _ => Err(wrong(name)),
        },
    }
}

/// A whole number of 32 bits above 0.
fn as_positive(found: Entry<'_>, name: Name) -> Result<u32, LineError>
    ensures { Gives result (positive (entry_data found.entry)) }
{
    match as_whole(found, name)? {
        0 => Err(wrong(name)),
        number => Ok(number),
    }
}

fn as_flag(found: Entry<'_>, name: Name) -> Result<bool, LineError>
    ensures { Gives result (as_bool (entry_data found.entry)) }
{
    match found {
        Entry::Plain(Plain::Flag(flag)) => Ok(*flag),
        Entry::Plain(_) => Err(wrong(name)),
        Entry::Tree(value) => value.as_bool().ok_or(wrong(name)),
    }
}

fn as_str<'e>(found: Entry<'e>) -> Option<&'e str>
    ensures { option_map (λ s. s.now) result ≡ as_str (entry_data found.entry) }
{
    match found {
        Entry::Plain(Plain::Text(text)) => Some(*text),
        Entry::Plain(_) => None,
        Entry::Tree(value) => value.as_str(),
    }
}

/// The bytes of hexadecimal text.
fn decoded(alloc: Global, text: &str, name: Name) -> Result<Bytes, LineError>
    ensures { Gives result (result_ok (decode_of text.now)) }
{
    match hex::decode(alloc, text) {
        Ok(bytes) => Ok(Items::from_vec(bytes)),
        Err(hex::FromHexError::OutOfMemory) => Err(LineError::OutOfMemory),
        Err(_) => Err(wrong(name)),
    }
}

fn as_bytes(alloc: Global, found: Entry<'_>, name: Name) -> Result<Bytes, LineError>
    ensures { Gives result (hex_bytes (entry_data found.entry)) }
{
    match as_str(found) {
        Some(text) => decoded(alloc, text, name),
        None => Err(wrong(name)),
    }
}

/// The bytes of a text, in UTF-8.
fn as_text(alloc: Global, found: Entry<'_>, name: Name) -> Result<Bytes, LineError>
    ensures { Gives result (as_str (entry_data found.entry)) }
{
    match as_str(found) {
        Some(text) => Ok(Items::from_vec(Vec::from_slice(alloc, text.as_bytes())?)),
        None => Err(wrong(name)),
    }
}

/// Whole numbers of 32 bits as those of patches.
fn as_patches(alloc: Global, wholes: &[u32]) -> Result<Numbers, LineError>
    ensures { Gives result (wholes_of (numbers_data wholes.now)) }
{
    let mut numbers = Vec::with_capacity(alloc, wholes.len())?;
    for whole in wholes {
        numbers.push_reserved(PatchNo(*whole));
    }
    Ok(Items::from_vec(numbers))
}

/// Adds the number of a JSON value to others.
fn push_whole(numbers: &mut Vec<PatchNo>, value: &Value, name: Name) -> Result<(), LineError>
    ensures ok { OnOk result (option_map (λ n. numbers.old.items ++ n ∷ []) (whole (view value.now)) ≡ Some numbers.new.items) }
    ensures err { IfErr result (λ e. Fails e (whole (view value.now))) }
{
    let number = as_whole(Entry::Tree(value), name)?;
    numbers.push(PatchNo(number))?;
    Ok(())
}

/// The numbers of a list of JSON values.
fn numbers_in(alloc: Global, values: &Vec<Value>, name: Name) -> Result<Numbers, LineError>
    ensures { Gives result (wholes_of (items_view values.now.items)) }
{
    let mut numbers = Vec::new(alloc);
    for value in values {
        if let Err(error) = push_whole(&mut numbers, value, name) {
            drop(numbers);
            return Err(error);
        }
    }
    Ok(Items::from_vec(numbers))
}

fn as_numbers(alloc: Global, found: Entry<'_>, name: Name) -> Result<Numbers, LineError>
    ensures { Gives result (wholes (entry_data found.entry)) }
{
    match found {
        Entry::Plain(Plain::Wholes(wholes)) => as_patches(alloc, wholes.as_slice()),
        Entry::Plain(_) => Err(wrong(name)),
        Entry::Tree(value) => match value.as_array() {
            Some(values) => numbers_in(alloc, values, name),
            None => Err(wrong(name)),
        },
    }
}

/// The fields of a line's object, each by its name and kind.
impl<'a> Object<'a> {
    /// A number that has to be there.
    pub fn number(&self, name: Name) -> Result<u32, LineError>
        ensures { Gives result (needed whole (name_of name) (object_data self.now)) }
    {
        match found_at(self, name) {
            Some(found) => as_whole(found, name),
            None => Err(missing(name)),
        }
    }

    /// A number that may be missing.
    pub fn number_or(&self, name: Name, default: u32) -> Result<u32, LineError>
        ensures { Gives result (optional whole default (name_of name) (object_data self.now)) }
    {
        match found_at(self, name) {
            Some(found) => as_whole(found, name),
            None => Ok(default),
        }
    }

    /// A number, where there is something of its name.
    pub fn number_if_there(&self, name: Name) -> Result<Option<u32>, LineError>
        ensures { Gives result (if_there whole (name_of name) (object_data self.now)) }
    {
        match found_at(self, name) {
            Some(found) => Ok(Some(as_whole(found, name)?)),
            None => Ok(None),
        }
    }

    /// A number above 0 that has to be there.
    pub fn positive_number(&self, name: Name) -> Result<u32, LineError>
        ensures { Gives result (needed positive (name_of name) (object_data self.now)) }
    {
        match found_at(self, name) {
            Some(found) => as_positive(found, name),
            None => Err(missing(name)),
        }
    }

    /// The line's writer, 0 where it names none.
    pub fn writer(&self) -> Result<WriterNo, LineError>
        ensures { Gives result (optional writer_number 0 (name_of Writer) (object_data self.now)) }
    {
        let Some(found) = found_at(self, Name::Writer) else {
            return Ok(WriterNo(0));
        };
        match as_whole(found, Name::Writer)? {
            number if number <= MAX_WRITER as u32 => Ok(WriterNo(number as u8)),
            _ => Err(wrong(Name::Writer)),
        }
    }

    /// A flag, which isn't set where it is missing.
    pub fn flag(&self, name: Name) -> Result<bool, LineError>
        ensures { Gives result (optional as_bool false (name_of name) (object_data self.now)) }
    {
        match found_at(self, name) {
            Some(found) => as_flag(found, name),
            None => Ok(false),
        }
    }

    /// Bytes that have to be there.
    pub fn bytes(&self, alloc: Global, name: Name) -> Result<Bytes, LineError>
        ensures { Gives result (needed hex_bytes (name_of name) (object_data self.now)) }
    {
        match found_at(self, name) {
            Some(found) => as_bytes(alloc, found, name),
            None => Err(missing(name)),
        }
    }

    /// The bytes of a text that has to be there, in UTF-8.
    pub fn text(&self, alloc: Global, name: Name) -> Result<Bytes, LineError>
        ensures { Gives result (needed as_str (name_of name) (object_data self.now)) }
    {
        match found_at(self, name) {
            Some(found) => as_text(alloc, found, name),
            None => Err(missing(name)),
        }
    }

    /// Numbers that have to be there.
    pub fn numbers(&self, alloc: Global, name: Name) -> Result<Numbers, LineError>
        ensures { Gives result (needed wholes (name_of name) (object_data self.now)) }
    {
        match found_at(self, name) {
            Some(found) => as_numbers(alloc, found, name),
            None => Err(missing(name)),
        }
    }

    /// Numbers that may be missing.
    pub fn numbers_or_none(&self, alloc: Global, name: Name) -> Result<Numbers, LineError>
        ensures { Gives result (optional wholes [] (name_of name) (object_data self.now)) }
    {
        match found_at(self, name) {
            Some(found) => as_numbers(alloc, found, name),
            None => Ok(Items::from_vec(Vec::new(alloc))),
        }
    }

    /// The name of what the line asks for; where it isn't a text, that is wrong with it.
    pub fn op(&self, unknown: Defect) -> Result<&str, LineError>
        ensures ok { IfOk result (λ op. needed as_str (name_of Op) (object_data self.now) ≡ Some op.now) }
        ensures err { IfErr result (λ e. Fails e (needed as_str (name_of Op) (object_data self.now))) }
    {
        match found_at(self, Name::Op) {
            Some(found) => as_str(found).ok_or(LineError::Unreadable(unknown)),
            None => Err(missing(Name::Op)),
        }
    }
}
