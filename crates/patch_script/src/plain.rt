//! The reading of plain objects, with no tree of values.
ghost use Rattle.std.specs.Prelude.{◌≡◌, ◌<◌, length, IfOk, OnSome, IfSome, Some, false};
ghost use Rattle.serde_json.specs.Data.{unsigned};
ghost use Rattle.serde_json.specs.Read.{read, number_of, number_from};
ghost use Rattle.patch_script.specs.Kind.{json_of};
ghost use Rattle.patch_script.specs.Object.{object_data};
ghost use Rattle.patch_script.specs.PlainTokens.{IsWhole, AreWholes, IsPlain, AreMembers};

use crate::objects::{Member, Object, Plain};
use fast_float::Numeral;
use json::{Reader, Scratch, Token};
use std::alloc::{AllocError, Global};

/// For so many members of an object room is made at once. No step of a script reads more.
const MEMBERS: usize = 8;

/// The most members of a plain object. An object of more is held as a tree, which keeps one value of a name that is repeated.
const MOST_MEMBERS: usize = 64;

/// The integer of 64 bits that a numeral without a sign writes, if it has neither point nor exponent.
fn unsigned_of(numeral: &Numeral<'_>) -> Option<u64>
    ensures digits { OnSome result (0 < length numeral.now.whole) }
    ensures value { IfSome result (λ n. number_from false numeral.now ≡ Some (unsigned n)) }
{
    numeral.to_u64()
}

/// The whole number of 32 bits that a JSON number writes with digits alone.
fn whole_of(text: &str) -> Option<u32>
    ensures { IfSome result (λ n. number_of text.now ≡ Some (unsigned n)) }
{
    let bytes = text.as_bytes();
    let number = unsigned_of(&Numeral::scan(bytes))?;
    if number <= u32::MAX as u64 {
        Some(number as u32)
    } else {
        None
    }
}

/// The whole number that comes next, if one does.
fn next_whole(reader: &mut Reader<'_>) -> Option<u32>
    ensures read { IfSome result (λ n. IsWhole reader.old n reader.new) }
    ensures shorter { OnSome result (length reader.new < length reader.old) }
{
    match reader.next() {
        Some(Token::Number(text)) => whole_of(text),
        _ => None,
    }
}

/// The whole numbers of a list that has begun, if it holds nothing else.
fn read_wholes(alloc: Global, reader: &mut Reader<'_>) -> Result<Option<Vec<u32>>, AllocError>
    ensures read { IfOk result (λ found. IfSome found (λ numbers. AreWholes reader.old numbers.items reader.new)) }
    ensures shorter { IfOk result (λ found. OnSome found (length reader.new < length reader.old)) }
{
    let mut numbers = Vec::new(alloc);
    'numbers: while !reader.take_end_array() {
        let Some(number) = next_whole(reader) else {
            return Ok(None);
        };
        numbers.push(number)?;
    }
    Ok(Some(numbers))
}

/// The plain value that comes next, if one does.
fn read_plain<'a>(alloc: Global, reader: &mut Reader<'a>) -> Result<Option<Plain<'a>>, AllocError>
    ensures read { IfOk result (λ found. IfSome found (λ plain. IsPlain reader.old plain reader.new)) }
    ensures shorter { IfOk result (λ found. OnSome found (length reader.new < length reader.old)) }
{
    let Some(token) = reader.next() else {
        return Ok(None);
    };
    match token {
        Token::String(text) => Ok(Some(Plain::Text(text))),
        Token::Number(text) => match whole_of(text) {
            Some(number) => Ok(Some(Plain::Whole(number))),
            None => Ok(None),
        },
        Token::Bool(flag) => Ok(Some(Plain::Flag(flag))),
        Token::BeginArray => match read_wholes(alloc, reader)? {
            Some(numbers) => Ok(Some(Plain::Wholes(numbers))),
            None => Ok(None),
        },
        _ => Ok(None),
    }
}

/// The members of an object that has begun, if it is a plain one.
fn read_members<'a>(
    alloc: Global,
    reader: &mut Reader<'a>,
) -> Result<Option<Vec<Member<'a>>>, AllocError>
    ensures { IfOk result (λ found. IfSome found (λ row. AreMembers reader.old row.items reader.new)) }
{
    let mut row = Vec::with_capacity(alloc, MEMBERS)?;
    'members: loop {
        let Ok(key) = reader.next_key() else {
            return Ok(None);
        };
        let Some(name) = key else {
            return Ok(Some(row));
        };
        if row.len() == MOST_MEMBERS {
            return Ok(None);
        }
        let Some(value) = read_plain(alloc, reader)? else {
            return Ok(None);
        };
        row.push(Member { name, value })?;
    }
}

/// The plain object that a text is, if it is one.
fn read_plain_text<'a>(
    alloc: Global,
    text: &'a str,
    scratch: &'a mut Scratch,
) -> Result<Option<Object<'a>>, AllocError>
    ensures { IfOk result (λ found. IfSome found (λ object. read text.now ≡ Some (object_data object))) }
{
    let mut reader = Reader::new(text, scratch)?;
    let Some(Token::BeginObject) = reader.next() else {
        return Ok(None);
    };
    let Some(row) = read_members(alloc, &mut reader)? else {
        return Ok(None);
    };
    if reader.next().is_some() {
        return Ok(None);
    }
    Ok(Some(Object::of_row(row)))
}

/// The plain object that some bytes are, if they are one.
#[tactic(auto, using(crate::proofs::Json::json_of_value))]
pub(crate) fn read_plain_object<'a>(
    alloc: Global,
    bytes: &'a [u8],
    scratch: &'a mut Scratch,
) -> Result<Option<Object<'a>>, AllocError>
    ensures { IfOk result (λ found. IfSome found (λ object. json_of bytes.now ≡ Some (object_data object))) }
{
    let Ok(text) = simdutf8::compat::from_utf8(bytes) else {
        return Ok(None);
    };
    read_plain_text(alloc, text, scratch)
}
