//! What answers mean, in words.
ghost use Rattle.std.specs.Prelude.{◌≡◌, ◌<◌, length};
ghost use Rattle.patch_c.specs.Texts.{cache_text_of, text_of, with_text};

/// What an answer of this number means that caches alone give. It is ASCII, and has no zero byte.
fn cache_text_of(answer: i32) -> &'static str
    ensures text { result.now ≡ cache_text_of answer }
    ensures short { length result.now < 64 }
{
    match answer {
        2 => "there is no such block",
        6 => "no patch has this number",
        7 => "the patch is durable",
        8 => "the patch is in flight",
        9 => "the patch is hard: it isn't taken back",
        10 => "the patch is taken already",
        11 => "a patch that depends on it isn't taken",
        14 => "a patch has 1 to 4,096 bytes",
        15 => "it passes the end of the block",
        16 => "it goes after a patch that isn't made",
        19 => "the patch isn't in memory",
        20 => "the two are one class",
        21 => "the two are of different blocks",
        22 => "the two neither overlap nor touch",
        23 => "a class between the two isn't theirs",
        24 => "a write of the block is under way",
        25 => "nothing is ready",
        26 => "no such write is under way",
        62 => "a patch is live, or a group is open",
        63 => "the block isn't resident",
        -20 => "the block is resident",
        _ => "unknown answer",
    }
}

/// What an answer of this number means. It is ASCII, and has no zero byte.
fn text_of(answer: i32) -> &'static str
    ensures text { result.now ≡ text_of answer }
    ensures short { length result.now < 64 }
{
    match answer {
        0 => "done",
        1 => "out of memory",
        4 => "the file can't be opened, made, read or written",
        5 => "not as many blocks as there may be",
        17 => "all numbers of changes are spent: open it again",
        18 => "too many changes are in memory: sync",
        27 => "there is no such group",
        28 => "a group can't go after itself",
        29 => "the group was engaged before",
        30 => "a group goes after this one",
        31 => "the group is engaged",
        32 => "the writer hasn't engaged the group",
        33 => "too many groups were made",
        34 => "there is no such extent",
        38 => "the extent was won back too often",
        39 => "a key has 1 to 32 bytes",
        40 => "the value is too long",
        41 => "the key has no value",
        42 => "there are as many keys as there can be",
        43 => "no extent has room",
        44 => "the extent is in use",
        45 => "the extent is empty",
        46 => "no store is divided like this",
        47 => "no store: its first block is wrong",
        48 => "no store: a pointer of an extent is wrong",
        49 => "no store: a slot is wrong",
        50 => "no store: a slot names no value",
        51 => "no store: two slots have one key",
        57 => "the file refused a write",
        -1 => "it isn't open",
        -2 => "it is open",
        -4 => "the buffer is too small",
        -5 => "there is no such entry",
        -6 => "the file is in use",
        -7 => "not synced: close the store and open it again",
        -8 => "there is no such writer",
        -9 => "the store was opened to be read",
        _ => cache_text_of(answer),
    }
}

/// Copies a text to the front of a buffer, as much as fits beside the zero byte that ends it.
fn copy_text(text: &[u8], into: &mut [u8])
    ensures { into.new ≡ with_text text.now into.old }
{
    if into.is_empty() {
        return;
    }
    let count = text.len().min(into.len() - 1);
    into[..count].copy_from_slice(&text[..count]);
    into[count] = 0;
}

/// Copies the text of an answer, and answers how long it is.
#[unsafe(no_mangle)]
pub extern "C" fn fstch_error_text(answer: i32, into: &mut [u8]) -> usize
    ensures length { result ≡ length (text_of answer) }
    ensures text { into.new ≡ with_text (text_of answer) into.old }
    ensures short { result < 64 }
{
    let text = text_of(answer).as_bytes();
    copy_text(text, into);
    text.len()
}
