//! Worked scripts: what is asked of a cache with groups, and what is answered.
use super::lines::{asks_in, group_in, number, writer_in};
use super::*;
use patch_device::{Device, MemDevice};
use patch_model::{BLOCK, Names, Step};
use std::alloc::{AllocError, Global};

// A line is an ask, and behind the sign what is answered. `by WRITER BLOCK LETTERS` makes a patch of a writer at the block's
// first byte, `patch BLOCK LETTERS` one of none; it names those that the line names further.
//
// `after WRITER`, `named BLOCK`, `sync GROUP` and `disk BLOCK` are no asks. The asks between them are a list, or answered one by one.
// What the last patch of a block names is told of those that were made since this was last asked.
const SCRIPTS: [&str; 12] = [
    // The second group depends on the first: what waits, and what is sealed.
    "\
group = group 0
group = group 1
engage 0 0 = ok
by 0 0 a = patch 0
disengage 0 0 = ok
depend 1 0 = ok
engage 0 1 = ok
by 0 1 b = patch 1
disengage 0 1 = ok
send 1 = refused NothingReady
engage 0 0 = refused Sealed
depend 0 1 = refused Sealed
pending 1 = count 1
sync 1 = synced
pending 1 = count 0
disk 1 = b
",
    // What can't be in order.
    "\
group = group 0
depend 0 0 = refused SameGroup
depend 0 1 = refused NoSuchGroup
disengage 0 0 = refused NotEngaged
sync 1 = refused NoSuchGroup
",
    // A closed group is none to all calls.
    "\
group = group 0
engage 0 0 = ok
engage 0 0 = refused Engaged
engage 7 0 = ok
close 0 = refused Engaged
disengage 0 0 = ok
close 0 = refused Engaged
disengage 7 0 = ok
close 0 = ok
engage 0 0 = refused NoSuchGroup
disengage 0 0 = refused NoSuchGroup
close 0 = refused NoSuchGroup
pending 0 = refused NoSuchGroup
sync 0 = refused NoSuchGroup
group = group 1
depend 1 0 = refused NoSuchGroup
",
    // All patches of the first group go first, durable ones too, and not the newest alone.
    "\
group = group 0
group = group 1
engage 0 0 = ok
by 0 0 a = patch 0
by 0 2 e = patch 1
disengage 0 0 = ok
depend 1 0 = ok
engage 0 1 = ok
after 0 = 0 1
by 0 1 b = patch 2
send 2 = sent 2
complete 2 = durable 2
after 0 = 0 1
send 1 = refused NothingReady
pending 0 = count 1
",
    // An empty group between two orders them all the same, and a closed one.
    "\
group = group 0
group = group 1
group = group 2
engage 0 0 = ok
by 0 0 a = patch 0
disengage 0 0 = ok
depend 1 0 = ok
depend 2 1 = ok
close 1 = ok
close 0 = ok
engage 0 2 = ok
by 0 1 b = patch 1
disengage 0 2 = ok
send 1 = refused NothingReady
send 0 = sent 0
send 1 = refused NothingReady
complete 0 = durable 0
send 1 = sent 1
",
    // A group that was engaged takes no order, and one that is engaged is no group to wait for.
    "\
group = group 0
group = group 1
engage 0 0 = ok
depend 1 0 = refused Engaged
disengage 0 0 = ok
depend 0 1 = refused Started
depend 1 0 = ok
depend 1 0 = ok
",
    // A patch joins all groups of its writer, and those of none join none.
    "\
group = group 0
group = group 1
group = group 2
engage 0 0 = ok
engage 0 1 = ok
engage 1 1 = ok
by 0 0 a = patch 0
by 1 1 b = patch 1
by 2 2 c = patch 2
patch 3 d = patch 3
disengage 0 0 = ok
disengage 0 1 = ok
disengage 1 1 = ok
depend 2 1 = ok
depend 2 0 = ok
engage 2 2 = ok
after 2 = 0 1
after 0 =
pending 0 = count 1
pending 1 = count 2
by 2 3 e 3 = patch 4
named 3 = 3 0 1
patch 4 f = patch 5
send 3 = sent 3
send 4 = sent 4
sync 2 = synced
disk 3 = e
disk 4 = f
pending 1 = count 0
",
    // Which groups are before those of a writer is kept, until an engagement or an order changes it.
    "\
group = group 0
group = group 1
group = group 2
group = group 3
engage 0 0 = ok
by 0 0 a = patch 0
disengage 0 0 = ok
engage 0 1 = ok
by 0 1 b = patch 1
disengage 0 1 = ok
depend 2 0 = ok
engage 0 2 = ok
by 0 2 c = patch 2
by 0 2 d = patch 3
by 1 5 z = patch 4
after 0 = 0
after 1 =
depend 3 1 = ok
engage 0 3 = ok
by 0 3 e = patch 5
named 3 = 0 1
after 0 = 0 1
engage 1 3 = ok
by 1 4 f = patch 6
named 4 = 1
named 3 =
after 1 = 1
after 0 = 0 1
disengage 0 2 = ok
by 0 6 g = patch 7
after 0 = 1
after 1 = 1
disengage 0 3 = ok
by 0 7 h = patch 8
after 0 =
send 6 = refused NothingReady
send 7 = sent 7
send 1 = sent 1
complete 1 = durable 1
send 6 = sent 6
send 4 = sent 4
send 3 = refused NothingReady
send 2 = refused NothingReady
by 1 7 q 2 3 0 = patch 9
named 7 = 2 3 0 1
",
    // What two writers come after is kept while both make patches, and found anew when one engages a group behind the other's.
    "\
group = group 0
group = group 1
group = group 2
group = group 3
group = group 4
engage 0 0 = ok
engage 1 1 = ok
by 0 0 a = patch 0
by 0 1 b = patch 1
by 1 2 c = patch 2
by 0 3 d = patch 3
disengage 0 0 = ok
disengage 1 1 = ok
depend 2 0 = ok
depend 3 1 = ok
engage 0 2 = ok
engage 1 3 = ok
by 0 4 e = patch 4
by 1 5 f = patch 5
by 2 7 z = patch 6
after 0 = 0 1 3
after 1 = 2
after 2 =
by 0 6 g = patch 7
named 6 = 0 1 3
by 1 7 h = patch 8
named 7 = 2
engage 2 0 = refused Sealed
depend 4 2 = refused Engaged
by 0 6 i 5 = patch 9
named 6 = 5 0 1 3
disengage 0 2 = ok
depend 4 2 = ok
engage 1 4 = ok
by 1 0 j = patch 10
named 0 = 0 1 2 3 4 7 9
by 1 1 k 8 = patch 11
named 1 = 8 0 1 2 3 4 7 9
by 0 2 l = patch 12
named 2 =
after 1 = 0 1 2 3 4 7 9
after 0 =
disengage 1 3 = ok
by 1 3 m = patch 13
named 3 = 0 1 3 4 7 9
after 1 = 0 1 3 4 7 9
",
    // What the cache refuses is in no group.
    "\
group = group 0
engage 0 0 = ok
by 0 9 a = refused NoSuchBlock
by 0 0 a 0 = refused UnknownDependency
pending 0 = count 0
by 0 0 a = patch 0
pending 0 = count 1
",
    // A sync completes what is held first, and leaves what its group doesn't need.
    "\
group = group 0
engage 0 0 = ok
patch 1 p = patch 0
send 1 = sent 1
by 0 0 a 0 = patch 1
patch 2 z = patch 2
sync 0 = synced
disk 0 = a
disk 1 = p
disk 2 = -
sync 0 = synced
",
    // What comes after three groups that have patches in turns, and one patch of two of them: rising, each once.
    "\
group = group 0
group = group 1
group = group 2
group = group 3
engage 0 0 = ok
engage 1 1 = ok
by 1 0 a = patch 0
by 0 1 b = patch 1
by 0 2 c = patch 2
by 1 3 d = patch 3
patch 4 e = patch 4
engage 0 1 = ok
by 0 5 f = patch 5
engage 2 2 = ok
by 2 6 g = patch 6
by 1 7 h = patch 7
disengage 0 0 = ok
disengage 0 1 = ok
disengage 1 1 = ok
disengage 2 2 = ok
depend 3 2 = ok
depend 3 1 = ok
depend 3 0 = ok
engage 0 3 = ok
after 0 = 0 1 2 3 5 6 7
after 1 =
",
];

// How the asks of a script reach the groups.
#[derive(Clone, Copy)]
enum Asking {
    InLists,
    OneByOne,
}

// A cache with its groups, the flights that it waits for, and its device.
struct Bench {
    alloc: Global,
    asking: Asking,
    groups: Groups,
    cache: Cache,
    flights: Flights,
    device: MemDevice,
}

fn tell_numbers(told: &mut String, numbers: &[PatchNo]) -> Result<(), AllocError> {
    for no in numbers {
        write!(told, " {no}")?;
    }
    Ok(())
}

fn tell_plain(told: &mut String, answer: &Answer) -> Result<(), AllocError> {
    match answer {
        Answer::Made(no) => write!(told, " patch {no}"),
        Answer::Merged(no) => write!(told, " merged {no}"),
        Answer::Sent { block, .. } => write!(told, " sent {block}"),
        Answer::Landed { block, .. } => write!(told, " durable {block}"),
        Answer::Seen { .. } => told.push_str(" seen"),
        Answer::Refused(refusal) => write!(told, " refused {}", refusal.kind),
    }
}

fn tell(told: &mut String, answer: &GroupAnswer) -> Result<(), AllocError> {
    match answer {
        GroupAnswer::Plain(answer) => tell_plain(told, answer),
        GroupAnswer::GroupMade(group) => write!(told, " group {group}"),
        GroupAnswer::Done => told.push_str(" ok"),
        GroupAnswer::Count(count) => write!(told, " count {count}"),
        GroupAnswer::Refused(refusal) => write!(told, " refused {refusal}"),
    }
}

fn answer_list(bench: &mut Bench, asks: &[GroupAsk]) -> Result<Vec<GroupAnswer>, Fail> {
    let Bench {
        groups,
        cache,
        flights,
        device,
        ..
    } = bench;
    match groups.run(cache, flights, device, asks) {
        Ok(answers) => Ok(answers),
        Err(_) => Err(Fail::from("no memory")),
    }
}

fn push_answers(
    answers: &mut Vec<GroupAnswer>,
    bench: &mut Bench,
    asks: Vec<GroupAsk>,
) -> Result<(), AllocError> {
    let Bench {
        groups,
        cache,
        flights,
        device,
        ..
    } = bench;
    for ask in asks {
        answers.push(groups.answer(cache, flights, device, ask))?;
    }
    Ok(())
}

fn answer_each(bench: &mut Bench, asks: Vec<GroupAsk>) -> Result<Vec<GroupAnswer>, Fail> {
    let mut answers = Vec::new(bench.alloc);
    push_answers(&mut answers, bench, asks)?;
    Ok(answers)
}

fn answers_of(bench: &mut Bench, lines: &[&str]) -> Result<Vec<GroupAnswer>, Fail> {
    let asks = asks_in(bench.alloc, lines)?;
    match bench.asking {
        Asking::InLists => answer_list(bench, &asks),
        Asking::OneByOne => answer_each(bench, asks),
    }
}

// Writes a line down with its answer.
fn tell_line(told: &mut String, line: &str, answer: &GroupAnswer) -> Result<(), AllocError> {
    write!(told, "{line} =")?;
    tell(told, answer)?;
    told.push('\n')
}

fn tell_all(told: &mut String, lines: &[&str], answers: &[GroupAnswer]) -> Result<(), AllocError> {
    for (line, answer) in lines.iter().zip(answers.iter()) {
        tell_line(told, line, answer)?;
    }
    Ok(())
}

// Asks the lines in one list, and writes each down with its answer.
fn ask_all(told: &mut String, bench: &mut Bench, lines: &[&str]) -> Result<(), Fail> {
    let answers = answers_of(bench, lines)?;
    tell_all(told, lines, &answers)?;
    Ok(())
}

fn tell_after(told: &mut String, bench: &mut Bench, word: &str) -> Result<(), Fail> {
    let writer = writer_in(word)?;
    let numbers = bench.groups.after_of(writer)?;
    tell_numbers(told, &numbers)?;
    Ok(())
}

// What the last of these patches names that is of the block.
fn last_names(steps: &[Step], of: u32) -> Option<&Names> {
    let mut last = None;
    for step in steps {
        if let Step::Create { block, after, .. } = step {
            if block.0 == of {
                last = Some(after);
            }
        }
    }
    last
}

fn tell_named(told: &mut String, bench: &mut Bench, word: &str) -> Result<(), Fail> {
    let steps = bench.cache.drain_trace()?;
    if let Some(names) = last_names(steps.as_slice(), number(word)) {
        let numbers = names.lend().to_vec(bench.alloc)?;
        tell_numbers(told, &numbers)?;
    }
    Ok(())
}

fn tell_synced(told: &mut String, bench: &mut Bench, word: &str) -> Result<(), Fail> {
    let Bench {
        groups,
        cache,
        flights,
        device,
        ..
    } = bench;
    match sync(groups, cache, flights, device, group_in(word)) {
        Ok(()) => told.push_str(" synced")?,
        Err(refusal) => write!(told, " refused {refusal}")?,
    }
    Ok(())
}

// The first byte that the device has of the block.
fn tell_disk(told: &mut String, bench: &mut Bench, word: &str) -> Result<(), Fail> {
    let mut bytes = [0xee; BLOCK];
    bench.device.read(number(word), &mut bytes)?;
    let first = bytes[0];
    let letter = if first == 0 { '-' } else { char::from(first) };
    write!(told, " {letter}")?;
    Ok(())
}

// Writes down what is no ask.
fn look_aside(told: &mut String, bench: &mut Bench, kind: &str, word: &str) -> Result<(), Fail> {
    write!(told, "{kind} {word} =")?;
    match kind {
        "after" => tell_after(told, bench, word)?,
        "named" => tell_named(told, bench, word)?,
        "sync" => tell_synced(told, bench, word)?,
        _ => tell_disk(told, bench, word)?,
    }
    told.push('\n')?;
    Ok(())
}

// What a line is that is no ask.
fn aside_in(line: &str) -> Option<(&str, &str)> {
    match line.split_once(' ') {
        Some((kind, word)) if matches!(kind, "after" | "named" | "sync" | "disk") => {
            Some((kind, word))
        }
        _ => None,
    }
}

// What a line has before the sign.
fn left_of(line: &str) -> &str {
    match line.split_once(" =") {
        Some((left, _)) => left,
        None => line,
    }
}

// Notes an ask; where the line is none, what was noted is asked first.
fn follow<'a>(
    told: &mut String,
    bench: &mut Bench,
    asked: &mut Vec<&'a str>,
    line: &'a str,
) -> Result<(), Fail> {
    match aside_in(line) {
        Some((kind, word)) => {
            ask_all(told, bench, asked.as_slice())?;
            asked.clear();
            look_aside(told, bench, kind, word)?;
        }
        None => asked.push(line)?,
    }
    Ok(())
}

fn follow_each<'a>(
    told: &mut String,
    bench: &mut Bench,
    asked: &mut Vec<&'a str>,
    script: &'a str,
) -> Result<(), Fail> {
    for line in script.lines() {
        follow(told, bench, asked, left_of(line))?;
    }
    ask_all(told, bench, asked.as_slice())
}

fn tell_script(told: &mut String, bench: &mut Bench, script: &str) -> Result<(), Fail> {
    let mut asked = Vec::new(bench.alloc);
    follow_each(told, bench, &mut asked, script)
}

// Walks through a script, and what is answered is the same.
fn follow_script(rt: &impl Abort, bench: &mut Bench, script: &str) -> Result<(), Fail> {
    let mut told = String::new(bench.alloc);
    tell_script(&mut told, bench, script)?;
    expect_equal(rt, "script", told.as_str(), script);
    Ok(())
}

fn close(bench: Bench) {
    let Bench {
        alloc: _,
        asking: _,
        groups,
        cache,
        flights,
        device,
    } = bench;
    flights.abandon();
    drop(device);
    drop(cache);
    drop(groups);
}

fn open_bench(alloc: Global, asking: Asking, cache: Cache) -> Result<Bench, OutOfMemory> {
    let device = MemDevice::new(alloc, 8)?;
    Ok(Bench {
        alloc,
        asking,
        groups: Groups::new(alloc),
        cache,
        flights: Flights::new(alloc),
        device,
    })
}

fn walk(
    rt: &impl Abort,
    alloc: Global,
    asking: Asking,
    cache: Cache,
    script: &str,
) -> Result<(), Fail> {
    let mut bench = open_bench(alloc, asking, cache)?;
    let walked = follow_script(rt, &mut bench, script);
    close(bench);
    walked
}

#[test]
fn answers_are_as_worked(rt: HostRuntime) -> Result<(), Fail> {
    for script in SCRIPTS {
        let cache = open_zeros(&rt, rt.alloc(), 8)?;
        walk(&rt, rt.alloc(), Asking::InLists, cache, script)?;
    }
    Ok(())
}

#[test]
fn single_asks_are_answered_so_too(rt: HostRuntime) -> Result<(), Fail> {
    for script in SCRIPTS {
        let cache = open_zeros(&rt, rt.alloc(), 8)?;
        walk(&rt, rt.alloc(), Asking::OneByOne, cache, script)?;
    }
    Ok(())
}

// A cache that has no block at first answers as one that has all.
#[test]
fn blocks_are_brought_as_they_are_asked_for(rt: HostRuntime) -> Result<(), Fail> {
    for script in SCRIPTS {
        let cache = Cache::of(rt.alloc(), 8);
        walk(&rt, rt.alloc(), Asking::InLists, cache, script)?;
        let cache = Cache::of(rt.alloc(), 8);
        walk(&rt, rt.alloc(), Asking::OneByOne, cache, script)?;
    }
    Ok(())
}

// As many groups as there may be, and one more.
fn begin_all(rt: &impl Abort, groups: &mut Groups) -> Result<(), Fail> {
    for number in 0..MAX_GROUPS {
        let group = groups.create()?;
        expect_equal(rt, "group", group, GroupNo(number as u32));
    }
    Ok(())
}

#[test]
fn groups_are_limited(rt: HostRuntime) -> Result<(), Fail> {
    let mut groups = Groups::new(rt.alloc());
    begin_all(&rt, &mut groups)?;
    let refused = Err(GroupRefusal::TooManyGroups);
    expect_equal(&rt, "one more", groups.create(), refused);
    Ok(())
}
