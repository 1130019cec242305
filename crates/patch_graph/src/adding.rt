//! What a new patch depends on, and how its class comes to the others.
ghost use Rattle.std.specs.Prelude.{◌≡◌, ◌<◌, ◌≤◌, ◌+◌, ◌++◌, ◌&&◌, ◌==◌, false, filter, map, nat_lt, if◌then◌else◌, ◌∷◌, [], IfOk, OnOk, OnErr};
ghost use Rattle.std.specs.List.{list_all};
ghost use Rattle.std.specs.Option.{option_map_or};
ghost use Rattle.patch_links.specs.State.{class_at};
ghost use Rattle.patch_links.specs.Adding.{IsNew};
ghost use Rattle.patch_graph.specs.State.{KeysFit};
ghost use Rattle.patch_graph.specs.Adding.{AreDependencies, lets_drop, is_hard, IsAdded};
ghost use Rattle.patch_model.specs.Names.{numbers_named};
ghost use Rattle.patch_graph.specs.Naming.{IsNamedBelow, HasTaken};

use crate::register::Register;
use crate::runs::push_runs;
use crate::scratch::Scratch;
use crate::skylines::{lay, tops};
use patch_links::Class;
use patch_model::{BlockNo, MAX_PATCHES, Named, PatchNo, Undo};
use patch_numbers::NumberList;
use patch_skyline::Span;
use std::alloc::{AllocError, Allocator};

/// Puts a number behind the others, if it is below this one.
fn push_below<A: Allocator>(made: u32, no: PatchNo, all: &mut NumberList<A>)
    requires { 1 ≤ all.old.room }
    ensures items { all.new.items ≡ all.old.items ++ (if nat_lt no made then no ∷ [] else []) }
    ensures room { all.old.room ≤ all.new.room + 1 }
{
    if no.0 < made {
        all.push_reserved(no);
    }
}

/// Whether all of these are below this one.
fn are_below(made: u32, numbers: &[PatchNo]) -> bool
    ensures { result ≡ list_all (λ n. nat_lt n made) numbers.now }
{
    numbers.iter().all(|no| no.0 < made)
}

/// Puts numbers behind the others, of those that are below this one: mostly all are, and more than one are copied at once.
fn push_numbers<A: Allocator>(
    made: u32,
    numbers: &[PatchNo],
    all: &mut NumberList<A>,
) -> Result<(), AllocError>
    ensures { OnOk result (all.new.items ≡ all.old.items ++ filter (λ n. nat_lt n made) numbers.now) }
{
    if numbers.is_empty() {
        return Ok(());
    }
    all.reserve(numbers.len())?;
    if numbers.len() > 1 && are_below(made, numbers) {
        all.extend_reserved(numbers);
        return Ok(());
    }
    for no in numbers {
        push_below(made, *no, all);
    }
    Ok(())
}

/// The same of the numbers of spans.
fn push_tops<A: Allocator>(
    made: u32,
    spans: &[Span],
    all: &mut NumberList<A>,
) -> Result<(), AllocError>
    ensures { OnOk result (all.new.items ≡ all.old.items ++ filter (λ n. nat_lt n made) (map (λ s. s.no) spans.now)) }
{
    all.reserve(spans.len())?;
    for span in spans {
        push_below(made, span.no, all);
    }
    Ok(())
}

/// Puts the numbers that a patch names behind the others, or of runs those through which the others are reached.
fn push_named<A: Allocator>(
    register: &Register<A>,
    after: Named<'_>,
    all: &mut NumberList<A>,
) -> Result<(), AllocError>
    ensures { OnOk result (HasTaken register.now.slots register.now.numbers (IsNamedBelow register.now.made (numbers_named after.entry)) all.old.items all.new.items) }
{
    match after {
        Named::Listed(numbers) => push_numbers(register.made(), numbers, all),
        Named::InRuns(runs) => push_runs(register, runs, all),
    }
}

/// The numbers that a patch of this span names, and of each of its bytes the patch that wrote it last. Each earlier one that
/// wrote it is one on which that depends, directly or through others. A number that wasn't made is none on which it depends. Of
/// numbers in runs those are left out that aren't live, or are reached through others of them.
pub fn dependencies<A: Allocator>(
    alloc: A,
    register: &Register<A>,
    block: BlockNo,
    start: usize,
    stop: usize,
    after: Named<'_>,
) -> Result<NumberList<A>, AllocError>
    requires { start < stop }
    ensures { IfOk result (λ all. AreDependencies register.now block start stop (numbers_named after.entry) all.items) }
{
    let made = register.made();
    let mut all = NumberList::new(alloc);
    push_named(register, after, &mut all)?;
    push_tops(made, tops(&register.skylines, block, start, stop), &mut all)?;
    Ok(all)
}

/// Whether the class at the key is a hard one of the block.
fn is_hard_at<A: Allocator>(register: &Register<A>, block: BlockNo, key: usize) -> bool
    ensures { result ≡ option_map_or (λ c. c.hard && c.block == block) (class_at register.now.slots key) false }
{
    match register.class_at(key) {
        Some(class) => class.hard && class.block == block,
        None => false,
    }
}

/// Whether a patch of the block that depends on this number may drop its undo bytes: the number isn't live, or that of a
/// hard class of the block.
fn lets_drop<A: Allocator>(register: &Register<A>, block: BlockNo, no: PatchNo) -> bool
    ensures { result ≡ lets_drop register.now.slots register.now.numbers block no }
{
    match register.find(no) {
        Some(key) => is_hard_at(register, block, key),
        None => true,
    }
}

/// Whether all of these let it.
fn let_drop<A: Allocator>(register: &Register<A>, block: BlockNo, deps: &[PatchNo]) -> bool
    ensures { result ≡ list_all (lets_drop register.now.slots register.now.numbers block) deps.now }
{
    deps.iter().all(|no| lets_drop(register, block, *no))
}

/// Whether a patch is hard that depends on these.
pub fn is_hard<A: Allocator>(
    register: &Register<A>,
    block: BlockNo,
    undo: Undo,
    deps: &[PatchNo],
) -> bool
    ensures { result ≡ is_hard register.now.slots register.now.numbers block undo deps.now }
{
    match undo {
        Undo::Keep => false,
        Undo::MayDrop => let_drop(register, block, deps),
    }
}

/// Makes room for searches through one class more, puts it in, and lays its span on its block's skyline.
pub fn insert<A: Allocator + Copy>(
    alloc: A,
    register: &mut Register<A>,
    scratch: &mut Scratch<A>,
    class: Class<A>,
) -> Result<usize, AllocError>
    requires numbers { register.old.made < MAX_PATCHES }
    requires some { class.start < class.stop }
    requires name { class.name ≡ register.old.made }
    requires new { IsNew register.old.made class }
    ensures inserted { IfOk result (λ key. IsAdded register.old register.new key class) }
    ensures fit { KeysFit register.old.slots scratch.old → KeysFit register.new.slots scratch.new }
    ensures refused { OnErr result (register.new ≡ register.old) }
{
    scratch.reserve(register.links.next_key())?;
    let top = Span {
        start: class.start,
        stop: class.stop,
        no: class.name,
    };
    let key = lay(
        alloc,
        &mut register.skylines,
        &mut register.links,
        class,
        top,
    )?;
    register.made += 1;
    Ok(key)
}
