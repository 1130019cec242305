//! What is asked of the classes.
ghost use Rattle.std.specs.Prelude.{◌≡◌, ◌<◌, ◌≤◌, false, None, length, IfOk, IfSome};
ghost use Rattle.patch_model.specs.declared.limits.TheConstants.{MAX_CACHED};
ghost use Rattle.patch_graph.specs.State.{KeysFit};
ghost use Rattle.patch_graph.specs.Ready.{AreReady, TellsReady, TellsNextOpen};
ghost use Rattle.patch_graph.specs.Between.{LacksAKey, TellsBetweenKeys, TellsLeastBetween, TellsReach, is_newest};
ghost use Rattle.patch_graph.specs.Marks.{AreClear, HoldsMarked};
ghost use Rattle.patch_graph.specs.Search.{IsReachable, IsUnderWay, steps};
ghost use Rattle.patch_graph.specs.declared.searching.Way.TheVariants.{Down, Up};

use crate::between::{copy_without, least_name, rests_on_leaves};
use crate::marks::{clear, is_marked};
use crate::ready::{list_keys, mark_ready, marked_numbers, settle};
use crate::register::Register;
use crate::scratch::Scratch;
use crate::searching::{Course, Way, begin, go_on, search};
use patch_model::{BlockNo, PatchNo, laws};
use std::alloc::{AllocError, Allocator};

/// At so many numbers more a search for what lies between two classes looks in each turn.
const TURN: usize = 64;

/// The numbers that a send of the block takes, rising, by a search among all classes.
pub fn numbers_searched<A: Allocator, B: Allocator>(
    alloc: B,
    register: &Register<A>,
    block: BlockNo,
    scratch: &mut Scratch<A>,
) -> Result<Vec<PatchNo, B>, AllocError>
    requires { KeysFit register.now.slots scratch.old }
    ensures scratch { scratch.new ≡ scratch.old }
    ensures answer { IfOk result (λ numbers. AreReady register.now block numbers.items) }
{
    laws::ready_is_largest();
    let marks = scratch.marks.as_mut_slice();
    let keys = scratch.queue.as_mut_slice();
    list_keys(keys);
    mark_ready(register, block, keys, marks);
    let found = marked_numbers(alloc, register, keys, marks);
    clear(keys, marks);
    found
}

/// The numbers that a send of the block takes, rising.
pub fn numbers_ready<A: Allocator, B: Allocator>(
    alloc: B,
    register: &Register<A>,
    block: BlockNo,
) -> Result<Vec<PatchNo, B>, AllocError>
    ensures { IfOk result (λ numbers. AreReady register.now block numbers.items) }
{
    laws::ready_is_largest();
    register.links.ready(alloc, block)
}

/// Whether a send of the block takes any patch.
pub fn is_any_ready<A: Allocator>(register: &Register<A>, block: BlockNo) -> bool
    ensures { TellsReady register.now block result }
{
    laws::ready_is_largest();
    register.links.any_ready(block)
}

/// The least block from one on of which a write can begin, of those below `MAX_CACHED`.
pub fn next_open<A: Allocator>(register: &Register<A>, from: usize) -> Option<BlockNo>
    ensures answer { TellsNextOpen register.now from result }
    ensures within { IfSome result (λ block. (from ≤ block) × (block < MAX_CACHED)) }
{
    laws::ready_is_largest();
    register.links.next_open(from)
}

/// `reaches`, on marks and a queue.
fn reaches_exactly<A: Allocator>(
    register: &Register<A>,
    a: PatchNo,
    b: PatchNo,
    marks: &mut [bool],
    queue: &mut [usize],
) -> bool
    requires fits { KeysFit register.now.slots (length marks.old) }
    requires queue_fits { length marks.old ≤ length queue.old }
    requires clear { AreClear marks.old }
    ensures answer { TellsReach register.now a b result }
    ensures absent { LacksAKey register.now.numbers a b → result ≡ false }
    ensures cleared { AreClear marks.new }
{
    let Some(from) = register.find(a) else {
        return false;
    };
    let Some(to) = register.find(b) else {
        return false;
    };
    // No class reaches itself.
    if from == to {
        return false;
    }
    // Not reached: there is a class at the key, and marks for all of them.
    if from >= marks.len() {
        return false;
    }
    let count = search(register, Way::Down, from, to, marks, queue);
    let reaches = is_marked(marks, to);
    clear(&queue[..count], marks);
    reaches
}

/// Whether a path leads from the class of the one patch to that of the other.
pub fn reaches<A: Allocator>(
    register: &Register<A>,
    a: PatchNo,
    b: PatchNo,
    scratch: &mut Scratch<A>,
) -> bool
    requires fits { KeysFit register.now.slots scratch.old }
    ensures answer { TellsReach register.now a b result }
    ensures absent { LacksAKey register.now.numbers a b → result ≡ false }
    ensures scratch { scratch.new ≡ scratch.old }
{
    reaches_exactly(
        register,
        a,
        b,
        scratch.marks.as_mut_slice(),
        scratch.queue.as_mut_slice(),
    )
}

/// Whether the class at the key has the name of the last patch that was made: nothing depends on such a class.
fn is_newest<A: Allocator>(register: &Register<A>, key: usize) -> bool
    ensures { result ≡ is_newest register.now.slots key register.now.made }
{
    match register.class_at(key) {
        Some(class) => class.name.0.checked_add(1) == Some(register.made()),
        None => false,
    }
}

/// The least name of a third class on a path from the class at the one key to that at the other, where the marked keys are those of
/// the classes from which a path leads to the second: so a search among them meets what lies between, and nothing else.
fn least_among<A: Allocator>(
    register: &Register<A>,
    from: usize,
    to: usize,
    marks: &[bool],
    met: &mut [bool],
    found: &mut [usize],
) -> Option<PatchNo>
    requires fits { KeysFit register.now.slots (length marks.now) }
    requires fits_met { KeysFit register.now.slots (length met.old) }
    requires found_fit { length met.old ≤ length found.old }
    requires clear { AreClear met.old }
    requires above { IsReachable (steps register.now.slots register.now.numbers Up) to (length marks.now) marks.now }
    ensures answer { TellsBetweenKeys register.now from to result }
    ensures cleared { AreClear met.new }
{
    if !is_marked(marks, from) {
        return None;
    }
    // Not reached: there are marks for all classes.
    if from >= met.len() {
        return None;
    }
    let count = search(register, Way::Among(marks), from, to, met, found);
    let keys = &found[..count];
    let least = least_name(register, keys, met, &[], from, to);
    clear(keys, met);
    least
}

/// The least name of a third class on a path from the class at the one key to that at the other, where the marked keys are those that
/// a search down from the first one found, the second one among them. Of these classes those are dead ends that don't lead to the
/// second: they are what is left when each that leads out of them is struck out.
fn least_leading<A: Allocator>(
    register: &Register<A>,
    from: usize,
    to: usize,
    found: &mut [usize],
    marks: &[bool],
    dead_ends: &mut [bool],
) -> Option<PatchNo>
    requires fits { KeysFit register.now.slots (length marks.now) }
    requires dead_ends_fit { length marks.now ≤ length dead_ends.old }
    requires clear { AreClear dead_ends.old }
    requires held { HoldsMarked marks.now found.old }
    requires below { IsReachable (steps register.now.slots register.now.numbers Down) from to marks.now }
    ensures answer { TellsBetweenKeys register.now from to result }
    ensures cleared { AreClear dead_ends.new }
    ensures length { length dead_ends.new ≡ length dead_ends.old }
    ensures held { HoldsMarked marks.now found.new }
{
    found.reverse();
    copy_without(found, marks, dead_ends, to);
    settle(register, found, dead_ends);
    let least = least_name(register, found, marks, dead_ends, from, to);
    clear(found, dead_ends);
    least
}

/// Two searches for what lies between two classes.
struct Sides {
    /// Up from the second class.
    above: Course,
    /// Down from the first one.
    below: Course,
}

/// Lets two searches go on by turns until one of them is whole, in each turn by some numbers more. The one up stops at no class:
/// where classes form a ring, one may lead to the second class through the first.
fn take_turns<A: Allocator>(
    register: &Register<A>,
    to: usize,
    marks: &mut [bool],
    queue: &mut [usize],
    met: &mut [bool],
    found: &mut [usize],
    begun: Sides,
) -> Sides
    requires queue_fits { length marks.old ≤ length queue.old }
    requires found_fit { length met.old ≤ length found.old }
    requires above { IsUnderWay register.now Up (length met.old) met.old found.old begun.above }
    requires below { IsUnderWay register.now Down to marks.old queue.old begun.below }
    ensures above { IsUnderWay register.now Up (length met.new) met.new found.new result.above }
    ensures below { IsUnderWay register.now Down to marks.new queue.new result.below }
    ensures from_above { result.above.from ≡ begun.above.from }
    ensures from_below { result.below.from ≡ begun.below.from }
    ensures length { length marks.new ≡ length marks.old }
    ensures length_queue { length queue.new ≡ length queue.old }
    ensures length_met { length met.new ≡ length met.old }
    ensures length_found { length found.new ≡ length found.old }
{
    let nowhere = met.len();
    let Sides {
        mut above,
        mut below,
    } = begun;
    let mut limit = Some(TURN);
    while let Some(most) = limit {
        above = go_on(register, Way::Up, nowhere, limit, met, found, above);
        if above.is_whole() {
            return Sides { above, below };
        }
        below = go_on(register, Way::Down, to, limit, marks, queue, below);
        if below.is_whole() {
            return Sides { above, below };
        }
        limit = most.checked_add(TURN);
    }
    Sides { above, below }
}

/// The least name of a third class on a path from the class at the one key to that at the other, where a search down from the first is
/// whole.
fn least_below<A: Allocator>(
    register: &Register<A>,
    to: usize,
    below: Course,
    marks: &mut [bool],
    queue: &mut [usize],
    dead_ends: &mut [bool],
) -> Option<PatchNo>
    requires fits { KeysFit register.now.slots (length marks.old) }
    requires queue_fits { length marks.old ≤ length queue.old }
    requires dead_ends_fit { length marks.old ≤ length dead_ends.old }
    requires below { IsUnderWay register.now Down to marks.old queue.old below }
    requires whole { below.count ≤ below.head }
    requires clear { AreClear dead_ends.old }
    ensures answer { TellsBetweenKeys register.now below.from to result }
    ensures cleared { AreClear marks.new }
    ensures cleared_ends { AreClear dead_ends.new }
{
    let found = &mut queue[..below.count];
    if !is_marked(marks, to) {
        clear(found, marks);
        return None;
    }
    let least = least_leading(register, below.from, to, found, marks, dead_ends);
    clear(found, marks);
    least
}

/// The same, where a search up from the second class has come some way.
fn least_above<A: Allocator>(
    register: &Register<A>,
    from: usize,
    above: Course,
    marks: &mut [bool],
    queue: &mut [usize],
    met: &mut [bool],
    found: &mut [usize],
) -> Option<PatchNo>
    requires fits { KeysFit register.now.slots (length marks.old) }
    requires fits_met { KeysFit register.now.slots (length met.old) }
    requires queue_fits { length marks.old ≤ length queue.old }
    requires found_fit { length met.old ≤ length found.old }
    requires above { IsUnderWay register.now Up (length marks.old) marks.old queue.old above }
    requires clear { AreClear met.old }
    ensures answer { TellsBetweenKeys register.now from above.from result }
    ensures cleared { AreClear marks.new }
    ensures cleared_met { AreClear met.new }
{
    let nowhere = marks.len();
    let all = go_on(register, Way::Up, nowhere, None, marks, queue, above);
    let least = least_among(register, from, all.from, marks, met, found);
    clear(&queue[..all.count], marks);
    least
}

/// The least name of a third class on a path from the class at the one key to that at the other, on two rows of marks and two
/// queues. It is looked for above the second class and below the first by turns: little may lie on the one side where there is
/// much on the other.
fn least_between<A: Allocator>(
    register: &Register<A>,
    from: usize,
    to: usize,
    marks: &mut [bool],
    queue: &mut [usize],
    met: &mut [bool],
    found: &mut [usize],
) -> Option<PatchNo>
    requires fits { KeysFit register.now.slots (length marks.old) }
    requires queue_fits { length marks.old ≤ length queue.old }
    requires met_fit { length marks.old ≤ length met.old }
    requires found_fit { length met.old ≤ length found.old }
    requires clear { AreClear marks.old }
    requires clear_met { AreClear met.old }
    ensures answer { TellsBetweenKeys register.now from to result }
    ensures cleared { AreClear marks.new }
    ensures cleared_met { AreClear met.new }
{
    // Not reached: there are classes at the keys, and marks for all of them.
    if from >= marks.len() || to >= met.len() {
        return None;
    }
    let begun = Sides {
        above: begin(to, met, found),
        below: begin(from, marks, queue),
    };
    let Sides { above, below } = take_turns(register, to, marks, queue, met, found, begun);
    if !below.is_whole() {
        clear(&queue[..below.count], marks);
        return least_above(register, from, above, met, found, marks, queue);
    }
    clear(&found[..above.count], met);
    least_below(register, to, below, marks, queue, met)
}

/// The least name of a third class on a path from the class of the one patch to that of the other. There is mostly none, and
/// nothing is searched for.
pub fn between<A: Allocator>(
    register: &Register<A>,
    a: PatchNo,
    b: PatchNo,
    scratch: &mut Scratch<A>,
) -> Option<PatchNo>
    requires fits { KeysFit register.now.slots scratch.old }
    ensures answer { TellsLeastBetween register.now a b result }
    ensures absent { LacksAKey register.now.numbers a b → result ≡ None }
    ensures scratch { scratch.new ≡ scratch.old }
{
    let Some(to) = register.find(b) else {
        return None;
    };
    if is_newest(register, to) {
        return None;
    }
    let Some(from) = register.find(a) else {
        return None;
    };
    if rests_on_leaves(register, from, to) {
        return None;
    }
    least_between(
        register,
        from,
        to,
        scratch.marks.as_mut_slice(),
        scratch.queue.as_mut_slice(),
        scratch.met.as_mut_slice(),
        scratch.found.as_mut_slice(),
    )
}
