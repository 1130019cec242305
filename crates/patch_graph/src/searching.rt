//! Searches through the classes.
ghost use Rattle.std.specs.Prelude.{◌≡◌, ◌<◌, ◌≤◌, length, nat_le, take, false, None};
ghost use Rattle.patch_graph.specs.Marks.{is_marked, AreClear, HoldsMarked};
ghost use Rattle.patch_graph.specs.Search.{admits, steps, AreNext, IsReachable, IsUnderWay, HasBegun, HasFollowed, HasLooked, Visited, walk};

use crate::marks::is_marked;
use crate::register::Register;
use patch_model::PatchNo;
use std::alloc::Allocator;

/// Where a search goes on from a class.
#[derive(Clone, Copy)]
pub enum Way<'a> {
    /// To the classes that it depends on directly.
    Down,
    /// To those that depend directly on it.
    Up,
    /// To those that it depends on directly and whose keys are marked here.
    Among(&'a [bool]),
}

/// How far a search has come.
#[derive(Clone, Copy)]
pub struct Course {
    /// The key of the class at which it began.
    pub from: usize,
    /// How many classes it met. Their keys are the first of the queue.
    pub count: usize,
    /// From so many of these it went on.
    pub head: usize,
    /// How many numbers it looked at.
    pub looked: usize,
}

impl Course {
    /// Whether it went on from all that it met.
    pub fn is_whole(self) -> bool
        ensures { result ≡ nat_le self.count self.head }
    {
        self.count <= self.head
    }

    /// The same search further on.
    fn moved(self, count: usize, head: usize, looked: usize) -> Course
        ensures { result ≡ record self { count = count; head = head; looked = looked } }
    {
        Course {
            from: self.from,
            count,
            head,
            looked,
        }
    }
}

/// Whether a search may come to a key.
fn admits(way: Way<'_>, key: usize) -> bool
    ensures { result ≡ admits way.entry key }
{
    match way {
        Way::Down => true,
        Way::Up => true,
        Way::Among(marks) => is_marked(marks, key),
    }
}

/// The numbers by which a search goes on from the class at a key. Some of them may lead nowhere, or to the class itself.
fn next_of<'a, A: Allocator>(register: &'a Register<A>, way: Way<'_>, key: usize) -> &'a [PatchNo]
    ensures { AreNext register.now.slots register.now.numbers way.entry key result.now }
{
    if let Way::Up = way {
        return register.links.followers(key);
    }
    match register.class_at(key) {
        Some(class) => class.after.as_slice(),
        None => &[],
    }
}

/// Marks the class of a number and puts it at the queue's end, unless it is marked or the search may not come there. The new end.
fn visit<A: Allocator>(
    register: &Register<A>,
    way: Way<'_>,
    no: PatchNo,
    marks: &mut [bool],
    queue: &mut [usize],
    tail: usize,
) -> usize
    ensures { Visited register.now.numbers way.entry no marks.old marks.new queue.old queue.new tail result }
{
    let Some(key) = register.find(no) else {
        return tail;
    };
    // Not reached in a search: there are marks for all classes.
    if key >= marks.len() {
        return tail;
    }
    if is_marked(marks, key) {
        return tail;
    }
    if !admits(way, key) {
        return tail;
    }
    // Not reached in a search: the queue holds each marked key once, and is as long as the marks.
    if tail >= queue.len() {
        return tail;
    }
    marks[key] = true;
    queue[tail] = key;
    tail + 1
}

/// Marks what these numbers lead to, by which a search goes on from the class at the queue's head. The new end of the queue.
fn visit_all<A: Allocator>(
    register: &Register<A>,
    way: Way<'_>,
    next: &[PatchNo],
    marks: &mut [bool],
    queue: &mut [usize],
    head: usize,
    tail: usize,
) -> usize
    ensures { HasFollowed register.now way.entry next.now head (walk marks.old queue.old tail) (walk marks.new queue.new result) }
{
    let mut end = tail;
    for no in next {
        end = visit(register, way, *no, marks, queue, end);
    }
    end
}

/// Marks where the search goes on from the next class of the queue, unless it is at the key `stop`. The new end of the queue.
fn look<A: Allocator>(
    register: &Register<A>,
    way: Way<'_>,
    stop: usize,
    marks: &mut [bool],
    queue: &mut [usize],
    head: usize,
    tail: usize,
) -> usize
    requires queue_fits { length marks.old ≤ length queue.old }
    requires inside { head < length queue.old }
    ensures { HasLooked register.now way.entry stop head (walk marks.old queue.old tail) (walk marks.new queue.new result) }
{
    let key = queue[head];
    if key == stop {
        return tail;
    }
    let next = next_of(register, way, key);
    visit_all(register, way, next, marks, queue, head, tail)
}

/// How many numbers a search looks at from the class at a key, at which it may stop.
fn steps_at<A: Allocator>(register: &Register<A>, way: Way<'_>, stop: usize, key: usize) -> usize {
    if key == stop {
        0
    } else {
        next_of(register, way, key).len()
    }
}

/// Whether so many steps are more than a search may take.
fn is_over(limit: Option<usize>, steps: usize) -> bool
    ensures { limit ≡ None → result ≡ false }
{
    match limit {
        Some(most) => most < steps,
        None => false,
    }
}

/// Begins a search: marks the class at a key and puts it into the queue.
pub fn begin(from: usize, marks: &mut [bool], queue: &mut [usize]) -> Course
    requires queue_fits { length marks.old ≤ length queue.old }
    requires low { from < length marks.old }
    requires clear { AreClear marks.old }
    ensures begun { HasBegun from marks.new queue.new result }
    ensures length { length marks.new ≡ length marks.old }
    ensures length_queue { length queue.new ≡ length queue.old }
{
    marks[from] = true;
    queue[0] = from;
    Course {
        from,
        count: 1,
        head: 0,
        looked: 0,
    }
}

/// Goes on with a search: marks what it comes to, but not what is reached through the key `stop` alone. The marked ones are the
/// first of the queue. It ends where it would have to look at more numbers than the limit, if there is one, from its beginning on.
pub fn go_on<A: Allocator>(
    register: &Register<A>,
    way: Way<'_>,
    stop: usize,
    limit: Option<usize>,
    marks: &mut [bool],
    queue: &mut [usize],
    course: Course,
) -> Course
    requires queue_fits { length marks.old ≤ length queue.old }
    requires under_way { IsUnderWay register.now way stop marks.old queue.old course }
    ensures under_way { IsUnderWay register.now way.entry stop marks.new queue.new result }
    ensures from { result.from ≡ course.from }
    ensures whole { limit ≡ None → result.count ≤ result.head }
    ensures length { length marks.new ≡ length marks.old }
    ensures length_queue { length queue.new ≡ length queue.old }
{
    let mut head = course.head;
    let mut tail = course.count;
    let mut looked = course.looked;
    while head < tail && head < queue.len() {
        let sum = looked.saturating_add(steps_at(register, way, stop, queue[head]));
        if is_over(limit, sum) {
            return course.moved(tail, head, looked);
        }
        looked = sum;
        tail = look(register, way, stop, marks, queue, head, tail);
        head += 1;
    }
    course.moved(tail, head, looked)
}

/// Marks what a search comes to from the class at `from`, and itself, but not what is reached through the key `stop` alone.
/// Answers how many these are: they are the first of the queue.
pub fn search<A: Allocator>(
    register: &Register<A>,
    way: Way<'_>,
    from: usize,
    stop: usize,
    marks: &mut [bool],
    queue: &mut [usize],
) -> usize
    requires queue_fits { length marks.old ≤ length queue.old }
    requires low { from < length marks.old }
    requires clear { AreClear marks.old }
    ensures found { IsReachable (steps register.now.slots register.now.numbers way.entry) from stop marks.new }
    ensures held { HoldsMarked marks.new (take result queue.new) }
    ensures within { result ≤ length queue.new }
    ensures length { length marks.new ≡ length marks.old }
    ensures length_queue { length queue.new ≡ length queue.old }
{
    let begun = begin(from, marks, queue);
    let course = go_on(register, way, stop, None, marks, queue, begun);
    course.count
}
