// The work of one walk, in slices that its caller lends.
ghost use Rattle.std.specs.Prelude.{◌≡◌, ℕ, ◌+◌, ◌<◌, ◌≤◌, ◌↔◌, true, false, length, slice_index, slice_index_or, slice_set, IsTrue, IsOk, MatchOption, MatchResult};
ghost use Rattle.walk.specs.Walking.{Room, Reached, Spread, Loaded, Walked, enough};
ghost use Rattle.walk.specs.Lent.{work_of, Kept};

use crate::has;
use plan::{Plan, TooShort};

// A walk on its way: the plan; the states that were reached; those that were ever put into the queue; and the queue, of which
// the first `len` places are in use. The states at its first `done` places were given out to be expanded. By a rule of the
// project nothing allocates here, so the queue is a slice with its length beside it. That a method leaves the plan and the
// slices as they are (`Kept`) speaks of an old and a new work, so it is no fact of this type.
#[derive(Drop)]
struct Traversal<'a, P> {
    plan: &'a P,
    reached: &'a mut [bool],
    queued: &'a mut [bool],
    queue: &'a mut [usize],
    len: usize,
    done: usize,
}

impl<'a, P: Plan> Traversal<'a, P> {
    // Puts a state into the queue.
    fn enqueue(&mut self, state: usize)
        requires in_queued { state < length self.old.queued.now }
        requires in_queue { self.old.len < length self.old.queue.now }
        ensures kept { Kept self.old self.new }
        ensures reached { self.new.reached.now ≡ self.old.reached.now }
        ensures queued { self.new.queued.now ≡ slice_set self.old.queued.now state true }
        ensures queue { self.new.queue.now ≡ slice_set self.old.queue.now self.old.len state }
        ensures len { self.new.len ≡ self.old.len + 1 }
    {
        self.queued[state] = true;
        self.queue[self.len] = state;
        self.len += 1;
    }

    // Puts the first states into the queue, which is empty.
    fn load(&mut self, first: &[bool])
        requires queued_long { (P.meaning self.old.plan.now).states ≤ length self.old.queued.now }
        requires queue_long { (P.meaning self.old.plan.now).states ≤ length self.old.queue.now }
        requires none_queued { (k : ℕ) → slice_index_or self.old.queued.now k false ≡ false }
        requires empty { self.old.len ≡ 0 }
        ensures kept { Kept self.old self.new }
        ensures reached { self.new.reached.now ≡ self.old.reached.now }
        ensures loaded { Loaded (P.meaning self.old.plan.now).states first.now self.new.queued.now self.new.queue.now self.new.len (P.meaning self.old.plan.now).states }
    {
        for state in 0..self.plan.states() {
            if has(first, state) {
                self.enqueue(state);
            }
        }
    }

    // Marks the state that a step leads to as reached, and puts it into the queue if it is unmarked and was never there.
    fn reach(&mut self, target: usize)
        requires room { Room (P.meaning self.old.plan.now).states (work_of self.old) }
        requires inside { target < (P.meaning self.old.plan.now).states }
        ensures kept { Kept self.old self.new }
        ensures reached { Reached (P.meaning self.old.plan.now) target (work_of self.old) (work_of self.new) }
    {
        self.reached[target] = true;
        if !self.plan.marked(target) && !self.queued[target] {
            self.enqueue(target);
        }
    }

    // Reaches every state that a state steps to.
    fn expand(&mut self, state: usize)
        requires { Room (P.meaning self.old.plan.now).states (work_of self.old) }
        ensures kept { Kept self.old self.new }
        ensures spread { Spread (P.meaning self.old.plan.now) state (length ((P.meaning self.old.plan.now).steps state)) (work_of self.old) (work_of self.new) }
    {
        let plan = self.plan;
        for i in 0..plan.step_count(state) {
            self.reach(plan.step(state, i));
        }
    }

    // Gives out the next of the states that wait to be expanded.
    fn next_waiting(&mut self) -> Option<usize>
        requires { self.old.len ≤ length self.old.queue.now }
        ensures { MatchOption result ((self.new ≡ self.old) × (self.old.len ≤ self.old.done)) (λ state. (self.new ≡ record self.old { done = self.old.done + 1 }) × (self.old.done < self.old.len) × (state ≡ slice_index self.old.queue.now self.old.done)) }
    {
        if self.done >= self.len {
            return None;
        }
        let state = self.queue[self.done];
        self.done += 1;
        Some(state)
    }
}

// Walks from the first states, a set that is kept as a slice of yes and no, and marks exactly the states that they lead
// to: by one or more steps, with only unmarked states between. The other two slices are work space. Refused, and nothing
// touched, where one of the three is shorter than the plan has states. The three stay parameters: that a walk works in
// slices which its caller lends from locals of its own is a form that the users of this project ask for.
pub fn walk<P: Plan>(
    plan: &P,
    first: &[bool],
    reached: &mut [bool],
    queued: &mut [bool],
    queue: &mut [usize],
) -> Result<(), TooShort>
    ensures room { IsOk result ↔ IsTrue (enough (P.meaning plan.now).states (length reached.old) (length queued.old) (length queue.old)) }
    ensures came { MatchResult result (λ _. Walked (P.meaning plan.now) first.now reached.new) (λ short. (short.needed ≡ (P.meaning plan.now).states) × (reached.new ≡ reached.old) × (queued.new ≡ queued.old) × (queue.new ≡ queue.old)) }
{
    let states = plan.states();
    if reached.len() < states || queued.len() < states || queue.len() < states {
        return Err(TooShort { needed: states });
    }
    reached.fill(false);
    queued.fill(false);
    let mut work = Traversal {
        plan,
        reached,
        queued,
        queue,
        len: 0,
        done: 0,
    };
    work.load(first);
    while let Some(state) = work.next_waiting() {
        work.expand(state);
    }
    Ok(())
}
